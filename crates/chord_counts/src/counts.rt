// Whole numbers from floats: how many chords or pieces something is cut into, up to a limit.
ghost use Rattle.std.specs.Prelude.{◌≡◌};
ghost use Rattle.checked.specs.Checked.{answered};
ghost use Rattle.checked.specs.Told.{told};
ghost use Rattle.chord_counts.specs.Counts.{limited_c, count_c};

use checked::{Refusal, finite};
use order::greatest;
use rounding::ceil;

// The most chords or pieces.
pub const MOST: u16 = 4096;

// The whole number x, where it is at most the limit.
fn limited(x: f64, limit: u16) -> Result<u16, Refusal>
    ensures { told result ≡ answered (limited_c x limit) }
{
    if x <= (limit as f64) {
        if x > -1.0 {
            Ok(std::num::truncating_f64_to_u64(x) as u16)
        } else {
            Ok(0)
        }
    } else {
        Err(Refusal::CountTooLarge)
    }
}

// x rounded up, at least `least`, as a count.
pub fn count(x: f64, least: f64, limit: u16) -> Result<u16, Refusal>
    ensures { told result ≡ answered (count_c x least limit) }
{
    let c = finite(ceil(x))?;
    limited(greatest(c, least), limit)
}
