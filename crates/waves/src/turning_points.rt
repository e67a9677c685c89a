// The least and the greatest v of a wave between two places, on numbers of any size: at the ends, or where the wave turns between them.
ghost use Rattle.std.specs.Prelude.{◌≡◌};
ghost use Rattle.checked.specs.Checked.{answered};
ghost use Rattle.checked.specs.Told.{told};
ghost use Rattle.waves.specs.TurningPoints.{turning_c, start_c, turns_c, range_c};

use crate::Wave;
use crate::values::v;
use checked::{PI, Refusal, finite};
use libm::atan2::atan2;
use order::{greatest, least};
use rounding::ceil;

// How many turning points a range may have.
const TURNING_POINTS: u16 = 4096;

// The least and the greatest v.
#[derive(Clone, Copy)]
pub struct Span {
    pub low: f64,
    pub high: f64,
}

// The turning points of a wave, of the neutral radius n, up to `hi`: the k-th is at first + k·half.
#[derive(Clone, Copy)]
pub struct Turning {
    pub wave: Wave,
    pub n: f64,
    pub hi: f64,
    pub first: f64,
    pub half: f64,
}

// The number of the next turning point, and the least and greatest v before it.
#[derive(Clone, Copy)]
pub struct RangeSoFar {
    pub k: f64,
    pub low: f64,
    pub high: f64,
}

fn turning_of(wave: Wave, n: f64, hi: f64) -> Result<Turning, Refusal>
    ensures { told result ≡ answered (turning_c wave n hi) }
{
    let first = finite(atan2(wave.c, wave.b) * n)?;
    let half = finite(PI * n)?;
    Ok(Turning {
        wave,
        n,
        hi,
        first,
        half,
    })
}

// The number of the first turning point not before `lo`.
#[tactic(auto, using(crate::specs::TurningPointsLaws::start_refusal), unfolding(crate::specs::TurningPoints::start_c))]
fn start(t: Turning, lo: f64) -> Result<f64, Refusal>
    ensures { told result ≡ answered (start_c t lo) }
{
    finite(ceil((lo - t.first) / t.half))
}

// The turning points from the k-th on, up to the end of the range.
fn turns(t: Turning, k: f64, low: f64, high: f64) -> Result<Span, Refusal>
    ensures { told result ≡ answered (turns_c t k low high) }
{
    let mut s = RangeSoFar { k, low, high };
    for _ in 0..TURNING_POINTS {
        let p = finite(t.first + s.k * t.half)?;
        if !(p <= t.hi) {
            return Ok(Span {
                low: s.low,
                high: s.high,
            });
        }
        let x = v(t.wave, p, t.n)?;
        let next = finite(s.k + 1.0)?;
        s = RangeSoFar {
            k: next,
            low: least(s.low, x),
            high: greatest(s.high, x),
        };
    }
    let p = finite(t.first + s.k * t.half)?;
    if p <= t.hi {
        Err(Refusal::CountTooLarge)
    } else {
        Ok(Span {
            low: s.low,
            high: s.high,
        })
    }
}

pub fn range(w: Wave, u0: f64, u1: f64, n: f64) -> Result<Span, Refusal>
    ensures { told result ≡ answered (range_c w.a w.b w.c u0 u1 n) }
{
    let lo = least(u0, u1);
    let hi = greatest(u0, u1);
    let x = v(w, lo, n)?;
    let y = v(w, hi, n)?;
    let t = turning_of(w, n, hi)?;
    let k = start(t, lo)?;
    turns(t, k, least(x, y), greatest(x, y))
}
