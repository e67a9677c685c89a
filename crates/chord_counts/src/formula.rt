// The formulas on numbers of any size.
ghost use Rattle.std.specs.Prelude.{◌≡◌};
ghost use Rattle.checked.specs.Checked.{answered};
ghost use Rattle.checked.specs.Told.{told};
ghost use Rattle.chord_counts.specs.Chords.{quotient_c, chords_c, clamped, per_turn_c};

use checked::{PI, Refusal, finite};
use libm::roots::acos;
use rounding::ceil;

const FEWEST: f64 = 12.0;

const MOST: f64 = 64.0;

fn quotient(radius: f64, chord: f64) -> Result<f64, Refusal>
    ensures { told result ≡ answered (quotient_c radius chord) }
{
    let d = finite(1.0 - chord / radius)?;
    let a = finite(acos(d))?;
    Ok(PI / a)
}

#[tactic(auto, using(checked::specs::Laws::settled_none), unfolding(crate::specs::Chords::chords_c))]
fn chords(radius: f64, chord: f64) -> Result<f64, Refusal>
    ensures { told result ≡ answered (chords_c radius chord) }
{
    if chord < radius {
        quotient(radius, chord)
    } else {
        Ok(0.0)
    }
}

#[tactic(auto, unfolding(crate::specs::Chords::clamped))]
fn clamp(x: f64) -> f64
    ensures { result ≡ clamped x }
{
    if x < FEWEST {
        FEWEST
    } else if x > MOST {
        MOST
    } else {
        x
    }
}

pub fn per_turn(radius: f64, chord: f64) -> Result<f64, Refusal>
    ensures { told result ≡ answered (per_turn_c radius chord) }
{
    let n = chords(radius, chord)?;
    Ok(clamp(ceil(n)))
}
