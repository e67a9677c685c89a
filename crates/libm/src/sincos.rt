// Sine and cosine of libm 0.2.1 at angles of at most 1,048,576 in magnitude: specs/Circle.antt has
// them operation by operation.
ghost use Rattle.std.specs.Prelude.{◌≡◌, IfOk};
ghost use Rattle.checked.specs.Answers.{number_of};
ghost use Rattle.checked.specs.Told.{told};
ghost use Rattle.checked.specs.Checked.{answered, first, nine, eight};
ghost use Rattle.libm.specs.Sincos as Circle;

use crate::k_trig::{k_cos, k_sin, k_sin0};
use crate::rem_pio2::{Angle, Rest, rem_pio2};
use checked::{Refusal, finite, high_word, is_within};
use float_bits::choose;

// The sine and the cosine of an angle.
#[derive(Clone, Copy)]
pub struct Sines {
    pub sin: f64,
    pub cos: f64,
}

// The angle x, or its refusal.
fn angle(x: f64) -> Result<Angle, Refusal>
    ensures refusal { number_of (told result) ≡ first (nine x) (eight x) }
    ensures angle { IfOk result (λ a. a.x ≡ x) }
{
    if is_within(x) {
        Ok(Angle { x })
    } else {
        finite(x)?;
        Err(Refusal::AngleTooLarge)
    }
}

fn small_sine(ix: u64, x: f64) -> f64
    ensures { result ≡ Circle.small_sine ix x }
{
    if ix < 0x3e50_0000 { x } else { k_sin0(x) }
}

// Of the two kernels only the one that the quarter asks for.
fn turned_sine(r: Rest) -> f64
    ensures { result ≡ Circle.turned_sine r }
{
    match r.quarter {
        0 => k_sin(r.y0, r.y1),
        1 => k_cos(r.y0, r.y1),
        2 => -k_sin(r.y0, r.y1),
        _ => -k_cos(r.y0, r.y1),
    }
}

fn sine(a: Angle) -> f64
    ensures { result ≡ Circle.sine a.x }
{
    let ix = high_word(a.x);
    if ix <= 0x3fe9_21fb {
        small_sine(ix, a.x)
    } else {
        turned_sine(rem_pio2(a))
    }
}

pub fn sin(x: f64) -> Result<f64, Refusal>
    ensures { told result ≡ answered (Circle.sin_c x) }
{
    Ok(sine(angle(x)?))
}

fn small_sines(ix: u64, x: f64) -> Sines
    ensures { result ≡ Circle.small_sines ix x }
{
    if ix < 0x3e46_a09e {
        Sines { sin: x, cos: 1.0 }
    } else {
        Sines {
            sin: k_sin0(x),
            cos: k_cos(x, 0.0),
        }
    }
}

fn turned_sines(r: Rest) -> Sines
    ensures { result ≡ Circle.turned_sines r }
{
    let s = k_sin(r.y0, r.y1);
    let c = k_cos(r.y0, r.y1);
    Sines {
        sin: choose(r.quarter, s, c, -s, -c),
        cos: choose(r.quarter, c, -s, -c, s),
    }
}

fn both_sines(a: Angle) -> Sines
    ensures { result ≡ Circle.sines a.x }
{
    let ix = high_word(a.x);
    if ix <= 0x3fe9_21fb {
        small_sines(ix, a.x)
    } else {
        turned_sines(rem_pio2(a))
    }
}

// Inlined, since what is returned through memory as a pair and read as one waits there.
#[inline(always)]
pub fn sincos(x: f64) -> Result<Sines, Refusal>
    ensures { told result ≡ answered (Circle.sincos_c x) }
{
    Ok(both_sines(angle(x)?))
}
