// Where a piece that follows a meet turns between two samples: sought by halvings where its
// derivatives there differ in sign.
ghost use Rattle.std.specs.Prelude.{◌≡◌, cond, ◌<◌};
ghost use Rattle.checked.specs.Checked.{answered};
ghost use Rattle.checked.specs.Told.{told};
ghost use Rattle.piece_boxes.specs.Brackets.{agree, chosen, bisected_c, turning_c, widened, bracket_c};

use checked::{Refusal, finite};
use order::{greatest, least};
use piece_curves::meet_curves::{MeetCurve, MeetRates, motion, point};
use vectors::Vec2;

// Where the derivative changes sign.
#[derive(Clone, Copy)]
pub struct Bracket {
    pub lo: f64,
    pub hi: f64,
}

// From least to greatest u and v.
#[derive(Clone, Copy)]
pub struct FlatBox {
    pub low: Vec2,
    pub high: Vec2,
}

// Of a motion how fast v runs where `upright`, else u.
fn slope(m: MeetRates, upright: bool) -> Result<f64, Refusal>
    ensures { told result ≡ cond upright (told m.v) (told m.u) }
{
    if upright { m.v } else { m.u }
}

fn agree(p: bool, q: bool) -> bool
    ensures { result ≡ agree p q }
{
    if q { p } else { !p }
}

// The half of a gap up to m, or from there on, by the derivative at m.
fn chosen(g: Bracket, m: f64, d: f64, rising: bool) -> Bracket
    ensures { result ≡ chosen g m d rising }
{
    if agree(0.0 < d, rising) {
        Bracket { lo: g.lo, hi: m }
    } else {
        Bracket { lo: m, hi: g.hi }
    }
}

// Sixty halvings.
fn bisected(c: MeetCurve, upright: bool, rising: bool, g: Bracket) -> Result<Bracket, Refusal>
    ensures { told result ≡ answered (bisected_c c upright rising g) }
{
    let mut a = g;
    for _ in 0..60u16 {
        let m = finite(0.5 * (a.lo + a.hi))?;
        let d = slope(motion(c, m), upright)?;
        a = chosen(a, m, d, rising);
    }
    Ok(a)
}

// The point where the piece turns, between two places.
fn turning(c: MeetCurve, upright: bool, rising: bool, g: Bracket) -> Result<Vec2, Refusal>
    ensures { told result ≡ answered (turning_c c upright rising g) }
{
    let h = bisected(c, upright, rising, g)?;
    let m = finite(0.5 * (h.lo + h.hi))?;
    point(c, m)
}

pub fn widen(b: FlatBox, p: Vec2) -> FlatBox
    ensures { result ≡ widened b p }
{
    FlatBox {
        low: Vec2 {
            x: least(b.low.x, p.x),
            y: least(b.low.y, p.y),
        },
        high: Vec2 {
            x: greatest(b.high.x, p.x),
            y: greatest(b.high.y, p.y),
        },
    }
}

// The box with the turning point between the samples k and k + 1, of derivatives d0 and d1, where
// there is one.
#[inline(always)]
pub fn bracketed(
    c: MeetCurve,
    upright: bool,
    k: u16,
    d0: f64,
    d1: f64,
    b: FlatBox,
) -> Result<FlatBox, Refusal>
    requires { k < 64 }
    ensures { told result ≡ answered (bracket_c c upright k d0 d1 b) }
{
    if agree(0.0 < d0, 0.0 < d1) {
        Ok(b)
    } else {
        let lo = finite((k as f64) / 64.0)?;
        let hi = finite(((k + 1) as f64) / 64.0)?;
        let p = turning(c, upright, d0 <= 0.0, Bracket { lo, hi })?;
        Ok(widen(b, p))
    }
}
