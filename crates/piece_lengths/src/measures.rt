// A piece's radius, how far it turns and its length, on numbers of any size.
ghost use Rattle.std.specs.Prelude.{◌≡◌};
ghost use Rattle.checked.specs.Answers.{and_then};
ghost use Rattle.checked.specs.Checked.{answered};
ghost use Rattle.checked.specs.Told.{told};
ghost use Rattle.piece_curves.specs.declared.PieceCurve.{PieceCurve};
ghost use Rattle.piece_lengths.specs.Measures.{distance_c, place_c, longer_c, further_c, traced_c, IsPlace, wave_run, followed, segment_c, arc_c, measure_c};

use checked::{Refusal, finite};
use float_bits::fabs;
use libm::atan2::atan2;
use libm::roots::hypot;
use piece_curves::meet_curves::{MeetCurve, Place, motion, placed};
use piece_curves::points::wave_at;
use piece_curves::{CurveKind, Ends, PieceCurve};
use profile_arcs::ProfileArc;
use vectors::Vec2;
use waves::Wave;

// The radius is 0 but for an arc.
#[derive(Clone, Copy)]
pub struct Measure {
    pub radius: f64,
    pub turn: f64,
    pub length: f64,
}

// How far b is from a.
pub fn distance(a: Vec2, b: Vec2) -> Result<f64, Refusal>
    ensures { told result ≡ answered (distance_c a b) }
{
    let x = finite(b.x - a.x)?;
    let y = finite(b.y - a.y)?;
    finite(hypot(x, y))
}

// The place after k of 32 chords along a wave.
#[inline(always)]
fn wave_place(w: Wave, ends: Ends, k: u16) -> Result<Place, Refusal>
    ensures { told result ≡ answered (place_c (wave_run ends.from ends.to ends.neutral w) k) }
{
    let t = finite((k as f64) / 32.0)?;
    wave_at(w, ends, t)
}

// The place after k of 32 chords along a meet: as `at` of `meet_curves`, over which, inlined or not, the measure of a
// meet takes a tenth more time.
#[inline(always)]
fn meet_place(c: MeetCurve, k: u16) -> Result<Place, Refusal>
    ensures { told result ≡ answered (place_c (followed c) k) }
{
    let t = finite((k as f64) / 32.0)?;
    let m = motion(c, t);
    let u = m.u?;
    let v = m.v?;
    let q = m.q?;
    let p = placed(c, t, q)?;
    Ok(Place {
        p,
        d: Vec2 { x: u, y: v },
    })
}

// A length, where it was not refused, and the chord from a to b.
fn longer(s: Result<f64, Refusal>, a: Vec2, b: Vec2) -> Result<f64, Refusal>
    ensures { told result ≡ and_then (told s) (λ l. answered (longer_c l a b)) }
{
    let l = s?;
    let d = distance(a, b)?;
    finite(l + d)
}

// A turn, where it was not refused, and that from the direction u to v.
fn further(s: Result<f64, Refusal>, u: Vec2, v: Vec2) -> Result<f64, Refusal>
    ensures { told result ≡ and_then (told s) (λ t. answered (further_c t u v)) }
{
    let t = s?;
    let y = finite(u.x * v.y - u.y * v.x)?;
    let x = finite(u.x * v.x + u.y * v.y)?;
    let a = finite(atan2(y, x))?;
    finite(t + fabs(a))
}

// A trace as 32 chords between its places. A refusal of a place comes before any of a chord.
fn traced<F: Fn(u16) -> Result<Place, Refusal>>(place: F) -> Result<Measure, Refusal>
    requires { F.IsAlwaysCallable place }
    ensures { (r : PieceCurve) → IsPlace (F.post place) r → told result ≡ answered (traced_c r) }
{
    let mut before = place(0)?;
    let mut length: Result<f64, Refusal> = Ok(0.0);
    let mut turn: Result<f64, Refusal> = Ok(0.0);
    for k in 0..32 {
        let after = place(k + 1)?;
        length = longer(length, before.p, after.p);
        turn = further(turn, before.d, after.d);
        before = after;
    }
    let length = length?;
    let turn = turn?;
    Ok(Measure {
        radius: 0.0,
        turn,
        length,
    })
}

// Along a wave. It is a call of its own, as that along a meet, since what a closure reads stands in memory.
#[inline(never)]
fn wave_measure(w: Wave, ends: Ends) -> Result<Measure, Refusal>
    ensures { told result ≡ answered (traced_c (wave_run ends.from ends.to ends.neutral w)) }
{
    traced(|k| wave_place(w, ends, k))
}

#[inline(never)]
fn meet_measure(c: MeetCurve) -> Result<Measure, Refusal>
    ensures { told result ≡ answered (traced_c (followed c)) }
{
    traced(|k| meet_place(c, k))
}

pub fn segment(ends: Ends) -> Result<Measure, Refusal>
    ensures { told result ≡ answered (segment_c ends.from ends.to) }
{
    let length = distance(ends.from, ends.to)?;
    Ok(Measure {
        radius: 0.0,
        turn: 0.0,
        length,
    })
}

pub fn arc_measure(a: ProfileArc, ends: Ends) -> Result<Measure, Refusal>
    ensures { told result ≡ answered (arc_c a ends.from ends.to) }
{
    let radius = distance(a.center, ends.from)?;
    let phi = profile_arcs::formula::turn(a, ends.from, ends.to)?;
    let turn = fabs(phi);
    let length = finite(radius * turn)?;
    Ok(Measure {
        radius,
        turn,
        length,
    })
}

#[inline(always)]
pub fn measure_of(r: PieceCurve) -> Result<Measure, Refusal>
    ensures { told result ≡ answered (measure_c r) }
{
    match r.way {
        CurveKind::Straight => segment(r.ends),
        CurveKind::Arc(a) => arc_measure(a, r.ends),
        CurveKind::Wave(w) => wave_measure(w, r.ends),
        CurveKind::Meet(c) => meet_measure(c),
    }
}
