// Into how many pieces or chords a piece of a development is cut, on numbers of any size.
ghost use Rattle.std.specs.Prelude.{◌≡◌};
ghost use Rattle.checked.specs.Checked.{answered};
ghost use Rattle.checked.specs.Told.{told};
ghost use Rattle.piece_lengths.specs.Counts.{quadrature_c, own_turn_c, chords_c, steep_c, off_c, wave_line_c, bend_c, meet_line_c, polyline_c};

use crate::measures::measure_of;
use crate::second_derivatives::meet_second;
use checked::{FRAC_PI_4, Refusal, TAU, finite};
use chord_counts::counts::{MOST, count};
use chord_counts::formula::per_turn;
use float_bits::fabs;
use libm::roots::hypot;
use order::greatest;
use piece_curves::meet_curves::MeetCurve;
use piece_curves::{CurveKind, Ends, PieceCurve};
use rounding::sqrt;
use waves::Wave;

// The most chords of a full turn.
const FINEST: f64 = 64.0;

// Pieces to integrate over: at most 45° each, in the development and about the axis.
#[inline(always)]
pub fn quadrature_pieces(r: PieceCurve) -> Result<u16, Refusal>
    ensures { told result ≡ answered (quadrature_c r) }
{
    let m = measure_of(r)?;
    let bend = finite(m.length / r.ends.neutral)?;
    let x = finite(greatest(m.turn, bend) / FRAC_PI_4)?;
    count(x, 1.0, MOST)
}

// Chords of a full turn of the piece's own.
#[inline(always)]
fn own_turn(w: CurveKind, rho: f64, chord: f64) -> Result<f64, Refusal>
    ensures { told result ≡ answered (own_turn_c w rho chord) }
{
    match w {
        CurveKind::Straight | CurveKind::Arc(_) => per_turn(rho, chord),
        CurveKind::Wave(_) | CurveKind::Meet(_) => Ok(FINEST),
    }
}

// Chords for drawing the piece at `radius` from the axis, each at most `chord` off.
#[inline(always)]
pub fn chords_of(r: PieceCurve, radius: f64, chord: f64) -> Result<u16, Refusal>
    ensures { told result ≡ answered (chords_c r radius chord) }
{
    let m = measure_of(r)?;
    let x = finite(m.turn / TAU)?;
    let p = own_turn(r.way, m.radius, chord)?;
    let own = finite(x * p)?;
    let y = finite(m.length / r.ends.neutral / TAU)?;
    let q = per_turn(radius, chord)?;
    let bend = finite(y * q)?;
    count(greatest(own, bend), 1.0, MOST)
}

// A wave's length where it is steepest, over the width du.
fn steep(du: f64, amp: f64, n: f64) -> f64
    ensures { result ≡ (steep_c du amp n).value }
{
    let x = amp / n;
    fabs(du) * sqrt(1.0 + x * x)
}

// Chords of a wave of this length and amplitude, as an f64.
fn off(length: f64, amp: f64, n: f64, deviation: f64) -> Result<f64, Refusal>
    ensures { told result ≡ answered (off_c length amp n deviation) }
{
    let square = finite(n * n)?;
    let y = finite(amp / square)?;
    let e = finite(8.0 * deviation)?;
    finite(length * sqrt(y / e))
}

#[inline(never)]
fn wave_line(w: Wave, ends: Ends, deviation: f64) -> Result<u16, Refusal>
    ensures { told result ≡ answered (wave_line_c w ends.from ends.to ends.neutral deviation) }
{
    let du = finite(ends.to.x - ends.from.x)?;
    let amp = finite(hypot(w.b, w.c))?;
    let length = finite(steep(du, amp, ends.neutral))?;
    let q = off(length, amp, ends.neutral, deviation)?;
    count(q, 2.0, MOST)
}

// The greatest second derivative of 257 samples.
fn bend_of(c: MeetCurve) -> Result<f64, Refusal>
    ensures { told result ≡ answered (bend_c c) }
{
    let mut bend = 0.0;
    for k in 0..257u16 {
        let t = finite((k as f64) / 256.0)?;
        let d = meet_second(c, t)?;
        let h = finite(hypot(d.x, d.y))?;
        bend = greatest(bend, h);
    }
    Ok(bend)
}

#[inline(never)]
fn meet_line(c: MeetCurve, deviation: f64) -> Result<u16, Refusal>
    ensures { told result ≡ answered (meet_line_c c deviation) }
{
    let bend = bend_of(c)?;
    let off = finite(8.0 * deviation)?;
    let q = finite(sqrt(bend / off))?;
    count(q, 2.0, MOST)
}

// Chords of a polyline through the piece in its development, each at most `deviation` off it.
#[inline(always)]
pub fn polyline_of(r: PieceCurve, deviation: f64) -> Result<u16, Refusal>
    ensures { told result ≡ answered (polyline_c r deviation) }
{
    match r.way {
        CurveKind::Straight | CurveKind::Arc(_) => Ok(1),
        CurveKind::Wave(w) => wave_line(w, r.ends, deviation),
        CurveKind::Meet(c) => meet_line(c, deviation),
    }
}
