// A piece's formulas on numbers of any size. What follows a piece takes its run, a record of 256
// bytes that is copied where it is passed on; `at` works without it, and `measure` without a trace.
ghost use Rattle.std.specs.Prelude.{◌≡◌};
ghost use Rattle.checked.specs.Told.{told};
ghost use Rattle.checked.specs.Checked.{answered};
ghost use Rattle.pieces.specs.Pieces.{ends_of, run_c, back, normal_c, at_c, measure_c};

use crate::Rolled;
use crate::parts::{arc_back, trace_back};
use checked::Refusal;
use piece_curves::meet_curves::{Place, meet_curve};
use piece_curves::points::{arc_at, straight_at, wave_at};
use piece_curves::{Ends, PieceCurve, curve_of, meet_curves};
use piece_lengths::measures::{Measure, arc_measure, measure_of, segment};
use piece_normals::{direction, normal_of};
use traces::Trace;
use vectors::{Vec2, Vec3};

// The two ends, and the neutral radius.
#[inline(always)]
fn ends(p: Rolled) -> Ends
    ensures { result ≡ ends_of p }
{
    Ends {
        from: p.from,
        to: p.to,
        neutral: p.dev.neutral,
    }
}

// What the piece follows, ready to be followed.
#[inline(always)]
pub fn run(p: Rolled) -> Result<PieceCurve, Refusal>
    ensures { told result ≡ answered (run_c p) }
{
    curve_of(ends(p), p.arc, p.trace)
}

// The piece run the other way.
pub fn reversed(p: Rolled) -> Rolled
    ensures { result ≡ back p }
{
    Rolled {
        from: p.to,
        to: p.from,
        arc: arc_back(p.arc),
        trace: trace_back(p.trace),
        ..p
    }
}

// The unit normal of the wall over the piece at q, r from the axis.
pub fn normal(p: Rolled, q: Vec2, r: f64) -> Result<Vec3, Refusal>
    ensures { told result ≡ answered (normal_c p q r) }
{
    let d = direction(ends(p), p.arc, p.trace, q)?;
    normal_of(p.dev, q, d, r)
}

// The point at t, and its derivative.
pub fn at(p: Rolled, t: f64) -> Result<Place, Refusal>
    ensures { told result ≡ answered (at_c p t) }
{
    match (p.trace, p.arc) {
        (Some(Trace::Wave(w)), _) => wave_at(w, ends(p), t),
        (Some(Trace::Meet(m)), _) => meet_curves::at(meet_curve(m, ends(p))?, t),
        (None, Some(a)) => arc_at(a, ends(p), t),
        (None, None) => straight_at(ends(p), t),
    }
}

// The radius, the turn and the length.
pub fn measure(p: Rolled) -> Result<Measure, Refusal>
    ensures { told result ≡ answered (measure_c p) }
{
    match (p.trace, p.arc) {
        (Some(_), _) => measure_of(run(p)?),
        (None, Some(a)) => arc_measure(a, ends(p)),
        (None, None) => segment(ends(p)),
    }
}
