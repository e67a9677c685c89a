// The box of an arc, on numbers of any size: its ends, then those of its circle's extreme points
// that lie on it. Nothing depends on the box, which is carried along.
ghost use Rattle.std.specs.Prelude.{◌≡◌, Bool, cond, [], ◌∷◌};
ghost use Rattle.checked.specs.Told.{told};
ghost use Rattle.checked.specs.Checked.{answered};
ghost use Rattle.boxes.specs.Boxes.{widened_by, widened_c};
ghost use Rattle.arcs.specs.Sweep.{sweep_from_c};
ghost use Rattle.arcs.specs.Extremes.{side_c, taken_c, both_c, extremes_c, points_c};

use crate::Arc;
use crate::sweep::sweep_from;
use boxes::Bounds;
use checked::{Refusal, finite};
use directions::formula::{across, length};
use vectors::Vec3;
use vectors::formula::{minus, plus, times};

// The candidate on the side s, 1 or -1, along a vector w of length len.
#[tactic(auto, unfolding(crate::specs::Extremes::side_c))]
fn side(arc: Arc, w: Vec3, len: f64, s: f64) -> Vec3
    ensures { result ≡ (side_c arc.center arc.radius w len s).value }
{
    plus(arc.center, times(w, s * arc.radius / len))
}

#[tactic(auto, using(boxes::proofs::Laws::widened_none, boxes::proofs::Laws::widened_cons))]
fn widened_where(t: bool, b: Bounds, p: Vec3) -> Bounds
    ensures { result ≡ widened_by b (cond t (p ∷ []) []) }
{
    if t { b.widened(p) } else { b }
}

// The box with the candidate p where that is taken. u: where the first end lies from the centre;
// turn: the arc's sweep.
fn with_candidate(arc: Arc, u: Vec3, turn: f64, p: Vec3, b: Bounds) -> Result<Bounds, Refusal>
    ensures { told result ≡ answered (widened_c b (taken_c (sweep_from_c arc.center arc.axis u) turn p)) }
{
    let s = sweep_from(arc, u, p)?;
    Ok(widened_where(s < turn, b, p))
}

// A candidate's refusal is that of its sweep, which is finite only where the candidate is.
fn with_both(arc: Arc, u: Vec3, turn: f64, w: Vec3, len: f64, b: Bounds) -> Result<Bounds, Refusal>
    ensures { told result ≡ answered (widened_c b (both_c arc.center arc.radius (sweep_from_c arc.center arc.axis u) turn w len)) }
{
    let p = side(arc, w, len, 1.0);
    let q = side(arc, w, len, -1.0);
    let b = with_candidate(arc, u, turn, p, b)?;
    with_candidate(arc, u, turn, q, b)
}

fn with_extremes(arc: Arc, u: Vec3, turn: f64, e: Vec3, b: Bounds) -> Result<Bounds, Refusal>
    ensures { told result ≡ answered (widened_c b (extremes_c arc.center arc.axis arc.radius (sweep_from_c arc.center arc.axis u) turn e)) }
{
    let w = across(arc.axis, across(arc.axis, e));
    let len = finite(length(w))?;
    if len > 0.0 {
        with_both(arc, u, turn, w, len, b)
    } else {
        Ok(b)
    }
}

// The box widened by the arc of a circle from one point to another.
pub fn extended(arc: Arc, from: Vec3, to: Vec3, b: Bounds) -> Result<Bounds, Refusal>
    ensures { told result ≡ answered (widened_c b (points_c arc.center arc.axis arc.radius from to)) }
{
    let u = minus(from, arc.center);
    let turn = sweep_from(arc, u, to)?;
    let ends = b.widened(from).widened(to);
    let x = with_extremes(arc, u, turn, Vec3::ALONG_X, ends)?;
    let y = with_extremes(arc, u, turn, Vec3::ALONG_Y, x)?;
    with_extremes(arc, u, turn, Vec3::ALONG_Z, y)
}
