// How far a point is turned about an arc's axis, counterclockwise, on numbers of any size.
#![tactic(auto, unfolding(crate::specs::Sweep::circle_within, crate::specs::Sweep::ends_within))]

ghost use Rattle.std.specs.Prelude.{◌≡◌};
ghost use Rattle.checked.specs.Checked.{answered};
ghost use Rattle.checked.specs.Told.{told};
ghost use Rattle.arcs.specs.Sweep.{circle_within, ends_within, sweep_from_c, sweep_c};

use crate::Arc;
use checked::{Refusal, finite, is_within};
use profile_arcs::angles::{ahead, angle};
use vectors::formula::{cross, dot, minus};
use vectors::{Vec3, is_within3};

// Every number of a circle passes the test of what is handed in.
pub fn circle_within(arc: Arc) -> bool
    ensures { result ≡ circle_within arc.center arc.axis arc.radius }
{
    is_within3(arc.center) & (is_within3(arc.axis) & is_within(arc.radius))
}

// A circle, and the two ends of an arc of it.
pub fn ends_within(arc: Arc, from: Vec3, to: Vec3) -> bool
    ensures { result ≡ ends_within arc.center arc.axis arc.radius from to }
{
    circle_within(arc) & (is_within3(from) & is_within3(to))
}

// The angle turned until the direction of p, from a start that lies at u from the centre.
#[inline(always)]
pub fn sweep_from(arc: Arc, u: Vec3, p: Vec3) -> Result<f64, Refusal>
    ensures { told result ≡ answered (sweep_from_c arc.center arc.axis u p) }
{
    let v = minus(p, arc.center);
    let t = angle(dot(arc.axis, cross(u, v)), dot(u, v))?;
    finite(ahead(t))
}

#[tactic(auto, using(crate::specs::SweepLaws::sweep_refusal), unfolding(crate::specs::Sweep::sweep_c))]
#[inline(always)]
pub fn sweep(arc: Arc, from: Vec3, to: Vec3) -> Result<f64, Refusal>
    ensures { told result ≡ answered (sweep_c arc.center arc.axis from to) }
{
    sweep_from(arc, minus(from, arc.center), to)
}
