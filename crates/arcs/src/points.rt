// Points of an arc's circle in space by their angle, on numbers of any size.
ghost use Rattle.std.specs.Prelude.{◌≡◌};
ghost use Rattle.checked.specs.Checked.{answered};
ghost use Rattle.checked.specs.Told.{told};
ghost use Rattle.arcs.specs.Points.{angle_within, radius_vector_c, rim_c, at_c};

use crate::Arc;
use crate::sweep::circle_within;
use checked::{Refusal, finite, is_within};
use directions::formula::{across, length};
use rows::circles::{Circle, point};
use vectors::formula::{cross, finite3, minus, times};
use vectors::{Vec3, is_within3};

// Every number of a circle, of a start and of an angle passes the test of what is handed in.
#[tactic(auto, unfolding(crate::specs::Points::angle_within))]
pub fn angle_within(arc: Arc, from: Vec3, t: f64) -> bool
    ensures { result ≡ angle_within arc.center arc.axis arc.radius from t }
{
    circle_within(arc) & (is_within3(from) & is_within(t))
}

// From the centre to the circle on the side of `from`.
pub fn radius_vector(arc: Arc, from: Vec3) -> Result<Vec3, Refusal>
    ensures { told result ≡ answered (radius_vector_c arc.center arc.axis arc.radius from) }
{
    let a = across(arc.axis, minus(from, arc.center));
    let l = finite(length(a))?;
    finite3(times(a, arc.radius / l))
}

// The circle, starting on the side of `from`.
pub fn rim(arc: Arc, from: Vec3) -> Result<Circle, Refusal>
    ensures { told result ≡ answered (rim_c arc.center arc.axis arc.radius from) }
{
    let start = radius_vector(arc, from)?;
    Ok(Circle {
        center: arc.center,
        start,
        quarter: cross(arc.axis, start),
    })
}

// The point at the angle t from `from`.
#[inline(always)]
pub fn at(arc: Arc, from: Vec3, t: f64) -> Result<Vec3, Refusal>
    ensures { told result ≡ answered (at_c arc.center arc.axis arc.radius from t) }
{
    point(rim(arc, from)?, t)
}
