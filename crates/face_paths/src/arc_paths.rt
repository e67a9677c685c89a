// An arc as a path on a surface of revolution. Numbers may be of any size.
ghost use Rattle.std.specs.Prelude.{◌≡◌};
ghost use Rattle.checked.specs.Checked.{answered};
ghost use Rattle.checked.specs.Told.{told};
ghost use Rattle.face_paths.specs.ArcPaths.{arc_path_of_c, arc_path_at};

use arcs::Arc;
use arcs::sweep::sweep;
use checked::{FRAC_PI_4, Refusal, finite};
use chord_counts::counts::{MOST, count};
use cones::Frame;
use cones::formula::angle;
use float_bits::fabs;
use integrals::integrands::PathPoint;
use integrals::side;
use vectors::Vec3;
use vectors::formula::{dot, minus};

// An arc about the axis of a surface: the angle where it starts and the one that it turns, its
// place along the axis, and into how many panels of at most 45° it is cut for the integrals.
#[derive(Clone, Copy)]
pub struct ArcPath {
    pub start: f64,
    pub turn: f64,
    pub z: f64,
    pub stretches: u16,
}

// The course of the arc from u to v.
pub fn arc_path_of(f: Frame, arc: Arc, u: Vec3, v: Vec3) -> Result<ArcPath, Refusal>
    ensures { told result ≡ answered (arc_path_of_c f arc u v) }
{
    let s = sweep(arc, u, v)?;
    let d = finite(dot(arc.axis, f.axis))?;
    let turn = finite(s * side(d))?;
    let start = angle(f, u)?;
    let z = finite(dot(minus(arc.center, f.origin), f.axis))?;
    let q = finite(fabs(turn) / FRAC_PI_4)?;
    let stretches = count(q, 1.0, MOST)?;
    Ok(ArcPath {
        start,
        turn,
        z,
        stretches,
    })
}

// Where the course is at t, from 0 at its first end to 1 at its last.
pub fn arc_path_at(c: ArcPath, t: f64) -> Result<PathPoint, Refusal>
    ensures { told result ≡ answered (arc_path_at c t) }
{
    let theta = finite(c.start + c.turn * t)?;
    Ok(PathPoint {
        theta,
        z: c.z,
        turn: c.turn,
    })
}
