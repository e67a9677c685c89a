// The unit normal of the wall over a piece of a development, left of its direction: on numbers of
// any size.
#![tactic(auto)]

ghost use Rattle.std.specs.Prelude.{◌≡◌};
ghost use Rattle.checked.specs.Checked.{answered};
ghost use Rattle.checked.specs.Told.{told};
ghost use Rattle.piece_normals.specs.Normals.{straight_c, arc_c, wave_c, own_c, hole_c, meet_c, direction_c, normal_c};

use crate::hole_directions::{facing, gradient, side};
use checked::{Refusal, finite};
use developments::Development;
use developments::formulas::{moves, radial};
use directions::formula::unit;
use meets::Meet;
use piece_curves::Ends;
use piece_curves::meet_curves::{meet_curve, motion};
use profile_arcs::ProfileArc;
use traces::Trace;
use vectors::formula::{cross, finite3};
use vectors::{Vec2, Vec3};
use waves::{Wave, values};

pub mod hole_directions;

// From one point to another.
fn straight(ends: Ends) -> Result<Vec2, Refusal>
    ensures { told result ≡ answered (straight_c ends.from ends.to) }
{
    let x = finite(ends.to.x - ends.from.x)?;
    let y = finite(ends.to.y - ends.from.y)?;
    Ok(Vec2 { x, y })
}

// Along an arc, by its sense.
fn arc_direction(a: ProfileArc, p: Vec2) -> Result<Vec2, Refusal>
    ensures { told result ≡ answered (arc_c a p) }
{
    if a.ccw {
        let x = finite(a.center.y - p.y)?;
        let y = finite(p.x - a.center.x)?;
        Ok(Vec2 { x, y })
    } else {
        let x = finite(p.y - a.center.y)?;
        let y = finite(a.center.x - p.x)?;
        Ok(Vec2 { x, y })
    }
}

fn wave_direction(w: Wave, ends: Ends, p: Vec2) -> Result<Vec2, Refusal>
    ensures { told result ≡ answered (wave_c w ends.from ends.to ends.neutral p) }
{
    let du = finite(ends.to.x - ends.from.x)?;
    let s = values::slope(w, p.x, ends.neutral)?;
    let y = finite(s * du)?;
    Ok(Vec2 { x: du, y })
}

// Along a meet without `turn`: the derivative where u is that of p.
fn own_direction(m: Meet, ends: Ends, p: Vec2) -> Result<Vec2, Refusal>
    ensures { told result ≡ answered (own_c m ends.from ends.to ends.neutral p) }
{
    let du = finite(ends.to.x - ends.from.x)?;
    let t = finite((p.x - ends.from.x) / du)?;
    let c = meet_curve(m, ends)?;
    let d = motion(c, t);
    let x = d.u?;
    let y = d.v?;
    Ok(Vec2 { x, y })
}

// Along a hole: the gradient at p comes first, then what is read at the piece's middle.
fn hole_direction(m: Meet, ends: Ends, p: Vec2) -> Result<Vec2, Refusal>
    ensures { told result ≡ answered (hole_c m ends.from ends.to ends.neutral p) }
{
    let g = gradient(m, ends.neutral, p)?;
    let c = meet_curve(m, ends)?;
    let s = side(m, c)?;
    Ok(facing(g, s))
}

fn meet_direction(m: Meet, ends: Ends, p: Vec2) -> Result<Vec2, Refusal>
    ensures { told result ≡ answered (meet_c m ends.from ends.to ends.neutral p) }
{
    match m.turn {
        None => own_direction(m, ends, p),
        Some(_) => hole_direction(m, ends, p),
    }
}

// The direction of a piece at p.
pub fn direction(
    ends: Ends,
    arc: Option<ProfileArc>,
    trace: Option<Trace>,
    p: Vec2,
) -> Result<Vec2, Refusal>
    ensures { told result ≡ answered (direction_c arc trace ends.from ends.to ends.neutral p) }
{
    match (arc, trace) {
        (Some(a), _) => arc_direction(a, p),
        (None, Some(Trace::Wave(w))) => wave_direction(w, ends, p),
        (None, Some(Trace::Meet(m))) => meet_direction(m, ends, p),
        (None, None) => straight(ends),
    }
}

// The normal at p, r from the axis, of a piece that has the direction d there.
pub fn normal_of(dev: Development, p: Vec2, d: Vec2, r: f64) -> Result<Vec3, Refusal>
    ensures { told result ≡ answered (normal_c dev.axis dev.start dev.neutral p d r) }
{
    // `along` would work out the radial again.
    let a = radial(dev, p.x)?;
    let b = moves(dev, a, d, r);
    unit(finite3(cross(a, b))?)
}
