// A development's formulas on numbers of any size: u is length at the neutral radius.
ghost use Rattle.std.specs.Prelude.{◌≡◌};
ghost use Rattle.checked.specs.Checked.{answered};
ghost use Rattle.checked.specs.Told.{told};
ghost use Rattle.developments.specs.Formulas.{radial_at_c, point_c, moves_c, along_c, unroll_c};

use crate::Development;
use checked::{Refusal, TAU, finite};
use libm::atan2::atan2;
use libm::sincos::sincos;
use rounding::{round, sqrt};
use vectors::formula::{cross, dot, finite3, minus, plus, times};
use vectors::{Vec2, Vec3};

// A point in the development, and its distance from the axis.
#[derive(Clone, Copy)]
pub struct Unrolled {
    pub p: Vec2,
    pub r: f64,
}

// The unit vector away from the axis at u.
pub fn radial(dev: Development, u: f64) -> Result<Vec3, Refusal>
    ensures { told result ≡ answered (radial_at_c dev.axis dev.start dev.neutral u) }
{
    let t = sincos(u / dev.neutral)?;
    finite3(plus(
        times(dev.start, t.cos),
        times(cross(dev.axis, dev.start), t.sin),
    ))
}

// The point of p at r from the axis.
pub fn point(dev: Development, p: Vec2, r: f64) -> Result<Vec3, Refusal>
    ensures { told result ≡ answered (point_c dev.origin dev.axis dev.start dev.neutral p r) }
{
    // The centre is tried before the sine, which may be refused by another number.
    let c = finite3(plus(dev.origin, times(dev.axis, p.y)))?;
    let x = radial(dev, p.x)?;
    finite3(plus(c, times(x, r)))
}

// How the point at r moves along d, where the unit vector away from the axis is at hand.
pub fn moves(dev: Development, away: Vec3, d: Vec2, r: f64) -> Vec3
    ensures { result ≡ (moves_c dev.axis dev.neutral away d r).value }
{
    plus(
        times(cross(dev.axis, away), d.x * r / dev.neutral),
        times(dev.axis, d.y),
    )
}

// How that point moves at p along d.
pub fn along(dev: Development, p: Vec2, d: Vec2, r: f64) -> Result<Vec3, Refusal>
    ensures { told result ≡ answered (along_c dev.axis dev.start dev.neutral p d r) }
{
    let x = radial(dev, p.x)?;
    finite3(moves(dev, x, d, r))
}

// The coordinates of q and its distance from the axis, u within half a turn of `near`.
pub fn unroll(dev: Development, q: Vec3, near: f64) -> Result<Unrolled, Refusal>
    ensures { told result ≡ answered (unroll_c dev.origin dev.axis dev.start dev.neutral q near) }
{
    let w = minus(q, dev.origin);
    let v = dot(w, dev.axis);
    let a = minus(w, times(dev.axis, v));
    let y = finite(dot(a, cross(dev.axis, dev.start)))?;
    let x = finite(dot(a, dev.start))?;
    let u = dev.neutral * atan2(y, x);
    let turn = dev.neutral * TAU;
    let at = finite(u + turn * round((near - u) / turn))?;
    let r = finite(sqrt(dot(a, a)))?;
    Ok(Unrolled {
        p: Vec2 { x: at, y: v },
        r,
    })
}
