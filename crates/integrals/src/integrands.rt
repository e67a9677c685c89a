// What is integrated over a surface of revolution, and the step of a sum at one node. Numbers may
// be of any size.
#![tactic(auto, unfolding(crate::specs::Integrands::term_c, crate::specs::Integrands::term3_c, crate::specs::Integrands::terms_c, crate::specs::Integrands::patch_c))]

ghost use Rattle.std.specs.Prelude.{◌≡◌};
ghost use Rattle.checked.specs.Told.{told};
ghost use Rattle.checked.specs.Checked.{settled, answered};
ghost use Rattle.libm.specs.Sincos.{sincos_c};
ghost use Rattle.integrals.specs.Integrands.{revolved_c, radial_normal_c, patch_c, term_c, term3_c, terms_c, node_c};

use crate::SurfaceIntegrals;
use checked::{Refusal, finite};
use cones::formula::own_frame;
use cones::{Cone, Frame};
use libm::sincos::sincos;
use rounding::sqrt;
use vectors::Vec3;
use vectors::formula::{dot, finite3, minus, plus, times};

// A surface of revolution as the integrands read it: `p0` is where its origin lies from the point
// that volumes are measured from, and `stretch` the length of a step along the surface over one
// along the axis.
#[derive(Clone, Copy)]
pub struct Revolved {
    pub frame: Frame,
    pub p0: Vec3,
    pub radius: f64,
    pub slope: f64,
    pub stretch: f64,
}

// The direction away from the axis at an angle, and the normal there, not of length 1.
#[derive(Clone, Copy)]
pub struct RadialNormal {
    pub out: Vec3,
    pub normal: Vec3,
}

// Where a path is: its angle, its place along the axis, and how fast the angle turns.
#[derive(Clone, Copy)]
pub struct PathPoint {
    pub theta: f64,
    pub z: f64,
    pub turn: f64,
}

pub fn revolve(c: Cone, o: Vec3) -> Result<Revolved, Refusal>
    ensures { told result ≡ answered (revolved_c c o) }
{
    let frame = own_frame(c)?;
    let p0 = finite3(minus(c.origin, o))?;
    let stretch = finite(sqrt(1.0 + c.slope * c.slope))?;
    Ok(Revolved {
        frame,
        p0,
        radius: c.radius,
        slope: c.slope,
        stretch,
    })
}

fn radial_normal_at(v: Revolved, theta: f64) -> Result<RadialNormal, Refusal>
    ensures { told result ≡ settled (sincos_c theta).refusal (radial_normal_c v theta).value }
{
    let s = sincos(theta)?;
    let out = plus(times(v.frame.e1, s.cos), times(v.frame.e2, s.sin));
    let normal = minus(out, times(v.frame.axis, v.slope));
    Ok(RadialNormal { out, normal })
}

// The integrands at s along the axis.
fn patch(v: Revolved, b: RadialNormal, s: f64) -> SurfaceIntegrals
    ensures { result ≡ (patch_c v b s).value }
{
    let r = v.radius + v.slope * s;
    let x = plus(plus(v.p0, times(b.out, r)), times(v.frame.axis, s));
    let height = dot(v.p0, b.normal) + r - v.slope * s;
    SurfaceIntegrals {
        six_v: 2.0 * r * height,
        moment: times(x, 6.0 * r * height),
        area: r * v.stretch,
        area_vector: Vec3 {
            x: r * b.normal.x,
            y: r * b.normal.y,
            z: r * b.normal.z,
        },
    }
}

// A sum less w times Simpson's mean of a, b and c.
fn term(w: f64, s: f64, a: f64, b: f64, c: f64) -> f64
    ensures { result ≡ (term_c w s a b c).value }
{
    s - w * (a + 4.0 * b + c)
}

fn term3(w: f64, s: Vec3, a: Vec3, b: Vec3, c: Vec3) -> Vec3
    ensures { result ≡ (term3_c w s a b c).value }
{
    Vec3 {
        x: term(w, s.x, a.x, b.x, c.x),
        y: term(w, s.y, a.y, b.y, c.y),
        z: term(w, s.z, a.z, b.z, c.z),
    }
}

fn terms(
    w: f64,
    s: SurfaceIntegrals,
    a: SurfaceIntegrals,
    b: SurfaceIntegrals,
    c: SurfaceIntegrals,
) -> SurfaceIntegrals
    ensures { result ≡ (terms_c w s a b c).value }
{
    SurfaceIntegrals {
        six_v: term(w, s.six_v, a.six_v, b.six_v, c.six_v),
        moment: term3(w, s.moment, a.moment, b.moment, c.moment),
        area: term(w, s.area, a.area, b.area, c.area),
        area_vector: term3(
            w,
            s.area_vector,
            a.area_vector,
            b.area_vector,
            c.area_vector,
        ),
    }
}

// The sums after a node of weight `wgt` on a piece of length h: the new sums are finite only where
// all that they are made of is.
pub fn node(
    v: Revolved,
    p: PathPoint,
    h: f64,
    wgt: f64,
    s: SurfaceIntegrals,
) -> Result<SurfaceIntegrals, Refusal>
    ensures { told result ≡ answered (node_c v p h wgt s) }
{
    let b = radial_normal_at(v, p.theta)?;
    let w = 0.5 * h * wgt * p.turn * p.z / 6.0;
    let after = terms(
        w,
        s,
        patch(v, b, 0.0),
        patch(v, b, 0.5 * p.z),
        patch(v, b, p.z),
    );
    after.finite()
}
