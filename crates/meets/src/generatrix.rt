// The point where a generatrix meets the cylinder, and its derivatives in the angle, on numbers of any size. A call works out what its caller
// reads, and no more; the pipe is worked out once and handed on.
ghost use Rattle.std.specs.Prelude.{◌≡◌};
ghost use Rattle.checked.specs.Checked.{answered};
ghost use Rattle.checked.specs.Told.{told};
ghost use Rattle.meets.specs.Generatrix.{along_generatrix_c, first_derivatives_c, second_derivatives_c, height_c, derivatives_c};

use crate::quadratic::{Intersection, Pipe, intersect};
use checked::{Refusal, finite};
use directions::formula::across;
use vectors::Vec3;
use vectors::formula::{dot, finite3, minus, plus, times};

// The first derivatives: of the point of the pipe, of that across the axis of the cylinder met, of b, and of t.
#[derive(Clone, Copy)]
pub struct FirstDerivatives {
    pub d1: Vec3,
    pub w1: Vec3,
    pub b1: f64,
    pub t1: f64,
}

// The second derivatives, of the point of the pipe and of t.
#[derive(Clone, Copy)]
pub struct SecondDerivatives {
    pub d2: Vec3,
    pub t2: f64,
}

// A point, its first and its second derivative.
#[derive(Clone, Copy)]
pub struct Jet {
    pub q: Vec3,
    pub q1: Vec3,
    pub q2: Vec3,
}

fn ahead(p: Vec3, a: Vec3, t: f64) -> Vec3
    ensures { result ≡ (along_generatrix_c p a t).value }
{
    plus(p, times(a, t))
}

// Inlined, as `intersect` is.
#[inline(always)]
pub fn speed_at(p: Pipe, h: Intersection) -> Result<FirstDerivatives, Refusal>
    ensures { told result ≡ answered (first_derivatives_c p h) }
{
    let d1 = times(minus(times(p.e2, h.c), times(p.e1, h.s)), p.r);
    let w1 = across(p.ma, d1);
    let b1 = dot(w1, h.af);
    let c1 = 2.0 * dot(h.w, w1);
    let t1 = finite((b1 * h.t + 0.5 * c1) / h.root)?;
    Ok(FirstDerivatives { d1, w1, b1, t1 })
}

pub fn bend_at(p: Pipe, h: Intersection, v: FirstDerivatives) -> Result<SecondDerivatives, Refusal>
    ensures { told result ≡ answered (second_derivatives_c p h v) }
{
    let d2 = times(h.around, -p.r);
    let w2 = across(p.ma, d2);
    let b2 = dot(w2, h.af);
    let c2 = 2.0 * (dot(v.w1, v.w1) + dot(h.w, w2));
    let t2 = finite((b2 * h.t + 2.0 * v.b1 * v.t1 + h.aa * v.t1 * v.t1 + 0.5 * c2) / h.root)?;
    Ok(SecondDerivatives { d2, t2 })
}

// The point's z alone.
pub fn height(p: Pipe, phi: f64) -> Result<f64, Refusal>
    ensures { told result ≡ answered (height_c p phi) }
{
    let h = intersect(p, phi)?;
    finite(h.p0.z + p.a.z * h.t)
}

// All three.
pub fn jet_at(p: Pipe, phi: f64) -> Result<Jet, Refusal>
    ensures { told result ≡ answered (derivatives_c p phi) }
{
    let h = intersect(p, phi)?;
    let v = speed_at(p, h)?;
    let e = bend_at(p, h, v)?;
    let q = finite3(ahead(h.p0, p.a, h.t))?;
    let q1 = finite3(ahead(v.d1, p.a, v.t1))?;
    let q2 = finite3(ahead(e.d2, p.a, e.t2))?;
    Ok(Jet { q, q1, q2 })
}
