// A pipe's generatrices and the cylinder that they meet, on numbers of any size: how far along a generatrix the cylinder is reached.
ghost use Rattle.std.specs.Prelude.{◌≡◌};
ghost use Rattle.checked.specs.Checked.{answered};
ghost use Rattle.checked.specs.Told.{told};
ghost use Rattle.meets.specs.Quadratic.{own_c, other_c, lesser_c, intersection_c};

use crate::Meet;
use checked::{Refusal, finite};
use directions::formula::{across, over_length};
use libm::sincos::sincos;
use rounding::sqrt;
use vectors::Vec3;
use vectors::formula::{cross, dot, finite3, minus, plus, times};

// The pipe: a point of its axis, the axis, where the angle starts and a quarter turn on, its radius; then the cylinder met: a point of its
// axis, the axis, its radius.
#[derive(Clone, Copy)]
pub struct Pipe {
    pub o: Vec3,
    pub a: Vec3,
    pub e1: Vec3,
    pub e2: Vec3,
    pub r: f64,
    pub mo: Vec3,
    pub ma: Vec3,
    pub mr: f64,
}

// |w + t·a|² = R², all across the axis of the cylinder met: aa·t² + 2b·t + cc = 0, and the root of b² − aa·cc.
#[derive(Clone, Copy)]
pub struct Quadratic {
    pub aa: f64,
    pub b: f64,
    pub cc: f64,
    pub root: f64,
}

// The generatrix at an angle: the angle's sine and cosine, the direction from the axis, the point of the pipe there; from the axis of the
// cylinder met to that point, and the pipe's axis, both across; the quadratic's first factor and root, and where it is solved.
#[derive(Clone, Copy)]
pub struct Intersection {
    pub s: f64,
    pub c: f64,
    pub around: Vec3,
    pub p0: Vec3,
    pub w: Vec3,
    pub af: Vec3,
    pub aa: f64,
    pub root: f64,
    pub t: f64,
}

// The development's own pipe, of radius n along z, or against it where `own` is -1; the cylinder met is the one that is given.
pub fn own_pipe(m: Meet, n: f64) -> Result<Pipe, Refusal>
    ensures { told result ≡ answered (own_c m.origin m.axis m.radius m.own n) }
{
    let a = finite3(times(Vec3::ALONG_Z, m.own))?;
    Ok(Pipe {
        o: Vec3::ZERO,
        a,
        e1: Vec3::ALONG_X,
        e2: Vec3::ALONG_Y,
        r: n,
        mo: m.origin,
        ma: m.axis,
        mr: m.radius,
    })
}

// The pipe that is given, its generatrices towards the development's own cylinder, of radius `own`.
pub fn other_pipe(m: Meet) -> Result<Pipe, Refusal>
    ensures { told result ≡ answered (other_c m.origin m.axis m.radius m.own) }
{
    let e1 = over_length(cross(Vec3::ALONG_Z, m.axis))?;
    let e2 = finite3(cross(m.axis, e1))?;
    Ok(Pipe {
        o: m.origin,
        a: m.axis,
        e1,
        e2,
        r: m.radius,
        mo: Vec3::ZERO,
        ma: Vec3::ALONG_Z,
        mr: m.own,
    })
}

// The lesser root, without cancellation.
pub fn lesser(q: Quadratic) -> Result<f64, Refusal>
    ensures { told result ≡ answered (lesser_c q) }
{
    if q.b <= 0.0 {
        let d = finite(q.root - q.b)?;
        finite(q.cc / d)
    } else {
        finite(-(q.b + q.root) / q.aa)
    }
}

// The generatrix at the angle phi, up to the cylinder met. Inlined, since a call hands its many numbers through memory,
// which is a quarter of the time of `Meet::point`.
#[inline(always)]
pub fn intersect(p: Pipe, phi: f64) -> Result<Intersection, Refusal>
    ensures { told result ≡ answered (intersection_c p phi) }
{
    let x = sincos(phi)?;
    let around = plus(times(p.e1, x.cos), times(p.e2, x.sin));
    let p0 = plus(p.o, times(around, p.r));
    let w = across(p.ma, minus(p0, p.mo));
    let af = across(p.ma, p.a);
    let aa = dot(af, af);
    let b = dot(w, af);
    let cc = dot(w, w) - p.mr * p.mr;
    let root = finite(sqrt(b * b - aa * cc))?;
    let t = lesser(Quadratic { aa, b, cc, root })?;
    Ok(Intersection {
        s: x.sin,
        c: x.cos,
        around,
        p0,
        w,
        af,
        aa,
        root,
        t,
    })
}
