// The formulas on numbers of any size.
ghost use Rattle.std.specs.Prelude.{◌≡◌};
ghost use Rattle.checked.specs.Checked.{answered};
ghost use Rattle.checked.specs.Told.{told};
ghost use Rattle.cones.specs.Frames.{least_axis, frame_c, angle_c, point_c};

use crate::{Cone, Frame};
use checked::{Refusal, finite};
use directions::formula::{across, length};
use float_bits::size;
use libm::atan2::atan2;
use libm::sincos::sincos;
use vectors::Vec3;
use vectors::formula::{cross, dot, finite3, minus, plus, times};

// The coordinate axis of the least of three cosines without their signs, the first one of equals.
pub fn least_axis(x: f64, y: f64, z: f64) -> Vec3
    ensures { result ≡ least_axis x y z }
{
    let p = size(x);
    let q = size(y);
    let r = size(z);
    if q < p {
        if r < q { Vec3::ALONG_Z } else { Vec3::ALONG_Y }
    } else {
        if r < p { Vec3::ALONG_Z } else { Vec3::ALONG_X }
    }
}

// The unit vector's numbers are tried with e2, which is made of them.
#[inline(always)]
pub fn own_frame(c: Cone) -> Result<Frame, Refusal>
    ensures { told result ≡ answered (frame_c c) }
{
    let axis = c.axis;
    let x = finite(dot(Vec3::ALONG_X, axis))?;
    let y = finite(dot(Vec3::ALONG_Y, axis))?;
    let z = finite(dot(Vec3::ALONG_Z, axis))?;
    let w = across(axis, least_axis(x, y, z));
    let l = finite(length(w))?;
    let e1 = times(w, 1.0 / l);
    let e2 = finite3(cross(axis, e1))?;
    Ok(Frame {
        axis,
        origin: c.origin,
        e1,
        e2,
    })
}

#[inline(always)]
pub fn angle(f: Frame, p: Vec3) -> Result<f64, Refusal>
    ensures { told result ≡ answered (angle_c f p) }
{
    let w = minus(p, f.origin);
    let y = finite(dot(w, f.e2))?;
    let x = finite(dot(w, f.e1))?;
    finite(atan2(y, x))
}

#[inline(always)]
pub fn point(f: Frame, theta: f64, z: f64, r: f64) -> Result<Vec3, Refusal>
    ensures { told result ≡ answered (point_c f theta z r) }
{
    let s = sincos(theta)?;
    finite3(plus(
        plus(f.origin, times(f.axis, z)),
        times(plus(times(f.e1, s.cos), times(f.e2, s.sin)), r),
    ))
}
