// Points of a circle at even angles.
ghost use Rattle.std.specs.Prelude.{◌≡◌};
ghost use Rattle.checked.specs.Checked.{answered};
ghost use Rattle.checked.specs.Told.{told};
ghost use Rattle.rows.specs.Circles.{circle_c, circle_at_c};

use checked::Refusal;
use libm::sincos::sincos;
use vectors::Vec3;
use vectors::formula::{finite3, plus, times};

// A circle and where on it the points start: its centre, the vector from there to the start, and
// that vector a quarter turn on.
#[derive(Clone, Copy)]
pub struct Circle {
    pub center: Vec3,
    pub start: Vec3,
    pub quarter: Vec3,
}

// The point at the angle t.
pub fn point(rim: Circle, t: f64) -> Result<Vec3, Refusal>
    ensures { told result ≡ answered (circle_c rim t) }
{
    let s = sincos(t)?;
    finite3(plus(
        plus(rim.center, times(rim.start, s.cos)),
        times(rim.quarter, s.sin),
    ))
}

// The point k of n on a turn.
pub fn point_at(rim: Circle, turn: f64, n: u16, k: u16) -> Result<Vec3, Refusal>
    ensures { told result ≡ answered (circle_at_c rim turn n k) }
{
    point(rim, turn * (k as f64) / (n as f64))
}
