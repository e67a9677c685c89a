// The vectors' operations on numbers of any size. A result that is not finite is for the caller to try.
#![tactic(auto, unfolding(crate::specs::Vectors::plus_c, crate::specs::Vectors::minus_c, crate::specs::Vectors::times_c, crate::specs::Vectors::neg_c, crate::specs::Vectors::cross_c, crate::specs::Vectors::dot_c))]

ghost use Rattle.std.specs.Prelude.{◌≡◌};
ghost use Rattle.checked.specs.Checked.{settled};
ghost use Rattle.checked.specs.Told.{told};
ghost use Rattle.vectors.specs.Vectors.{nines, plus_c, minus_c, times_c, neg_c, cross_c, dot_c};

use crate::Vec3;
use checked::{Refusal, finite};

pub fn plus(a: Vec3, b: Vec3) -> Vec3
    ensures { result ≡ (plus_c a b).value }
{
    Vec3 {
        x: a.x + b.x,
        y: a.y + b.y,
        z: a.z + b.z,
    }
}

pub fn minus(a: Vec3, b: Vec3) -> Vec3
    ensures { result ≡ (minus_c a b).value }
{
    Vec3 {
        x: a.x - b.x,
        y: a.y - b.y,
        z: a.z - b.z,
    }
}

pub fn times(a: Vec3, k: f64) -> Vec3
    ensures { result ≡ (times_c a k).value }
{
    Vec3 {
        x: a.x * k,
        y: a.y * k,
        z: a.z * k,
    }
}

pub fn neg(a: Vec3) -> Vec3
    ensures { result ≡ (neg_c a).value }
{
    Vec3 {
        x: -a.x,
        y: -a.y,
        z: -a.z,
    }
}

pub fn cross(a: Vec3, b: Vec3) -> Vec3
    ensures { result ≡ (cross_c a b).value }
{
    Vec3 {
        x: a.y * b.z - a.z * b.y,
        y: a.z * b.x - a.x * b.z,
        z: a.x * b.y - a.y * b.x,
    }
}

pub fn dot(a: Vec3, b: Vec3) -> f64
    ensures { result ≡ (dot_c a b).value }
{
    a.x * b.x + a.y * b.y + a.z * b.z
}

// A vector that the result depends on, or the refusal where one of its numbers is not finite.
pub fn finite3(v: Vec3) -> Result<Vec3, Refusal>
    ensures { told result ≡ settled (nines v) v }
{
    finite(v.x)?;
    finite(v.y)?;
    finite(v.z)?;
    Ok(v)
}
