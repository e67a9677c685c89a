// The formulas on numbers of any size. A length or a part across an axis that is not finite is for the caller to try.
#![tactic(auto, unfolding(crate::specs::Directions::length_c, crate::specs::Directions::unit_c, crate::specs::Directions::across_c))]

ghost use Rattle.std.specs.Prelude.{◌≡◌};
ghost use Rattle.checked.specs.Checked.{answered};
ghost use Rattle.checked.specs.Told.{told};
ghost use Rattle.directions.specs.Directions.{length_c, over_length_c, unit_c, across_c, radial_c};

use checked::{Refusal, finite};
use rounding::sqrt;
use vectors::Vec3;
use vectors::formula::{dot, finite3, minus, times};

// The length of a vector.
pub fn length(v: Vec3) -> f64
    ensures { result ≡ (length_c v).value }
{
    sqrt(dot(v, v))
}

// A vector over its length, where the Rust does not call `unit`.
pub fn over_length(v: Vec3) -> Result<Vec3, Refusal>
    ensures { told result ≡ answered (over_length_c v) }
{
    let l = finite(length(v))?;
    finite3(times(v, 1.0 / l))
}

// The vector of length 1 along v.
pub fn unit(v: Vec3) -> Result<Vec3, Refusal>
    ensures { told result ≡ answered (unit_c v) }
{
    over_length(v)
}

// What is left of d across the axis.
pub fn across(axis: Vec3, d: Vec3) -> Vec3
    ensures { result ≡ (across_c axis d).value }
{
    minus(d, times(axis, dot(d, axis)))
}

// The unit vector from the axis through `origin` along `axis` towards p.
#[tactic(auto, using(crate::specs::Laws::radial_refusal), unfolding(crate::specs::Directions::radial_c))]
pub fn radial(origin: Vec3, axis: Vec3, p: Vec3) -> Result<Vec3, Refusal>
    ensures { told result ≡ answered (radial_c origin axis p) }
{
    unit(across(axis, minus(p, origin)))
}
