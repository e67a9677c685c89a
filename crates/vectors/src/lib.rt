// Vectors in the plane and in space: what a program may call is here, the bare formulas are in `formula`.
#![tactic(auto, using(checked::specs::ToldLaws::exit_is, checked::specs::ToldLaws::passing_number, checked::specs::ToldLaws::passes, crate::specs::Laws::opened), unfolding(crate::specs::Vectors::within2, crate::specs::Vectors::within3, crate::specs::Entries::dot_due, crate::specs::Entries::cross_due, crate::specs::Entries::sum_due, crate::specs::Entries::difference_due, crate::specs::Entries::negation_due, crate::specs::Entries::times_due, crate::specs::Entries::to_array_due, crate::specs::Entries::largest, crate::specs::Entries::dominant_axis_due))]

ghost use Rattle.std.specs.Prelude.{◌≡◌, ◌&&◌};
ghost use Rattle.checked.specs.Checked.{within};
ghost use Rattle.checked.specs.Told.{told};
ghost use Rattle.vectors.specs.Vectors.{within2, within3, plane, space};
ghost use Rattle.vectors.specs.Entries.{dot_due, cross_due, sum_due, difference_due, negation_due, times_due, to_array_due, largest, dominant_axis_due};

use crate::formula::finite3;
use checked::{Refusal, finite, is_within, require};

pub mod formula;

// A point or vector in the plane.
#[derive(Clone, Copy)]
pub struct Vec2 {
    pub x: f64,
    pub y: f64,
}

// A point or vector in space.
#[derive(Clone, Copy)]
pub struct Vec3 {
    pub x: f64,
    pub y: f64,
    pub z: f64,
}

// All numbers of a vector pass the test of what is handed in.
pub fn is_within2(v: Vec2) -> bool
    ensures { result ≡ within2 v }
{
    is_within(v.x) & is_within(v.y)
}

pub fn is_within3(v: Vec3) -> bool
    ensures { result ≡ within3 v }
{
    is_within(v.x) & (is_within(v.y) & is_within(v.z))
}

fn are_within(a: Vec3, b: Vec3) -> bool
    ensures { result ≡ (within3 a && within3 b) }
{
    is_within3(a) & is_within3(b)
}

fn is_within_times(a: Vec3, k: f64) -> bool
    ensures { result ≡ (within3 a && within k) }
{
    is_within3(a) & is_within(k)
}

// Which of three numbers is the largest, the first one of equals.
fn largest(x: f64, y: f64, z: f64) -> usize
    ensures { result ≡ largest x y z }
{
    if (y <= x) & (z <= x) {
        0
    } else if z <= y {
        1
    } else {
        2
    }
}

impl Vec2 {
    pub fn new(x: f64, y: f64) -> Self
        ensures { result ≡ plane x y }
    {
        Self { x, y }
    }
}

impl Vec3 {
    pub const ZERO: Self = Self {
        x: 0.0,
        y: 0.0,
        z: 0.0,
    };

    // The directions of the coordinates.
    pub const ALONG_X: Self = Self {
        x: 1.0,
        y: 0.0,
        z: 0.0,
    };

    pub const ALONG_Y: Self = Self {
        x: 0.0,
        y: 1.0,
        z: 0.0,
    };

    pub const ALONG_Z: Self = Self {
        x: 0.0,
        y: 0.0,
        z: 1.0,
    };

    pub fn new(x: f64, y: f64, z: f64) -> Self
        ensures { result ≡ space x y z }
    {
        Self { x, y, z }
    }

    pub fn dot(self, o: Self) -> Result<f64, Refusal>
        ensures { told result ≡ dot_due self o }
    {
        require(are_within(self, o), Refusal::OutOfRange)?;
        finite(formula::dot(self, o))
    }

    pub fn cross(self, o: Self) -> Result<Vec3, Refusal>
        ensures { told result ≡ cross_due self o }
    {
        require(are_within(self, o), Refusal::OutOfRange)?;
        finite3(formula::cross(self, o))
    }

    // self + o
    pub fn sum(self, o: Self) -> Result<Vec3, Refusal>
        ensures { told result ≡ sum_due self o }
    {
        require(are_within(self, o), Refusal::OutOfRange)?;
        finite3(formula::plus(self, o))
    }

    // self - o
    pub fn difference(self, o: Self) -> Result<Vec3, Refusal>
        ensures { told result ≡ difference_due self o }
    {
        require(are_within(self, o), Refusal::OutOfRange)?;
        finite3(formula::minus(self, o))
    }

    // -self
    pub fn negation(self) -> Result<Vec3, Refusal>
        ensures { told result ≡ negation_due self }
    {
        require(is_within3(self), Refusal::OutOfRange)?;
        finite3(formula::neg(self))
    }

    // self * k
    pub fn times(self, k: f64) -> Result<Vec3, Refusal>
        ensures { told result ≡ times_due self k }
    {
        require(is_within_times(self, k), Refusal::OutOfRange)?;
        finite3(formula::times(self, k))
    }

    pub fn dominant_axis(self) -> Result<usize, Refusal>
        ensures { told result ≡ dominant_axis_due self }
    {
        require(is_within3(self), Refusal::OutOfRange)?;
        Ok(largest(
            float_bits::fabs(self.x),
            float_bits::fabs(self.y),
            float_bits::fabs(self.z),
        ))
    }

    pub fn to_array(self) -> Result<[f64; 3], Refusal>
        ensures { told result ≡ to_array_due self }
    {
        require(is_within3(self), Refusal::OutOfRange)?;
        Ok([self.x, self.y, self.z])
    }
}
