// Rigid motions. What a program may call is here, the formulas are in `formula`.
#![tactic(auto, using(checked::specs::ToldLaws::exit_is, checked::specs::ToldLaws::passing_number, checked::specs::ToldLaws::passes, crate::specs::Laws::apply_nine, crate::specs::Laws::apply_vector_nine), unfolding(crate::specs::Motions::within_rigid, crate::specs::Motions::rotation_due, crate::specs::Motions::frame_due, crate::specs::Motions::apply_due, crate::specs::Motions::apply_vector_due))]

ghost use Rattle.std.specs.Prelude.{◌≡◌, ◌&&◌};
ghost use Rattle.checked.specs.Told.{told};
ghost use Rattle.checked.specs.Checked.{within};
ghost use Rattle.vectors.specs.Vectors.{within3};
ghost use Rattle.motions.specs.Motions.{within_rigid, rotation_due, frame_due, apply_due, apply_vector_due};

use checked::{Refusal, is_within, require};
use vectors::formula::finite3;
use vectors::{Vec3, is_within3};

pub mod axes;
pub mod formula;

// The rows of a rotation, by the coordinate that each one gives.
#[derive(Clone, Copy)]
pub struct Rows {
    pub x: Vec3,
    pub y: Vec3,
    pub z: Vec3,
}

// A rigid motion: a rotation, then a shift.
#[derive(Clone, Copy)]
pub struct Rigid {
    pub rot: Rows,
    pub shift: Vec3,
}

pub fn is_within_rigid(m: Rigid) -> bool
    ensures { result ≡ within_rigid m }
{
    is_within3(m.rot.x) & (is_within3(m.rot.y) & (is_within3(m.rot.z) & is_within3(m.shift)))
}

fn are_within(m: Rigid, p: Vec3) -> bool
    ensures { result ≡ (within_rigid m && within3 p) }
{
    is_within_rigid(m) & is_within3(p)
}

fn is_within_turn(axis: Vec3, angle: f64) -> bool
    ensures { result ≡ (within3 axis && within angle) }
{
    is_within3(axis) & is_within(angle)
}

fn is_within_frame(o: Vec3, x: Vec3, y: Vec3, z: Vec3) -> bool
    ensures { result ≡ (within3 o && (within3 x && (within3 y && within3 z))) }
{
    is_within3(o) & (is_within3(x) & (is_within3(y) & is_within3(z)))
}

impl Rigid {
    // The rotation by an angle about an axis of any length but 0 through the origin.
    pub fn rotation(axis: Vec3, angle: f64) -> Result<Rigid, Refusal>
        ensures { told result ≡ rotation_due axis angle }
    {
        require(is_within_turn(axis, angle), Refusal::OutOfRange)?;
        formula::rotation(axis, angle)
    }

    // The motion taking coordinates in a frame to those of the world.
    pub fn frame(origin: Vec3, x: Vec3, y: Vec3, z: Vec3) -> Result<Rigid, Refusal>
        ensures { told result ≡ frame_due origin x y z }
    {
        require(is_within_frame(origin, x, y, z), Refusal::OutOfRange)?;
        Ok(formula::frame(origin, x, y, z))
    }

    pub fn apply(self, p: Vec3) -> Result<Vec3, Refusal>
        ensures { told result ≡ apply_due self p }
    {
        require(are_within(self, p), Refusal::OutOfRange)?;
        finite3(formula::apply(self, p))
    }

    // The rotation alone: for directions and normals.
    pub fn apply_vector(self, v: Vec3) -> Result<Vec3, Refusal>
        ensures { told result ≡ apply_vector_due self v }
    {
        require(are_within(self, v), Refusal::OutOfRange)?;
        finite3(formula::apply_vector(self, v))
    }
}
