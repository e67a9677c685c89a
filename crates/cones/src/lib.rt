// Cones, and coordinates across their axis. What a program may call is here, the bare formulas are
// in `formula`.
#![tactic(auto, using(checked::specs::ToldLaws::exit_is, checked::specs::ToldLaws::passing_number, checked::specs::ToldLaws::passes), unfolding(crate::specs::Entries::cone_within, crate::specs::Entries::frame_within, crate::specs::Entries::frame_due, crate::specs::Entries::angle_due, crate::specs::Entries::point_due))]

ghost use Rattle.std.specs.Prelude.{◌≡◌, ◌&&◌};
ghost use Rattle.checked.specs.Told.{told};
ghost use Rattle.vectors.specs.Vectors.{within3};
ghost use Rattle.cones.specs.Entries.{cone_within, frame_within, frame_due, angle_due, point_due};

use checked::{Refusal, is_within, require};
use vectors::{Vec3, is_within3};

pub mod formula;

// A circular cone: its axis through `origin` along the unit `axis`, `radius` at `origin`, and
// `slope`, which the radius gains per unit along the axis. A cylinder is a cone of no slope. Where
// it is `convex` the body lies inside.
#[derive(Clone, Copy)]
pub struct Cone {
    pub origin: Vec3,
    pub axis: Vec3,
    pub radius: f64,
    pub slope: f64,
    pub convex: bool,
}

// Coordinates across the axis of a surface of revolution: `e1` and `e2`, which is axis × e1.
#[derive(Clone, Copy)]
pub struct Frame {
    pub axis: Vec3,
    pub origin: Vec3,
    pub e1: Vec3,
    pub e2: Vec3,
}

impl Cone {
    // Every number of the cone passes the test of what is handed in.
    pub fn is_within(self) -> bool
        ensures { result ≡ cone_within self }
    {
        is_within3(self.origin)
            & (is_within3(self.axis) & (is_within(self.radius) & is_within(self.slope)))
    }

    // The frame of the cone: `frame` in the Rust, a name that differs from the record's only in the
    // case of a letter.
    pub fn own_frame(self) -> Result<Frame, Refusal>
        ensures { told result ≡ frame_due self }
    {
        require(self.is_within(), Refusal::OutOfRange)?;
        formula::own_frame(self)
    }
}

impl Frame {
    // Every number of the frame, and three more.
    fn is_within_with(self, p: Vec3) -> bool
        ensures { result ≡ (frame_within self && within3 p) }
    {
        is_within3(self.axis)
            & (is_within3(self.origin) & (is_within3(self.e1) & is_within3(self.e2)))
            & is_within3(p)
    }

    // The angle of the point p, in [-π, π].
    pub fn angle(self, p: Vec3) -> Result<f64, Refusal>
        ensures { told result ≡ angle_due self p }
    {
        require(self.is_within_with(p), Refusal::OutOfRange)?;
        formula::angle(self, p)
    }

    // The point at the angle `theta`, z along the axis and r from it.
    pub fn point(self, theta: f64, z: f64, r: f64) -> Result<Vec3, Refusal>
        ensures { told result ≡ point_due self theta z r }
    {
        require(
            self.is_within_with(Vec3::new(theta, z, r)),
            Refusal::OutOfRange,
        )?;
        formula::point(self, theta, z, r)
    }
}
