// The surface that a face lies on: what a program may call is here, the formulas that choose by its case in `formula`.
#![tactic(auto, unfolding(crate::specs::Normals::faced_c, crate::specs::Surfaces::normal_c, crate::specs::Entries::tests, crate::specs::Surfaces::plane_of, crate::specs::Surfaces::cone_of, crate::specs::Entries::plane_due, crate::specs::Entries::revolution_due), using(checked::specs::ToldLaws::passes))]

ghost use Rattle.std.specs.Prelude.{◌≡◌};
ghost use Rattle.checked.specs.Told.{told, failed};
ghost use Rattle.surfaces.specs.Entries.{tests, plane_due, revolution_due, moved_due, normal_due};

use checked::{Refusal, is_within, require};
use cones::Cone;
use motions::{Rigid, is_within_rigid};
use pieces::Rolled;
use vectors::{Vec3, is_within3};

pub mod formula;
pub mod normals;

// A plane through `origin`, whose normal points out of the body.
#[derive(Clone, Copy)]
pub struct Plane {
    pub origin: Vec3,
    pub normal: Vec3,
}

// A circular cylinder: its axis through `origin` along the unit `axis`. Where it is `convex` the body lies inside.
#[derive(Clone, Copy)]
pub struct Cylinder {
    pub origin: Vec3,
    pub axis: Vec3,
    pub radius: f64,
    pub convex: bool,
}

#[derive(Clone, Copy)]
pub enum Surface {
    Plane(Plane),
    Cylinder(Cylinder),
    Cone(Cone),
    // The piece swept along the radius, out of the body left of its direction.
    Wall(Rolled),
}

impl Surface {
    // The refusal of the test that the surface fails first, where it fails one. Inlined, since a call
    // copies the surface.
    #[inline(always)]
    pub fn tried(self) -> Result<(), Refusal>
        ensures { failed result ≡ tests self }
    {
        match self {
            Surface::Plane(p) => require(
                is_within3(p.origin) & is_within3(p.normal),
                Refusal::OutOfRange,
            ),
            Surface::Cylinder(c) => require(
                is_within3(c.origin) & (is_within3(c.axis) & is_within(c.radius)),
                Refusal::OutOfRange,
            ),
            Surface::Cone(c) => require(c.is_within(), Refusal::OutOfRange),
            Surface::Wall(w) => w.tried(),
        }
    }

    // The plane that the surface is, where it is one.
    pub fn plane(self) -> Result<Option<Plane>, Refusal>
        ensures { told result ≡ plane_due self }
    {
        self.tried()?;
        match self {
            Surface::Plane(p) => Ok(Some(p)),
            Surface::Cylinder(_) => Ok(None),
            Surface::Cone(_) => Ok(None),
            Surface::Wall(_) => Ok(None),
        }
    }

    // A cylinder as a cone of no slope, a cone as itself.
    pub fn revolution(self) -> Result<Option<Cone>, Refusal>
        ensures { told result ≡ revolution_due self }
    {
        self.tried()?;
        match self {
            Surface::Cylinder(c) => Ok(Some(Cone {
                origin: c.origin,
                axis: c.axis,
                radius: c.radius,
                slope: 0.0,
                convex: c.convex,
            })),
            Surface::Cone(c) => Ok(Some(c)),
            Surface::Plane(_) => Ok(None),
            Surface::Wall(_) => Ok(None),
        }
    }

    // The same surface moved by m.
    pub fn moved(self, m: Rigid) -> Result<Surface, Refusal>
        ensures { told result ≡ moved_due self m }
    {
        require(is_within_rigid(m), Refusal::OutOfRange)?;
        self.tried()?;
        formula::moved(self, m)
    }

    // The unit normal out of the body at p, a point of the surface.
    pub fn normal_at(self, p: Vec3) -> Result<Vec3, Refusal>
        ensures { told result ≡ normal_due self p }
    {
        require(is_within3(p), Refusal::OutOfRange)?;
        self.tried()?;
        formula::normal(self, p)
    }
}
