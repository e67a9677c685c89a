// A surface's formulas on numbers of any size, chosen by its case.
ghost use Rattle.std.specs.Prelude.{◌≡◌};
ghost use Rattle.checked.specs.Checked.{answered};
ghost use Rattle.checked.specs.Told.{told};
ghost use Rattle.surfaces.specs.Surfaces.{moved_c, wall_c, normal_c};

use crate::normals::{cone, cylinder};
use crate::{Cylinder, Plane, Surface};
use checked::Refusal;
use cones::Cone;
use curves::parts::moved_piece;
use developments::formulas::unroll;
use directions::formula::unit;
use motions::{Rigid, axes};
use pieces::Rolled;
use vectors::Vec3;

pub fn moved(s: Surface, m: Rigid) -> Result<Surface, Refusal>
    ensures { told result ≡ answered (moved_c s m) }
{
    match s {
        Surface::Plane(p) => {
            let x = axes::moved(m, p.origin, p.normal)?;
            Ok(Surface::Plane(Plane {
                origin: x.origin,
                normal: x.along,
            }))
        }
        Surface::Cylinder(c) => {
            let x = axes::moved(m, c.origin, c.axis)?;
            Ok(Surface::Cylinder(Cylinder {
                origin: x.origin,
                axis: x.along,
                ..c
            }))
        }
        Surface::Cone(c) => {
            let x = axes::moved(m, c.origin, c.axis)?;
            Ok(Surface::Cone(Cone {
                origin: x.origin,
                axis: x.along,
                ..c
            }))
        }
        Surface::Wall(w) => Ok(Surface::Wall(moved_piece(w, m)?)),
    }
}

// A wall's normal: that of its piece where p unrolls to, near the piece's start.
fn wall_normal(w: Rolled, p: Vec3) -> Result<Vec3, Refusal>
    ensures { told result ≡ answered (wall_c w p) }
{
    let q = unroll(w.dev, p, w.from.x)?;
    pieces::formula::normal(w, q.p, q.r)
}

// The unit normal out of the body at p.
pub fn normal(s: Surface, p: Vec3) -> Result<Vec3, Refusal>
    ensures { told result ≡ answered (normal_c s p) }
{
    match s {
        Surface::Plane(f) => unit(f.normal),
        Surface::Cylinder(c) => cylinder(c, p),
        Surface::Cone(c) => cone(c, p),
        Surface::Wall(w) => wall_normal(w, p),
    }
}
