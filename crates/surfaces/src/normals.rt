// Unit normals of a body's surfaces of revolution, on numbers of any size. A plane's normal is `unit`, a wall's belongs to its piece.
ghost use Rattle.std.specs.Prelude.{◌≡◌};
ghost use Rattle.checked.specs.Checked.{answered};
ghost use Rattle.checked.specs.Told.{told};
ghost use Rattle.surfaces.specs.Normals.{faced_c, cylinder_c, cone_c};

use crate::Cylinder;
use checked::Refusal;
use cones::Cone;
use directions::formula::{radial, unit};
use vectors::Vec3;
use vectors::formula::{minus, neg, times};

// v where the body lies inside, else v turned round.
fn faced(convex: bool, v: Vec3) -> Vec3
    ensures { result ≡ (faced_c convex v).value }
{
    if convex { v } else { neg(v) }
}

// The normal at p of a cylinder.
pub fn cylinder(c: Cylinder, p: Vec3) -> Result<Vec3, Refusal>
    ensures { told result ≡ answered (cylinder_c c.origin c.axis c.convex p) }
{
    let r = radial(c.origin, c.axis, p)?;
    Ok(faced(c.convex, r))
}

// The normal at p of a cone.
pub fn cone(c: Cone, p: Vec3) -> Result<Vec3, Refusal>
    ensures { told result ≡ answered (cone_c c.origin c.axis c.slope c.convex p) }
{
    let r = radial(c.origin, c.axis, p)?;
    let u = unit(minus(r, times(c.axis, c.slope)))?;
    Ok(faced(c.convex, u))
}
