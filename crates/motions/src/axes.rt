// A point and a direction, moved together: the axis of an arc, a cylinder or a cone, a plane with its normal.
ghost use Rattle.std.specs.Prelude.{◌≡◌};
ghost use Rattle.checked.specs.Checked.{answered};
ghost use Rattle.checked.specs.Told.{told};
ghost use Rattle.motions.specs.Axes.{moved_c};

use crate::Rigid;
use crate::formula::{apply, apply_vector};
use checked::Refusal;
use vectors::Vec3;
use vectors::formula::finite3;

// A line through a point.
#[derive(Clone, Copy)]
pub struct Axis {
    pub origin: Vec3,
    pub along: Vec3,
}

#[inline(always)]
pub fn moved(m: Rigid, origin: Vec3, along: Vec3) -> Result<Axis, Refusal>
    ensures { told result ≡ answered (moved_c m origin along) }
{
    let origin = finite3(apply(m, origin))?;
    let along = finite3(apply_vector(m, along))?;
    Ok(Axis { origin, along })
}
