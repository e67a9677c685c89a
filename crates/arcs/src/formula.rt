// An arc run the other way, on numbers of any size.
ghost use Rattle.std.specs.Prelude.{◌≡◌};
ghost use Rattle.checked.specs.Checked.{answered};
ghost use Rattle.checked.specs.Told.{told};
ghost use Rattle.arcs.specs.Arcs.{reversed_c};

use crate::Arc;
use checked::Refusal;
use vectors::formula::{finite3, neg};

pub fn reversed(arc: Arc) -> Result<Arc, Refusal>
    ensures { told result ≡ answered (reversed_c arc) }
{
    let axis = finite3(neg(arc.axis))?;
    Ok(Arc { axis, ..arc })
}
