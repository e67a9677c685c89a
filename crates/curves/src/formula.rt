// A curve's formulas on numbers of any size: those of its arc or of its piece.
ghost use Rattle.std.specs.Prelude.{◌≡◌};
ghost use Rattle.checked.specs.Checked.{answered};
ghost use Rattle.checked.specs.Told.{told};
ghost use Rattle.curves.specs.Curves.{reversed_c, moved_c};

use crate::parts::{moved_arc, moved_piece};
use crate::{Curve, RolledAt};
use checked::Refusal;
use motions::Rigid;

#[inline(always)]
pub fn reversed(c: Curve) -> Result<Curve, Refusal>
    ensures { told result ≡ answered (reversed_c c) }
{
    match c {
        Curve::Arc(a) => Ok(Curve::Arc(arcs::formula::reversed(a)?)),
        Curve::Rolled(w) => Ok(Curve::Rolled(RolledAt {
            piece: pieces::formula::reversed(w.piece),
            ..w
        })),
    }
}

#[inline(always)]
pub fn moved(c: Curve, m: Rigid) -> Result<Curve, Refusal>
    ensures { told result ≡ answered (moved_c c m) }
{
    match c {
        Curve::Arc(a) => Ok(Curve::Arc(moved_arc(a, m)?)),
        Curve::Rolled(w) => Ok(Curve::Rolled(RolledAt {
            piece: moved_piece(w.piece, m)?,
            ..w
        })),
    }
}
