// What a curve is made of, an arc or a piece: both moved, a piece's part of a box. On numbers of any size.
ghost use Rattle.std.specs.Prelude.{◌≡◌};
ghost use Rattle.checked.specs.Told.{told};
ghost use Rattle.checked.specs.Checked.{answered};
ghost use Rattle.boxes.specs.Boxes.{widened_c};
ghost use Rattle.curves.specs.Parts.{moved_arc_c, moved_piece_c, piece_c};

use arcs::Arc;
use boxes::Bounds;
use checked::Refusal;
use developments::moved_by;
use motions::{Rigid, axes};
use piece_boxes::space_boxes::extended_by;
use pieces::Rolled;
use pieces::formula::run;

#[inline(always)]
pub fn moved_arc(a: Arc, m: Rigid) -> Result<Arc, Refusal>
    ensures { told result ≡ answered (moved_arc_c a m) }
{
    let x = axes::moved(m, a.center, a.axis)?;
    Ok(Arc {
        center: x.origin,
        axis: x.along,
        ..a
    })
}

// The piece moves with its development.
#[inline(always)]
pub fn moved_piece(p: Rolled, m: Rigid) -> Result<Rolled, Refusal>
    ensures { told result ≡ answered (moved_piece_c p m) }
{
    let dev = moved_by(p.dev, m)?;
    Ok(Rolled { dev, ..p })
}

// The box widened by a piece at `radius` from its axis.
pub fn with_piece(p: Rolled, radius: f64, b: Bounds) -> Result<Bounds, Refusal>
    ensures { told result ≡ answered (widened_c b (piece_c p radius)) }
{
    let r = run(p)?;
    extended_by(p.dev, radius, r, b)
}
