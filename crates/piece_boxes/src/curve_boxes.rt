// The least and greatest u and v of a piece of a development, on numbers of any size.
ghost use Rattle.std.specs.Prelude.{◌≡◌};
ghost use Rattle.checked.specs.Checked.{answered};
ghost use Rattle.checked.specs.Told.{told};
ghost use Rattle.piece_boxes.specs.CurveBoxes.{ends, arc_c, wave_c, box_c};

use crate::brackets::FlatBox;
use crate::meet_boxes::meet_box;
use checked::{Refusal, finite};
use order::{greatest, least};
use piece_curves::{CurveKind, Ends, PieceCurve};
use piece_lengths::measures::distance;
use profile_arcs::ProfileArc;
use vectors::Vec2;
use waves::Wave;
use waves::turning_points::range;

// Of the two ends.
fn ends(e: Ends) -> FlatBox
    ensures { result ≡ ends e.from e.to }
{
    FlatBox {
        low: Vec2 {
            x: least(e.from.x, e.to.x),
            y: least(e.from.y, e.to.y),
        },
        high: Vec2 {
            x: greatest(e.from.x, e.to.x),
            y: greatest(e.from.y, e.to.y),
        },
    }
}

// The whole circle's box, with both ends.
fn arc_box(a: ProfileArc, e: Ends) -> Result<FlatBox, Refusal>
    ensures { told result ≡ answered (arc_c a e.from e.to) }
{
    let c = a.center;
    let d = distance(c, e.from)?;
    let u0 = finite(c.x - d)?;
    let u1 = finite(c.x + d)?;
    let v0 = finite(c.y - d)?;
    let v1 = finite(c.y + d)?;
    let b = ends(e);
    Ok(FlatBox {
        low: Vec2 {
            x: least(b.low.x, u0),
            y: least(b.low.y, v0),
        },
        high: Vec2 {
            x: greatest(b.high.x, u1),
            y: greatest(b.high.y, v1),
        },
    })
}

#[inline(never)]
fn wave_box(w: Wave, e: Ends) -> Result<FlatBox, Refusal>
    ensures { told result ≡ answered (wave_c w e.from e.to e.neutral) }
{
    let v = range(w, e.from.x, e.to.x, e.neutral)?;
    Ok(FlatBox {
        low: Vec2 {
            x: least(e.from.x, e.to.x),
            y: v.low,
        },
        high: Vec2 {
            x: greatest(e.from.x, e.to.x),
            y: v.high,
        },
    })
}

#[inline(always)]
pub fn uv_box(r: PieceCurve) -> Result<FlatBox, Refusal>
    ensures { told result ≡ answered (box_c r) }
{
    match r.way {
        CurveKind::Straight => Ok(ends(r.ends)),
        CurveKind::Arc(a) => arc_box(a, r.ends),
        CurveKind::Wave(w) => wave_box(w, r.ends),
        CurveKind::Meet(c) => meet_box(c),
    }
}
