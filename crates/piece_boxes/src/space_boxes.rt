// A piece's part of a box: the arcs about the axis at the two ends of its box along v hold it. On
// numbers of any size.
ghost use Rattle.std.specs.Prelude.{◌≡◌};
ghost use Rattle.checked.specs.Checked.{answered};
ghost use Rattle.checked.specs.Told.{told};
ghost use Rattle.boxes.specs.Boxes.{widened_c};
ghost use Rattle.piece_boxes.specs.SpaceBoxes.{end_arc_c, end_arcs_c, points_c};

use crate::brackets::FlatBox;
use crate::curve_boxes::uv_box;
use arcs::Arc;
use arcs::extremes::extended;
use boxes::Bounds;
use checked::Refusal;
use developments::Development;
use developments::formulas::point;
use piece_curves::PieceCurve;
use vectors::Vec2;
use vectors::formula::{finite3, plus, times};

// The box widened by the arc at v, from u0 to u1.
fn with_end_arc(
    dev: Development,
    radius: f64,
    u0: f64,
    u1: f64,
    v: f64,
    b: Bounds,
) -> Result<Bounds, Refusal>
    ensures { told result ≡ answered (widened_c b (end_arc_c dev radius u0 u1 v)) }
{
    let center = finite3(plus(dev.origin, times(dev.axis, v)))?;
    let from = point(dev, Vec2 { x: u0, y: v }, radius)?;
    let to = point(dev, Vec2 { x: u1, y: v }, radius)?;
    let arc = Arc {
        center,
        axis: dev.axis,
        radius,
    };
    extended(arc, from, to, b)
}

// The box widened by both arcs of a box in the development.
fn with_end_arcs(dev: Development, radius: f64, f: FlatBox, b: Bounds) -> Result<Bounds, Refusal>
    ensures { told result ≡ answered (widened_c b (end_arcs_c dev radius f)) }
{
    let low = with_end_arc(dev, radius, f.low.x, f.high.x, f.low.y, b)?;
    with_end_arc(dev, radius, f.low.x, f.high.x, f.high.y, low)
}

// The box widened by the piece at `radius` from the axis.
pub fn extended_by(
    dev: Development,
    radius: f64,
    r: PieceCurve,
    b: Bounds,
) -> Result<Bounds, Refusal>
    ensures { told result ≡ answered (widened_c b (points_c dev radius r)) }
{
    let f = uv_box(r)?;
    with_end_arcs(dev, radius, f, b)
}
