// Where a piece of a development is in space at t, from 0 at its first end to 1 at its last: what
// drawing reads of it. How it moves there is not worked out. Numbers may be of any size.
ghost use Rattle.std.specs.Prelude.{◌≡◌};
ghost use Rattle.checked.specs.Checked.{answered};
ghost use Rattle.checked.specs.Told.{told};
ghost use Rattle.piece_curves.specs.SpacePoints.{wave_c, flat_c, rolled_c};

use crate::points::{arc_point, straight_at};
use crate::{CurveKind, Ends, PieceCurve, meet_curves};
use checked::{Refusal, finite};
use developments::{Development, formulas};
use vectors::{Vec2, Vec3};
use waves::{Wave, values};

// A piece of a development, at `radius` from its axis.
#[derive(Clone, Copy)]
pub struct Rolling {
    pub dev: Development,
    pub radius: f64,
    pub run: PieceCurve,
}

fn wave_point(w: Wave, ends: Ends, t: f64) -> Result<Vec2, Refusal>
    ensures { told result ≡ answered (wave_c w ends.from ends.to ends.neutral t) }
{
    let u = finite(ends.from.x + (ends.to.x - ends.from.x) * t)?;
    let v = values::v(w, u, ends.neutral)?;
    Ok(Vec2 { x: u, y: v })
}

// The point at t in the development.
#[inline(always)]
pub fn flat_point(r: PieceCurve, t: f64) -> Result<Vec2, Refusal>
    ensures { told result ≡ answered (flat_c r t) }
{
    match r.way {
        CurveKind::Straight => Ok(straight_at(r.ends, t)?.p),
        CurveKind::Arc(a) => arc_point(a, r.ends, t),
        CurveKind::Wave(v) => wave_point(v, r.ends, t),
        CurveKind::Meet(c) => meet_curves::point(c, t),
    }
}

// The point at t, `radius` from the axis.
#[inline(always)]
pub fn rolled_point(g: Rolling, t: f64) -> Result<Vec3, Refusal>
    ensures { told result ≡ answered (rolled_c g t) }
{
    let p = flat_point(g.run, t)?;
    formulas::point(g.dev, p, g.radius)
}
