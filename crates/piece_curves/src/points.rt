// Where a piece of a development is at t, from 0 at its first end to 1 at its last, and how it
// moves there: on numbers of any size.
ghost use Rattle.std.specs.Prelude.{◌≡◌};
ghost use Rattle.checked.specs.Checked.{answered};
ghost use Rattle.checked.specs.Told.{told};
ghost use Rattle.piece_curves.specs.Points.{straight_c, swung_c, arc_point_c, arc_c, wave_c, at_c};

use crate::meet_curves::Place;
use crate::{CurveKind, Ends, PieceCurve, meet_curves};
use checked::{Refusal, finite};
use libm::sincos::sincos;
use profile_arcs::ProfileArc;
use vectors::Vec2;
use waves::{Wave, values};

// The whole turn of an arc, and from its centre to the point at t.
#[derive(Clone, Copy)]
pub struct Swung {
    pub phi: f64,
    pub x: f64,
    pub y: f64,
}

pub fn straight_at(ends: Ends, t: f64) -> Result<Place, Refusal>
    ensures { told result ≡ answered (straight_c ends.from ends.to t) }
{
    let dx = finite(ends.to.x - ends.from.x)?;
    let dy = finite(ends.to.y - ends.from.y)?;
    let x = finite(ends.from.x + dx * t)?;
    let y = finite(ends.from.y + dy * t)?;
    Ok(Place {
        p: Vec2 { x, y },
        d: Vec2 { x: dx, y: dy },
    })
}

pub fn swing(a: ProfileArc, ends: Ends, t: f64) -> Result<Swung, Refusal>
    ensures { told result ≡ answered (swung_c a ends.from ends.to t) }
{
    let dx = finite(ends.from.x - a.center.x)?;
    let dy = finite(ends.from.y - a.center.y)?;
    let phi = profile_arcs::formula::turn(a, ends.from, ends.to)?;
    let s = sincos(phi * t)?;
    let x = finite(dx * s.cos - dy * s.sin)?;
    let y = finite(dx * s.sin + dy * s.cos)?;
    Ok(Swung { phi, x, y })
}

// The point of an arc alone.
pub fn arc_point(a: ProfileArc, ends: Ends, t: f64) -> Result<Vec2, Refusal>
    ensures { told result ≡ answered (arc_point_c a ends.from ends.to t) }
{
    let w = swing(a, ends, t)?;
    let x = finite(a.center.x + w.x)?;
    let y = finite(a.center.y + w.y)?;
    Ok(Vec2 { x, y })
}

pub fn arc_at(a: ProfileArc, ends: Ends, t: f64) -> Result<Place, Refusal>
    ensures { told result ≡ answered (arc_c a ends.from ends.to t) }
{
    let w = swing(a, ends, t)?;
    let x = finite(a.center.x + w.x)?;
    let y = finite(a.center.y + w.y)?;
    let dx = finite(-w.phi * w.y)?;
    let dy = finite(w.phi * w.x)?;
    Ok(Place {
        p: Vec2 { x, y },
        d: Vec2 { x: dx, y: dy },
    })
}

pub fn wave_at(w: Wave, ends: Ends, t: f64) -> Result<Place, Refusal>
    ensures { told result ≡ answered (wave_c w ends.from ends.to ends.neutral t) }
{
    let du = finite(ends.to.x - ends.from.x)?;
    let u = finite(ends.from.x + du * t)?;
    let h = values::with_slope(w, u, ends.neutral)?;
    let dv = finite(h.slope * du)?;
    Ok(Place {
        p: Vec2 { x: u, y: h.v },
        d: Vec2 { x: du, y: dv },
    })
}

// The point at t, and its derivative.
#[inline(always)]
pub fn at(r: PieceCurve, t: f64) -> Result<Place, Refusal>
    ensures { told result ≡ answered (at_c r t) }
{
    match r.way {
        CurveKind::Straight => straight_at(r.ends, t),
        CurveKind::Arc(a) => arc_at(a, r.ends, t),
        CurveKind::Wave(v) => wave_at(v, r.ends, t),
        CurveKind::Meet(c) => meet_curves::at(c, t),
    }
}
