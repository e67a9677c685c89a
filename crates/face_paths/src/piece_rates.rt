// Where a piece of a development is at t, and how fast u runs there: what the integral along a path
// reads of `Rolled::at`. How fast v runs is dropped unread, and not worked out. Numbers of any size.
ghost use Rattle.std.specs.Prelude.{◌≡◌};
ghost use Rattle.checked.specs.Checked.{answered};
ghost use Rattle.checked.specs.Told.{told};
ghost use Rattle.face_paths.specs.PieceRates.{straight_c, arc_c, wave_c, meet_c, rate_c};

use checked::{Refusal, finite};
use piece_curves::meet_curves::{MeetCurve, motion, placed};
use piece_curves::points::swing;
use piece_curves::{CurveKind, Ends, PieceCurve};
use profile_arcs::ProfileArc;
use waves::{Wave, values};

#[derive(Clone, Copy)]
pub struct PieceRate {
    pub u: f64,
    pub v: f64,
    pub du: f64,
}

fn straight_rate(ends: Ends, t: f64) -> Result<PieceRate, Refusal>
    ensures { told result ≡ answered (straight_c ends.from ends.to t) }
{
    let du = finite(ends.to.x - ends.from.x)?;
    let dv = finite(ends.to.y - ends.from.y)?;
    let u = finite(ends.from.x + du * t)?;
    let v = finite(ends.from.y + dv * t)?;
    Ok(PieceRate { u, v, du })
}

fn arc_rate(a: ProfileArc, ends: Ends, t: f64) -> Result<PieceRate, Refusal>
    ensures { told result ≡ answered (arc_c a ends.from ends.to t) }
{
    let w = swing(a, ends, t)?;
    let u = finite(a.center.x + w.x)?;
    let v = finite(a.center.y + w.y)?;
    let du = finite(-w.phi * w.y)?;
    Ok(PieceRate { u, v, du })
}

fn wave_rate(w: Wave, ends: Ends, t: f64) -> Result<PieceRate, Refusal>
    ensures { told result ≡ answered (wave_c w ends.from ends.to ends.neutral t) }
{
    let du = ends.to.x - ends.from.x;
    let u = finite(ends.from.x + du * t)?;
    let v = values::v(w, u, ends.neutral)?;
    Ok(PieceRate { u, v, du })
}

fn meet_rate(c: MeetCurve, t: f64) -> Result<PieceRate, Refusal>
    ensures { told result ≡ answered (meet_c c t) }
{
    let m = motion(c, t);
    let du = m.u?;
    let q = m.q?;
    let p = placed(c, t, q)?;
    Ok(PieceRate { u: p.x, v: p.y, du })
}

pub fn rate_at(r: PieceCurve, t: f64) -> Result<PieceRate, Refusal>
    ensures { told result ≡ answered (rate_c r t) }
{
    match r.way {
        CurveKind::Straight => straight_rate(r.ends, t),
        CurveKind::Arc(a) => arc_rate(a, r.ends, t),
        CurveKind::Wave(v) => wave_rate(v, r.ends, t),
        CurveKind::Meet(c) => meet_rate(c, t),
    }
}
