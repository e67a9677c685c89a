// The second derivative of a piece of a development at t, on numbers of any size.
ghost use Rattle.std.specs.Prelude.{◌≡◌};
ghost use Rattle.checked.specs.Checked.{answered};
ghost use Rattle.checked.specs.Told.{told};
ghost use Rattle.piece_lengths.specs.SecondDerivatives.{level_c, angle_bend_c, meet_c, wave_c, arc_c, second_c};

use checked::{Refusal, finite};
use meets::generatrix::{bend_at, speed_at};
use meets::quadratic::intersect;
use piece_curves::meet_curves::{MeetCurve, angle, rate};
use piece_curves::points::arc_point;
use piece_curves::{CurveKind, Ends, PieceCurve};
use profile_arcs::ProfileArc;
use vectors::{Vec2, Vec3};
use waves::{Wave, values};

// x and y of p + a·t.
fn level(p: Vec3, a: Vec3, t: f64) -> Vec2
    ensures { result ≡ (level_c p a t).value }
{
    Vec2 {
        x: p.x + a.x * t,
        y: p.y + a.y * t,
    }
}

// The second derivative of the angle about the axis, of a point with its derivatives.
fn angle_bend(q: Vec2, q1: Vec2, q2: Vec2) -> Result<f64, Refusal>
    ensures { told result ≡ answered (angle_bend_c q q1 q2) }
{
    let r2 = q.x * q.x + q.y * q.y;
    let cross = q.x * q1.y - q.y * q1.x;
    let r4 = finite(r2 * r2)?;
    finite(((q.x * q2.y - q.y * q2.x) * r2 - cross * 2.0 * (q.x * q1.x + q.y * q1.y)) / r4)
}

// The second derivative along a meet: of v, and along a hole of u too.
#[inline(always)]
pub fn meet_second(c: MeetCurve, t: f64) -> Result<Vec2, Refusal>
    ensures { told result ≡ answered (meet_c c t) }
{
    let k = finite(rate(c))?;
    let phi = finite(angle(c, t))?;
    let p = c.pipe;
    let h = intersect(p, phi)?;
    let s = speed_at(p, h)?;
    let e = bend_at(p, h, s)?;
    let v = (e.d2.z + p.a.z * e.t2) * k * k;
    match c.turn {
        None => {
            let y = finite(v)?;
            Ok(Vec2 { x: 0.0, y })
        }
        Some(_) => {
            // The angle's bend is finite only where these are.
            let q = level(h.p0, p.a, h.t);
            let q1 = level(s.d1, p.a, s.t1);
            let q2 = level(e.d2, p.a, e.t2);
            let bend = angle_bend(q, q1, q2)?;
            let x = finite(c.neutral * bend * k * k)?;
            let y = finite(v)?;
            Ok(Vec2 { x, y })
        }
    }
}

fn wave_second(w: Wave, ends: Ends, t: f64) -> Result<Vec2, Refusal>
    ensures { told result ≡ answered (wave_c w ends.from ends.to ends.neutral t) }
{
    let du = finite(ends.to.x - ends.from.x)?;
    let u = finite(ends.from.x + du * t)?;
    let e = values::bend(w, u, ends.neutral)?;
    let y = finite(e * du * du)?;
    Ok(Vec2 { x: 0.0, y })
}

fn arc_second(a: ProfileArc, ends: Ends, t: f64) -> Result<Vec2, Refusal>
    ensures { told result ≡ answered (arc_c a ends.from ends.to t) }
{
    let p = arc_point(a, ends, t)?;
    let turn = profile_arcs::formula::turn(a, ends.from, ends.to)?;
    let x = finite(-turn * turn * (p.x - a.center.x))?;
    let y = finite(-turn * turn * (p.y - a.center.y))?;
    Ok(Vec2 { x, y })
}

// The second derivative of the point at t.
pub fn second(r: PieceCurve, t: f64) -> Result<Vec2, Refusal>
    ensures { told result ≡ answered (second_c r t) }
{
    match r.way {
        CurveKind::Straight => Ok(Vec2 { x: 0.0, y: 0.0 }),
        CurveKind::Arc(a) => arc_second(a, r.ends, t),
        CurveKind::Wave(w) => wave_second(w, r.ends, t),
        CurveKind::Meet(c) => meet_second(c, t),
    }
}
