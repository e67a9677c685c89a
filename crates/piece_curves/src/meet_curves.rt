// A piece of a development that follows a meet, on numbers of any size: where it is at t, and how
// it moves. A call works out what its caller reads, and no more.
ghost use Rattle.std.specs.Prelude.{◌≡◌};
ghost use Rattle.checked.specs.Checked.{answered};
ghost use Rattle.checked.specs.Told.{told};
ghost use Rattle.piece_curves.specs.MeetCurves.{meet_curve_c, rate_c, angle_c, slope_v_c, around_c, slope_u_c, ended_c, near_c, point_c, placed_c, at_c};

use crate::Ends;
use checked::{Refusal, TAU, finite};
use libm::atan2::atan2;
use meets::formula::pipe;
use meets::generatrix::speed_at;
use meets::quadratic::{Pipe, intersect};
use meets::{Angles, Meet};
use rounding::round;
use vectors::formula::{finite3, plus, times};
use vectors::{Vec2, Vec3};

// The piece's first and last u, the neutral radius, the angles of a hole, and the pipe, worked out
// once.
#[derive(Clone, Copy)]
pub struct MeetCurve {
    pub from: f64,
    pub to: f64,
    pub neutral: f64,
    pub turn: Option<Angles>,
    pub pipe: Pipe,
}

// How fast u and v run, and the point in space: each is refused by itself, by what is met first on
// the way to it. The point is refused up to the cylinder met; its numbers are for the caller to try.
#[derive(Clone, Copy)]
pub struct MeetRates {
    pub u: Result<f64, Refusal>,
    pub v: Result<f64, Refusal>,
    pub q: Result<Vec3, Refusal>,
}

// A point of a piece, and its derivative.
#[derive(Clone, Copy)]
pub struct Place {
    pub p: Vec2,
    pub d: Vec2,
}

// The course along a meet from one end to the other, its pipe worked out.
pub fn meet_curve(m: Meet, ends: Ends) -> Result<MeetCurve, Refusal>
    ensures { told result ≡ answered (meet_curve_c ends.from ends.to ends.neutral m) }
{
    let pipe = pipe(m, ends.neutral)?;
    Ok(MeetCurve {
        from: ends.from.x,
        to: ends.to.x,
        neutral: ends.neutral,
        turn: m.turn,
        pipe,
    })
}

// How fast the angle runs.
pub fn rate(c: MeetCurve) -> f64
    ensures { result ≡ (rate_c c).value }
{
    match c.turn {
        None => (c.to - c.from) / c.neutral,
        Some(a) => a.to - a.from,
    }
}

// The angle at t.
pub fn angle(c: MeetCurve, t: f64) -> f64
    ensures { result ≡ (angle_c c t).value }
{
    match c.turn {
        None => (c.from + (c.to - c.from) * t) / c.neutral,
        Some(a) => a.from * (1.0 - t) + a.to * t,
    }
}

// How fast u runs at t along a hole, how fast v runs, and where the generatrix ends.
#[inline(always)]
fn moved(c: MeetCurve, t: f64) -> MeetRates
    ensures u { told result.u ≡ answered (around_c c t) }
    ensures v { told result.v ≡ answered (slope_v_c c t) }
    ensures q { told result.q ≡ answered (ended_c c t) }
{
    let k = rate(c);
    let phi = angle(c, t);
    let p = c.pipe;
    match finite(phi).and(intersect(p, phi)) {
        Err(e) => {
            // The rate is tried before the angle.
            let r = finite(k).and(Err(e));
            MeetRates {
                u: r,
                v: r,
                q: Err(e),
            }
        }
        Ok(h) => {
            let q = plus(h.p0, times(p.a, h.t));
            match finite(k).and(speed_at(p, h)) {
                Err(e) => MeetRates {
                    u: Err(e),
                    v: Err(e),
                    q: Ok(q),
                },
                Ok(s) => {
                    let dv = (s.d1.z + p.a.z * s.t1) * k;
                    let q1x = s.d1.x + p.a.x * s.t1;
                    let q1y = s.d1.y + p.a.y * s.t1;
                    let r2 = q.x * q.x + q.y * q.y;
                    let du = c.neutral * ((q.x * q1y - q.y * q1x) / r2) * k;
                    MeetRates {
                        u: finite(r2).and(finite(du)),
                        v: finite(dv),
                        q: Ok(q),
                    }
                }
            }
        }
    }
}

// How fast u and v run at t, and where the generatrix ends.
#[inline(always)]
pub fn motion(c: MeetCurve, t: f64) -> MeetRates
    ensures u { told result.u ≡ answered (slope_u_c c t) }
    ensures v { told result.v ≡ answered (slope_v_c c t) }
    ensures q { told result.q ≡ answered (ended_c c t) }
{
    let m = moved(c, t);
    match c.turn {
        None => MeetRates {
            u: finite(c.to - c.from),
            v: m.v,
            q: m.q,
        },
        Some(_) => m,
    }
}

// u of a point in space, within half a turn of the piece's first.
fn near(c: MeetCurve, q: Vec3) -> f64
    ensures { result ≡ (near_c c q).value }
{
    let turn = c.neutral * TAU;
    let u = c.neutral * atan2(q.y, q.x);
    u + turn * round((c.from - u) / turn)
}

// u and v where the generatrix at t ends at q.
#[inline(always)]
pub fn placed(c: MeetCurve, t: f64, q: Vec3) -> Result<Vec2, Refusal>
    ensures { told result ≡ answered (placed_c c t q) }
{
    match c.turn {
        None => {
            let z = finite(q.z)?;
            Ok(Vec2 {
                x: c.from + (c.to - c.from) * t,
                y: z,
            })
        }
        Some(_) => {
            finite3(q)?;
            let u = finite(near(c, q))?;
            Ok(Vec2 { x: u, y: q.z })
        }
    }
}

// The point at t.
#[inline(always)]
pub fn point(c: MeetCurve, t: f64) -> Result<Vec2, Refusal>
    ensures { told result ≡ answered (point_c c t) }
{
    let m = motion(c, t);
    placed(c, t, m.q?)
}

// The point at t, and its derivative.
#[inline(always)]
pub fn at(c: MeetCurve, t: f64) -> Result<Place, Refusal>
    ensures { told result ≡ answered (at_c c t) }
{
    let m = motion(c, t);
    let du = m.u?;
    let dv = m.v?;
    let p = placed(c, t, m.q?)?;
    Ok(Place {
        p,
        d: Vec2 { x: du, y: dv },
    })
}
