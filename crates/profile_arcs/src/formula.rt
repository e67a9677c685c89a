// The formulas on numbers of any size.
ghost use Rattle.std.specs.Prelude.{◌≡◌, cond};
ghost use Rattle.checked.specs.Checked.{answered};
ghost use Rattle.checked.specs.Told.{told};
ghost use Rattle.profile_arcs.specs.Angles.{ahead_c, back_c};
ghost use Rattle.profile_arcs.specs.Profiles.{apart_c, turn_c};

use crate::ProfileArc;
use crate::angles::{ahead, angle, back};
use checked::{Refusal, finite};
use vectors::Vec2;

// b - a
#[tactic(auto, unfolding(crate::specs::Profiles::apart_c))]
fn apart(a: Vec2, b: Vec2) -> Vec2
    ensures { result ≡ (apart_c a b).value }
{
    Vec2 {
        x: b.x - a.x,
        y: b.y - a.y,
    }
}

// The turn of an angle, counterclockwise or clockwise.
fn turned(ccw: bool, t: f64) -> f64
    ensures { result ≡ (cond ccw (ahead_c t) (back_c t)).value }
{
    if ccw { ahead(t) } else { back(t) }
}

pub fn turn(arc: ProfileArc, a: Vec2, b: Vec2) -> Result<f64, Refusal>
    ensures { told result ≡ answered (turn_c arc a b) }
{
    let c = arc.center;
    let u = apart(c, a);
    let v = apart(c, b);
    let y = u.x * v.y - u.y * v.x;
    let x = u.x * v.x + u.y * v.y;
    let t = angle(y, x)?;
    finite(turned(arc.ccw, t))
}
