// The direction of a hole's edge in a development, on numbers of any size: along the level line of
// the distance from the pipe's axis.
ghost use Rattle.std.specs.Prelude.{◌≡◌};
ghost use Rattle.checked.specs.Checked.{answered};
ghost use Rattle.checked.specs.Told.{told};
ghost use Rattle.piece_normals.specs.Directions.{gradient_c, facing, side_c};

use checked::{Refusal, finite};
use directions::formula::across;
use libm::sincos::sincos;
use meets::Meet;
use piece_curves::meet_curves;
use piece_curves::meet_curves::MeetCurve;
use vectors::formula::{dot, minus, times};
use vectors::{Vec2, Vec3};

// The gradient at p of half the square of the distance from the pipe's axis, of the point at p on
// the development's own cylinder.
pub fn gradient(m: Meet, n: f64, p: Vec2) -> Result<Vec2, Refusal>
    ensures { told result ≡ answered (gradient_c m.origin m.axis m.own n p) }
{
    let t = sincos(p.x / n)?;
    let x = finite(m.own * t.cos)?;
    let y = finite(m.own * t.sin)?;
    let at = Vec3 { x, y, z: p.y };
    let w = across(m.axis, minus(at, m.origin));
    let around = Vec3 {
        x: -t.sin,
        y: t.cos,
        z: 0.0,
    };
    let g = finite(dot(w, times(around, m.own / n)))?;
    Ok(Vec2 { x: g, y: w.z })
}

// Across the gradient, turned round where the edge runs the other way.
pub fn facing(g: Vec2, side: f64) -> Vec2
    ensures { result ≡ facing g side }
{
    if 0.0 <= side {
        Vec2 { x: -g.y, y: g.x }
    } else {
        Vec2 {
            x: -(-g.y),
            y: -g.x,
        }
    }
}

// Which way the edge runs, by the piece at its middle.
pub fn side(m: Meet, c: MeetCurve) -> Result<f64, Refusal>
    ensures { told result ≡ answered (side_c m.origin m.axis m.own c) }
{
    let middle = meet_curves::at(c, 0.5)?;
    let g = gradient(m, c.neutral, middle.p)?;
    finite(g.x * middle.d.y - g.y * middle.d.x)
}
