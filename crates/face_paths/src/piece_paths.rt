// A piece of a development as a path on a cylinder. Numbers may be of any size.
ghost use Rattle.std.specs.Prelude.{◌≡◌};
ghost use Rattle.checked.specs.Checked.{Checked, answered};
ghost use Rattle.checked.specs.Told.{told};
ghost use Rattle.piece_curves.specs.declared.PieceCurve.{PieceCurve};
ghost use Rattle.face_paths.specs.PiecePaths.{piece_path_of_c, piece_path_at};

use crate::piece_rates::rate_at;
use checked::{Refusal, finite};
use cones::Frame;
use developments::Development;
use integrals::integrands::PathPoint;
use integrals::side;
use piece_curves::PieceCurve;
use profile_arcs::angles::angle;
use vectors::formula::{dot, minus};

// A piece on a cylinder: the angle where its development starts, which way its u turns, and where
// its development's origin lies along the axis.
#[derive(Clone, Copy)]
pub struct PiecePath {
    pub run: PieceCurve,
    pub start: f64,
    pub side: f64,
    pub z: f64,
}

// The path of a piece of a development, which its run follows.
pub fn piece_path_of(
    f: Frame,
    dev: Development,
    run: Result<PieceCurve, Refusal>,
) -> Result<PiecePath, Refusal>
    ensures { (piece : Checked PieceCurve) → told run ≡ answered piece → told result ≡ answered (piece_path_of_c f dev.origin dev.axis dev.start piece) }
{
    let d = finite(dot(dev.axis, f.axis))?;
    let start = angle(dot(dev.start, f.e2), dot(dev.start, f.e1))?;
    let z = finite(dot(minus(dev.origin, f.origin), f.axis))?;
    let run = run?;
    Ok(PiecePath {
        run,
        start,
        side: side(d),
        z,
    })
}

// Where the piece is at t, from 0 at its first end to 1 at its last.
pub fn piece_path_at(c: PiecePath, t: f64) -> Result<PathPoint, Refusal>
    ensures { told result ≡ answered (piece_path_at c t) }
{
    let n = c.run.ends.neutral;
    let g = rate_at(c.run, t)?;
    let theta = finite(c.start + c.side * g.u / n)?;
    let z = finite(c.z + c.side * g.v)?;
    let turn = finite(c.side * g.du / n)?;
    Ok(PathPoint { theta, z, turn })
}
