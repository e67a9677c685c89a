// The sums of the wall over a piece, on numbers of any size.
ghost use Rattle.std.specs.Prelude.{◌≡◌};
ghost use Rattle.checked.specs.Told.{told};
ghost use Rattle.checked.specs.Checked.{answered};
ghost use Rattle.walls.specs.CutWalls.{node_at_c, wall_c};

use crate::{Strip, node, strip_of};
use checked::Refusal;
use integrals::panels::{Summand, along};
use integrals::{Integrals, SurfaceIntegrals};
use piece_curves::PieceCurve;
use piece_curves::points::at;
use piece_lengths::counts::quadrature_pieces;
use pieces::Rolled;
use pieces::formula::run;
use vectors::Vec3;

// A wall along its piece.
#[derive(Clone, Copy)]
pub struct Wall {
    pub strip: Strip,
    pub run: PieceCurve,
}

impl Summand for Wall {
    ghost added_c = { λ w. node_at_c w.strip w.run };

    // All radii at t.
    fn added(
        &self,
        h: f64,
        wgt: f64,
        t: f64,
        s: SurfaceIntegrals,
    ) -> Result<SurfaceIntegrals, Refusal> {
        let q = at(self.run, t)?;
        node(self.strip, q.p, q.d, h, wgt, s)
    }
}

// The sums of a body with those of the wall over a piece added, from r0 to r1 from the axis.
pub fn over(p: Rolled, r0: f64, r1: f64, o: Vec3, s: Integrals) -> Result<Integrals, Refusal>
    ensures { told result ≡ answered (wall_c p r0 r1 o s) }
{
    let run = run(p)?;
    let n = quadrature_pieces(run)?;
    let strip = strip_of(p.dev, r0, r1, o)?;
    let surface = along(&Wall { strip, run }, n, s.surface)?;
    Ok(Integrals { surface })
}
