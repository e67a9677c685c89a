// The running sums of a face after a path, an arc or a piece of a development. Numbers may be of any
// size.
#![tactic(auto, unfolding(crate::specs::PieceRates::rate_c, crate::specs::Paths::face_path_at))]

ghost use Rattle.std.specs.Prelude.{◌≡◌};
ghost use Rattle.checked.specs.Told.{told};
ghost use Rattle.checked.specs.Checked.{answered};
ghost use Rattle.integrals.specs.Along.{node_at_c};
ghost use Rattle.face_paths.specs.Paths.{face_path_at, with_arc_c, with_piece_c};

use crate::arc_paths::{ArcPath, arc_path_at, arc_path_of};
use crate::piece_paths::{PiecePath, piece_path_at, piece_path_of};
use arcs::Arc;
use checked::Refusal;
use cones::Cone;
use integrals::integrands::{PathPoint, Revolved, node, revolve};
use integrals::panels::{Summand, along};
use integrals::{Integrals, SurfaceIntegrals};
use piece_lengths::counts::quadrature_pieces;
use pieces::Rolled;
use pieces::formula::run;
use vectors::Vec3;

pub mod arc_paths;
pub mod piece_paths;
pub mod piece_rates;

// A path as its integral runs along it.
#[derive(Clone, Copy)]
pub enum FacePath {
    Arc(ArcPath),
    Piece(PiecePath),
}

// A path on its surface.
#[derive(Clone, Copy)]
pub struct Outline {
    pub surface: Revolved,
    pub path: FacePath,
}

// Where the path is at t.
fn place_at(k: FacePath, t: f64) -> Result<PathPoint, Refusal>
    ensures { told result ≡ answered (face_path_at k t) }
{
    match k {
        FacePath::Arc(c) => arc_path_at(c, t),
        FacePath::Piece(d) => piece_path_at(d, t),
    }
}

impl Summand for Outline {
    ghost added_c = { λ k. node_at_c k.surface (face_path_at k.path) };

    fn added(
        &self,
        h: f64,
        wgt: f64,
        t: f64,
        s: SurfaceIntegrals,
    ) -> Result<SurfaceIntegrals, Refusal> {
        let p = place_at(self.path, t)?;
        node(self.surface, p, h, wgt, s)
    }
}

// The running sums after the arc from u to v.
pub fn with_arc(
    cone: Cone,
    o: Vec3,
    arc: Arc,
    u: Vec3,
    v: Vec3,
    sums: Integrals,
) -> Result<Integrals, Refusal>
    ensures { told result ≡ answered (with_arc_c cone o arc u v sums) }
{
    let surface = revolve(cone, o)?;
    let d = arc_path_of(surface.frame, arc, u, v)?;
    let path = FacePath::Arc(d);
    let after = along(&Outline { surface, path }, d.stretches, sums.surface)?;
    Ok(Integrals { surface: after })
}

// The running sums after a piece of a development.
pub fn with_piece(cone: Cone, o: Vec3, p: Rolled, sums: Integrals) -> Result<Integrals, Refusal>
    ensures { told result ≡ answered (with_piece_c cone o p sums) }
{
    let surface = revolve(cone, o)?;
    let d = piece_path_of(surface.frame, p.dev, run(p))?;
    let n = quadrature_pieces(d.run)?;
    let path = FacePath::Piece(d);
    let after = along(&Outline { surface, path }, n, sums.surface)?;
    Ok(Integrals { surface: after })
}
