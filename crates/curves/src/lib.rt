// A curve in space: what a program may call is here, the formulas that choose between arc and piece in `formula`.
#![tactic(auto, unfolding(crate::specs::Drawn::inner_points_due, crate::specs::Curves::arc_of, crate::specs::Entries::arc_due, crate::specs::Entries::reversed_due), using(checked::specs::ToldLaws::passes))]

ghost use Rattle.std.specs.Prelude.{◌≡◌};
ghost use Rattle.checked.specs.Told.{told, failed};
ghost use Rattle.checked.specs.Answers.{Lent};
ghost use Rattle.curves.specs.Entries.{tests, reversed_due, moved_due, arc_due, extend_due};

use crate::parts::with_piece;
use arcs::sweep::circle_within;
use arcs::{Arc, extremes};
use boxes::Bounds;
use checked::{Refusal, is_within, require};
use motions::{Rigid, is_within_rigid};
use pieces::Rolled;
use vectors::{Vec3, is_within3};

pub mod drawn;
pub mod formula;
pub mod parts;

// A piece of a development at `radius` from its axis.
#[derive(Clone, Copy)]
pub struct RolledAt {
    pub piece: Rolled,
    pub radius: f64,
}

#[derive(Clone, Copy)]
pub enum Curve {
    Arc(Arc),
    Rolled(RolledAt),
}

impl Curve {
    // The refusal of the test that the curve fails first, where it fails one. Inlined, since a call
    // copies the curve.
    #[inline(always)]
    pub fn tried(self) -> Result<(), Refusal>
        ensures { failed result ≡ tests self }
    {
        match self {
            Curve::Arc(a) => require(circle_within(a), Refusal::OutOfRange),
            Curve::Rolled(w) => {
                require(is_within(w.radius), Refusal::OutOfRange)?;
                w.piece.tried()
            }
        }
    }

    // The same curve run the other way.
    #[inline(always)]
    pub fn reversed(self) -> Result<Curve, Refusal>
        ensures { told result ≡ reversed_due self }
    {
        self.tried()?;
        formula::reversed(self)
    }

    // The same curve moved by m.
    #[inline(always)]
    pub fn moved(self, m: Rigid) -> Result<Curve, Refusal>
        ensures { told result ≡ moved_due self m }
    {
        require(is_within_rigid(m), Refusal::OutOfRange)?;
        self.tried()?;
        formula::moved(self, m)
    }

    // The arc that the curve is, where it is one.
    #[inline(always)]
    pub fn arc(self) -> Result<Option<Arc>, Refusal>
        ensures { told result ≡ arc_due self }
    {
        self.tried()?;
        match self {
            Curve::Arc(a) => Ok(Some(a)),
            Curve::Rolled(_) => Ok(None),
        }
    }

    // The box widened by the curve from one point to another; a piece has its own ends.
    pub fn extended(self, from: Vec3, to: Vec3, bounds: Bounds) -> Result<Bounds, Refusal>
        ensures { told result ≡ extend_due self from to bounds }
    {
        require(is_within3(from) & is_within3(to), Refusal::OutOfRange)?;
        self.tried()?;
        require(bounds.is_free(), Refusal::BadBoxOrSums)?;
        match self {
            Curve::Arc(a) => extremes::extended(a, from, to, bounds),
            Curve::Rolled(w) => with_piece(w.piece, w.radius, bounds),
        }
    }

    // The lent box widened by the curve; a refusal leaves it as it was.
    pub fn extend_bounds(self, from: Vec3, to: Vec3, bounds: &mut Bounds) -> Result<(), Refusal>
        ensures { Lent (extend_due self from to) bounds.old (failed result) bounds.new }
    {
        *bounds = self.extended(from, to, *bounds)?;
        Ok(())
    }
}
