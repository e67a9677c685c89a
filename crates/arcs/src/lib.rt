// The arc of an edge: what a program may call. The formulas are in `sweep`, `points`, `extremes`,
// `chords` and `formula`.
#![tactic(auto, using(checked::specs::ToldLaws::exit_is, checked::specs::ToldLaws::passing_number, checked::specs::ToldLaws::passes), unfolding(crate::specs::Entries::reversed_due, crate::specs::Entries::sweep_due, crate::specs::Entries::at_due))]

ghost use Rattle.std.specs.Prelude.{◌≡◌, length};
ghost use Rattle.checked.specs.Told.{told, failed};
ghost use Rattle.checked.specs.Answers.{Lent};
ghost use Rattle.rows.specs.Rows.{Drawn, DrawnPart};
ghost use Rattle.arcs.specs.Entries.{inner_points_due, reversed_due, sweep_due, at_due, extend_due};

use crate::chords::{chord_within, cut_up, write_points};
use crate::points::angle_within;
use crate::sweep::{circle_within, ends_within};
use boxes::Bounds;
use checked::{Refusal, require, require_drawing};
use vectors::Vec3;

pub mod chords;
pub mod extremes;
pub mod formula;
pub mod points;
pub mod sweep;

// An arc counterclockwise about `axis`, a unit vector, around `center`.
#[derive(Clone, Copy)]
pub struct Arc {
    pub center: Vec3,
    pub axis: Vec3,
    pub radius: f64,
}

impl Arc {
    // The same arc run the other way.
    pub fn reversed(self) -> Result<Arc, Refusal>
        ensures { told result ≡ reversed_due self }
    {
        require(circle_within(self), Refusal::OutOfRange)?;
        formula::reversed(self)
    }

    // The angle turned counterclockwise about the axis from one point to another; one point twice
    // is a full circle.
    pub fn sweep(self, from: Vec3, to: Vec3) -> Result<f64, Refusal>
        ensures { told result ≡ sweep_due self from to }
    {
        require(ends_within(self, from, to), Refusal::OutOfRange)?;
        sweep::sweep(self, from, to)
    }

    // The point at the angle t from `from`, counterclockwise about the axis.
    pub fn at(self, from: Vec3, t: f64) -> Result<Vec3, Refusal>
        ensures { told result ≡ at_due self from t }
    {
        require(angle_within(self, from, t), Refusal::OutOfRange)?;
        points::at(self, from, t)
    }

    // The box widened by the arc from one point to another: both ends, and the points extreme along
    // an axis that lie on it.
    #[tactic(auto, using(checked::specs::ToldLaws::exit_is, checked::specs::ToldLaws::passing_number, checked::specs::ToldLaws::passes, checked::specs::TestsLaws::passing_or, boxes::proofs::Laws::call_is), unfolding(crate::specs::Entries::extend_due))]
    pub fn extended(self, from: Vec3, to: Vec3, bounds: Bounds) -> Result<Bounds, Refusal>
        ensures { told result ≡ extend_due self from to bounds }
    {
        require(ends_within(self, from, to), Refusal::OutOfRange)?;
        require(bounds.is_free(), Refusal::BadBoxOrSums)?;
        extremes::extended(self, from, to, bounds)
    }

    // The lent box widened by the arc; a refusal leaves it as it was.
    pub fn extend_bounds(self, from: Vec3, to: Vec3, bounds: &mut Bounds) -> Result<(), Refusal>
        ensures { Lent (extend_due self from to) bounds.old (failed result) bounds.new }
    {
        let widened = self.extended(from, to, *bounds)?;
        *bounds = widened;
        Ok(())
    }

    // The points of the arc from one point to another for drawing, both ends excluded, at most
    // `chord` off it (within 12 to 64 chords a turn): three numbers each from the row's start, and
    // how many they are. A refusal leaves the row as it was.
    pub fn write_inner_points(
        self,
        from: Vec3,
        to: Vec3,
        chord: f64,
        row: &mut [f64],
    ) -> Result<u16, Refusal>
        ensures { Drawn (inner_points_due self from to chord (length row.old)) row.old row.new (told result) }
    {
        require_drawing(chord_within(self, from, to, chord), chord)?;
        let cut = cut_up(self, from, to, chord)?;
        write_points(self, from, cut, row)
    }

    // The same; the answer is the written part of the row.
    pub fn inner_points<'a>(
        self,
        from: Vec3,
        to: Vec3,
        chord: f64,
        row: &'a mut [f64],
    ) -> Result<&'a mut [f64], Refusal>
        ensures { DrawnPart (inner_points_due self from to chord (length row.old)) result }
    {
        let points = self.write_inner_points(from, to, chord, row)?;
        Ok(&mut row[..3 * (points as usize)])
    }
}
