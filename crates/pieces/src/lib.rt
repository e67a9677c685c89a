// A piece of a development: what a program may call is here, what others build on is in `formula`.
#![tactic(auto, unfolding(crate::specs::Pieces::run_c, crate::specs::Pieces::back, crate::specs::Entries::piece_within, crate::specs::Reversals::curve_back))]

ghost use Rattle.std.specs.Prelude.{◌≡◌};
ghost use Rattle.checked.specs.Told.{told, failed};
ghost use Rattle.pieces.specs.Entries.{piece_within, tests, at_due, second_due, reversed_due, measure_due, quadrature_due, chords_due, polyline_due, uv_box_due, normal_due};
ghost use Rattle.developments.specs.Developments.{development_within};

use crate::formula::run;
use crate::parts::{are_both, is_arc_within, is_trace_within};
use checked::{Refusal, is_within, require, require_chord, require_neutral};
use developments::Development;
use piece_boxes::brackets::FlatBox;
use piece_boxes::curve_boxes::uv_box;
use piece_curves::meet_curves::Place;
use piece_lengths::counts::{chords_of, polyline_of, quadrature_pieces};
use piece_lengths::measures::Measure;
use piece_lengths::second_derivatives::second;
use profile_arcs::ProfileArc;
use traces::Trace;
use vectors::{Vec2, Vec3, is_within2};

pub mod formula;
pub mod parts;

// A segment, an arc or a trace of a development, from `from` to `to`; never an arc and a trace.
#[derive(Clone, Copy)]
pub struct Rolled {
    pub dev: Development,
    pub from: Vec2,
    pub to: Vec2,
    pub arc: Option<ProfileArc>,
    pub trace: Option<Trace>,
}

// All numbers of a development pass the test of what is handed in. They are tried two by two as they
// stand in memory: read across the pairs in which they were stored they would have to wait for that.
fn is_development_within(d: Development) -> bool
    ensures { result ≡ development_within d }
{
    (is_within(d.origin.x) & is_within(d.origin.y))
        & ((is_within(d.origin.z) & is_within(d.axis.x))
            & ((is_within(d.axis.y) & is_within(d.axis.z))
                & ((is_within(d.start.x) & is_within(d.start.y))
                    & (is_within(d.start.z) & is_within(d.neutral)))))
}

impl Rolled {
    // All numbers of the piece pass the test of what is handed in.
    #[inline(always)]
    pub fn is_within_limit(self) -> bool
        ensures { result ≡ piece_within self }
    {
        is_development_within(self.dev)
            & (is_within2(self.from)
                & (is_within2(self.to) & (is_arc_within(self.arc) & is_trace_within(self.trace))))
    }

    // The refusal of the test that the piece fails first, where it fails one. Inlined, since a call
    // copies the piece.
    #[inline(always)]
    pub fn tried(self) -> Result<(), Refusal>
        ensures { failed result ≡ tests self }
    {
        require(self.is_within_limit(), Refusal::OutOfRange)?;
        let neutral = require_neutral(self.dev.neutral);
        let one_kind = require(!are_both(self.arc, self.trace), Refusal::ArcAndTrace);
        neutral.and(one_kind)
    }

    // The point at t, from 0 at `from` to 1 at `to`, and its derivative in t.
    pub fn at(self, t: f64) -> Result<Place, Refusal>
        ensures { told result ≡ at_due self t }
    {
        require(is_within(t), Refusal::OutOfRange)?;
        self.tried()?;
        formula::at(self, t)
    }

    // The second derivative in t of `at`.
    pub fn second(self, t: f64) -> Result<Vec2, Refusal>
        ensures { told result ≡ second_due self t }
    {
        require(is_within(t), Refusal::OutOfRange)?;
        self.tried()?;
        second(run(self)?, t)
    }

    // The same piece run the other way.
    pub fn reversed(self) -> Result<Rolled, Refusal>
        ensures { told result ≡ reversed_due self }
    {
        self.tried()?;
        Ok(formula::reversed(self))
    }

    // The radius of the arc (0 for others), the angle that the piece turns and its length.
    pub fn measure(self) -> Result<Measure, Refusal>
        ensures { told result ≡ measure_due self }
    {
        self.tried()?;
        formula::measure(self)
    }

    // Pieces to integrate over: at most 45° each, in the development and about the axis.
    pub fn quadrature_pieces(self) -> Result<u16, Refusal>
        ensures { told result ≡ quadrature_due self }
    {
        self.tried()?;
        quadrature_pieces(run(self)?)
    }

    // Chords for drawing the piece at `radius` from the axis, each at most `chord` off.
    pub fn chords(self, radius: f64, chord: f64) -> Result<u16, Refusal>
        ensures { told result ≡ chords_due self radius chord }
    {
        require(is_within(radius) & is_within(chord), Refusal::OutOfRange)?;
        self.tried()?;
        require_chord(chord)?;
        chords_of(run(self)?, radius, chord)
    }

    // Chords of a polyline through the piece in its development, each at most `deviation` off it: 1
    // without a trace, at least 2 with one.
    pub fn polyline(self, deviation: f64) -> Result<u16, Refusal>
        ensures { told result ≡ polyline_due self deviation }
    {
        require(is_within(deviation), Refusal::OutOfRange)?;
        self.tried()?;
        require(0.0 < deviation, Refusal::BadTolerance)?;
        polyline_of(run(self)?, deviation)
    }

    // The least and greatest u and v; of an arc those of the whole circle.
    pub fn uv_box(self) -> Result<FlatBox, Refusal>
        ensures { told result ≡ uv_box_due self }
    {
        self.tried()?;
        uv_box(run(self)?)
    }

    // The unit normal at q of the wall over the piece, r from the axis: left of the piece's
    // direction.
    pub fn normal(self, q: Vec2, r: f64) -> Result<Vec3, Refusal>
        ensures { told result ≡ normal_due self q r }
    {
        require(is_within2(q) & is_within(r), Refusal::OutOfRange)?;
        self.tried()?;
        formula::normal(self, q, r)
    }
}
