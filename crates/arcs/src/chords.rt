// An arc's points for drawing, on numbers of any size: how it is cut, and its inner points written
// to a lent row.
ghost use Rattle.std.specs.Prelude.{◌≡◌, length};
ghost use Rattle.checked.specs.Checked.{answered};
ghost use Rattle.checked.specs.Told.{told};
ghost use Rattle.checked.specs.Answers.{and_then};
ghost use Rattle.rows.specs.Rows.{Drawn};
ghost use Rattle.rows.specs.Circles.{circle_at_c};
ghost use Rattle.arcs.specs.Chords.{chord_within, cut_c, inners_due};

use crate::Arc;
use crate::points::rim;
use crate::sweep::{ends_within, sweep};
use checked::{Refusal, TAU, finite, is_within};
use chord_counts::counts::{MOST, count};
use chord_counts::formula::per_turn;
use rows::circles::point_at;
use rows::write;
use vectors::Vec3;

// An arc's sweep, and into how many chords it is cut.
#[derive(Clone, Copy)]
pub struct Cut {
    pub turn: f64,
    pub chords: u16,
}

// Every number of an arc, of its ends and of a chord passes the test of what is handed in.
#[tactic(auto, unfolding(crate::specs::Chords::chord_within))]
pub fn chord_within(arc: Arc, from: Vec3, to: Vec3, chord: f64) -> bool
    ensures { result ≡ chord_within arc.center arc.axis arc.radius from to chord }
{
    ends_within(arc, from, to) & is_within(chord)
}

pub fn cut_up(arc: Arc, from: Vec3, to: Vec3, chord: f64) -> Result<Cut, Refusal>
    ensures { told result ≡ answered (cut_c arc.center arc.axis arc.radius from to chord) }
{
    let turn = sweep(arc, from, to)?;
    let h = finite(turn / TAU)?;
    let p = per_turn(arc.radius, chord)?;
    let chords = count(h * p, 1.0, MOST)?;
    Ok(Cut { turn, chords })
}

// The inner points of a cut arc, written from the row's start.
pub fn write_points(arc: Arc, from: Vec3, cut: Cut, row: &mut [f64]) -> Result<u16, Refusal>
    ensures { Drawn (inners_due arc.center arc.axis arc.radius from cut (length row.old)) row.old row.new (told result) }
{
    let rim = rim(arc, from);
    write(
        row,
        cut.chords.saturating_sub(1),
        |k|
            ensures { told result ≡ and_then (told rim) (λ r. answered (circle_at_c r cut.turn cut.chords k)) }
        { point_at(rim?, cut.turn, cut.chords, k) },
    )
}
