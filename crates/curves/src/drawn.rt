// The points of a curve for drawing, written to a lent row: the Rust's `Curve::inner_points`. These
// are functions of a curve and no methods, since a method must stand in its type's crate.
ghost use Rattle.std.specs.Prelude.{◌≡◌, length};
ghost use Rattle.checked.specs.Checked.{answered};
ghost use Rattle.checked.specs.Told.{told, failed};
ghost use Rattle.rows.specs.Rows.{Drawn, DrawnPart};
ghost use Rattle.piece_lengths.specs.Counts.{chords_c};
ghost use Rattle.curves.specs.Drawn.{tests, piece_due, inner_points_due};

use crate::{Curve, RolledAt};
use checked::{Refusal, is_within, require, require_chord};
use chord_counts::counts::MOST;
use piece_curves::space_points::Rolling;
use piece_lengths::counts::chords_of;
use piece_rows::write_points;
use pieces::formula::run;
use vectors::{Vec3, is_within3};

// The longest row that drawing a curve can ask for: three numbers for each point, one point fewer than
// chords.
pub const CURVE_ROW: usize = 3 * (MOST as usize - 1);

// The refusal of the test of what is handed in that fails first, where one fails.
fn tried(w: RolledAt, from: Vec3, to: Vec3, chord: f64) -> Result<(), Refusal>
    ensures { failed result ≡ tests w from to chord }
{
    require(
        is_within(w.radius) & (is_within3(from) & (is_within3(to) & is_within(chord))),
        Refusal::OutOfRange,
    )?;
    w.piece.tried()?;
    require_chord(chord)
}

// Into how many chords a piece is cut that is ready to be drawn.
#[inline(always)]
fn chords(g: Rolling, chord: f64) -> Result<u16, Refusal>
    ensures { told result ≡ answered (chords_c g.run g.radius chord) }
{
    chords_of(g.run, g.radius, chord)
}

// The points of a piece.
fn write_piece(
    w: RolledAt,
    from: Vec3,
    to: Vec3,
    chord: f64,
    row: &mut [f64],
) -> Result<u16, Refusal>
    ensures { Drawn (piece_due w from to chord (length row.old)) row.old row.new (told result) }
{
    tried(w, from, to, chord)?;
    let run = run(w.piece)?;
    let g = Rolling {
        dev: w.piece.dev,
        radius: w.radius,
        run,
    };
    let n = chords(g, chord)?;
    write_points(g, n, row)
}

// The points of the curve from one point to another for drawing, both ends excluded, at most
// `chord` off it: three numbers each from the row's start. A piece has its own ends. The answer is
// how many points are written; a refusal leaves the row as it was.
pub fn write_inner_points(
    c: Curve,
    from: Vec3,
    to: Vec3,
    chord: f64,
    row: &mut [f64],
) -> Result<u16, Refusal>
    ensures { Drawn (inner_points_due c from to chord (length row.old)) row.old row.new (told result) }
{
    match c {
        Curve::Arc(a) => a.write_inner_points(from, to, chord, row),
        Curve::Rolled(w) => write_piece(w, from, to, chord, row),
    }
}

// The same; the answer is the written part of the row.
pub fn inner_points<'a>(
    c: Curve,
    from: Vec3,
    to: Vec3,
    chord: f64,
    row: &'a mut [f64],
) -> Result<&'a mut [f64], Refusal>
    ensures { DrawnPart (inner_points_due c from to chord (length row.old)) result }
{
    let n = write_inner_points(c, from, to, chord, row)?;
    Ok(&mut row[..3 * (n as usize)])
}
