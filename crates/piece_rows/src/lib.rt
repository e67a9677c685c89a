// The inner points of a piece of a development, written to a lent row. Numbers may be of any size.
#![tactic(auto)]

ghost use Rattle.std.specs.Prelude.{◌≡◌, length};
ghost use Rattle.checked.specs.Checked.{answered};
ghost use Rattle.checked.specs.Told.{told};
ghost use Rattle.rows.specs.Rows.{Drawn};
ghost use Rattle.piece_rows.specs.Inner.{inner_c, inners_due};

use checked::{Refusal, finite};
use piece_curves::space_points::{Rolling, rolled_point};
use rows::write;
use vectors::Vec3;

// The point k of n.
#[inline(always)]
fn point_at(g: Rolling, n: u16, k: u16) -> Result<Vec3, Refusal>
    ensures { told result ≡ answered (inner_c g n k) }
{
    let t = finite((k as f64) / (n as f64))?;
    rolled_point(g, t)
}

// The inner points of a piece that is cut into n chords, written from the row's start, and how many
// they are.
pub fn write_points(g: Rolling, n: u16, row: &mut [f64]) -> Result<u16, Refusal>
    ensures { Drawn (inners_due g n (length row.old)) row.old row.new (told result) }
{
    write(row, n.saturating_sub(1), |k| point_at(g, n, k))
}
