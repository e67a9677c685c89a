// Points written to a lent row, three numbers each, once the last of them is settled.
//
// Whoever draws hands in a closure that gives the point k, and says by a definition what it gives
// (`Gives` in specs/Rows.antt). Up to KEPT points are worked out once, into a buffer that is copied
// to the row; more of them are worked out twice. `circles` has the points of a circle.
//
// Definitions and laws are those of items of any width (`Item` in specs/Rows.antt); a point is one
// of three numbers.
#![tactic(auto)]

ghost use Rattle.std.specs.Prelude.{◌≡◌, ℕ, ◌+◌, ◌*◌, ◌≤◌, length};
ghost use Rattle.checked.specs.Checked.{Checked, answered};
ghost use Rattle.checked.specs.Told.{told, failed};
ghost use Rattle.vectors.specs.declared.Vec3.{Vec3};
ghost use Rattle.rows.specs.Rows.{up_to, placed, fits, Gives, Kept, Stored, Drawn};

use checked::{Refusal, require};
use vectors::Vec3;

pub mod circles;

// The most points that are kept until the last of them is settled; an arc is hardly ever cut into
// more.
pub const KEPT: u16 = 64;

// The point p, behind the first i of a buffer.
pub fn put(buf: &mut [f64], i: u16, p: Vec3)
    requires { 3 * i + 3 ≤ length buf.old }
    ensures { buf.new ≡ placed i p buf.old }
{
    let at = 3 * (i as usize);
    buf[at] = p.x;
    buf[at + 1] = p.y;
    buf[at + 2] = p.z;
}

// Whether the points 1 to m meet a refusal, and which one first.
fn settle<F: Fn(u16) -> Result<Vec3, Refusal>>(m: u16, point: &F) -> Result<(), Refusal>
    requires { F.IsAlwaysCallable point.now }
    ensures { (f : ℕ → Checked Vec3) → Gives (F.post point.now) f → failed result ≡ (up_to f m).refusal }
{
    for i in 0..m {
        point(i + 1)?;
    }
    Ok(())
}

// The points 1 to m, worked out into the start of a buffer, or the refusal that they meet first.
fn work_out<F: Fn(u16) -> Result<Vec3, Refusal>>(
    buf: &mut [f64],
    m: u16,
    point: &F,
) -> Result<(), Refusal>
    requires callable { F.IsAlwaysCallable point.now }
    requires fits { 3 * m ≤ length buf.old }
    ensures { (f : ℕ → Checked Vec3) → Gives (F.post point.now) f → Kept f m buf.old buf.new (failed result) }
{
    for i in 0..m {
        let p = point(i + 1)?;
        put(buf, i, p);
    }
    Ok(())
}

fn write_kept<F: Fn(u16) -> Result<Vec3, Refusal>>(
    row: &mut [f64],
    m: u16,
    point: &F,
) -> Result<(), Refusal>
    requires callable { F.IsAlwaysCallable point.now }
    requires fits_row { 3 * m ≤ length row.old }
    requires few { m ≤ 64 }
    ensures { (f : ℕ → Checked Vec3) → Gives (F.post point.now) f → Stored f m row.old row.new (failed result) }
{
    let mut buf = [0.0; 192];
    work_out(&mut buf, m, point)?;
    let n = 3 * (m as usize);
    row[..n].copy_from_slice(&buf[..n]);
    Ok(())
}

// Any number of points: they are worked out twice, since nothing is written before the last of them
// is settled.
fn write_twice<F: Fn(u16) -> Result<Vec3, Refusal>>(
    row: &mut [f64],
    m: u16,
    point: &F,
) -> Result<(), Refusal>
    requires callable { F.IsAlwaysCallable point.now }
    requires fits_row { 3 * m ≤ length row.old }
    ensures { (f : ℕ → Checked Vec3) → Gives (F.post point.now) f → Stored f m row.old row.new (failed result) }
{
    settle(m, point)?;
    work_out(row, m, point)
}

// Writes the points 1 to m and answers how many they are; a refusal leaves the row as it was.
pub fn write<F: Fn(u16) -> Result<Vec3, Refusal>>(
    row: &mut [f64],
    m: u16,
    point: F,
) -> Result<u16, Refusal>
    requires { F.IsAlwaysCallable point }
    ensures { (f : ℕ → Checked Vec3) → Gives (F.post point) f → Drawn (fits (length row.old) m (answered (up_to f m))) row.old row.new (told result) }
{
    require(3 * (m as usize) <= row.len(), Refusal::RowTooShort)?;
    if (m > 0) & (m <= KEPT) {
        write_kept(row, m, &point)?;
    } else {
        write_twice(row, m, &point)?;
    }
    Ok(m)
}
