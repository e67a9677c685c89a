// The points of an arc or a curve, drawn to a row: the written part is the line's, and the rest of the row keeps what it held, all of it
// where the call is refused.
ghost use Rattle.std.specs.Prelude.{◌≤◌};

use answer_lines::pattern;
use exports::of_arcs::jr_arc_inner_points;
use exports::of_curves::jr_curve_inner_points;
use replay_lines::answers::{HELD, HELD_COUNT, are_numbers, is_due};
use replay_lines::inputs::{number, numbers, tag};

// The longest row of most lines. The few longer ones are lent from an array that is filled for them alone.
const ROW: usize = 900;

// Far more than the longest curve asks for: how long a row is does not fit 16 bits.
const LONG_ROW: usize = 200000;

// After so many inputs: how many numbers are written, then these.
fn is_row(line: &[u8], inputs: u8, answer: u32, row: &[f64], written: u64) -> bool {
    let first = inputs as usize;
    let n = written as usize;
    if answer == 0 {
        (n <= row.len())
            & is_due(line, 0, (first + 1).wrapping_add(n))
            & (pattern(line, first) == written)
            & are_numbers(line, first + 1, n, false, row)
    } else {
        is_due(line, answer, first)
            & (written == HELD_COUNT)
            & are_numbers(line, first, 0, false, row)
    }
}

// A row of so many numbers, at most N, is lent and drawn to.
fn is_drawn_in<const N: usize, F: Fn(&mut [f64]) -> bool>(n: u64, is_drawn: F) -> bool
    requires room { N ≤ 200000 }
    requires drawn { F.IsAlwaysCallable is_drawn }
{
    let mut row = [HELD; N];
    match row.get_mut(..n as usize) {
        Some(part) => is_drawn(part),
        None => false,
    }
}

fn is_drawn_to<F: Fn(&mut [f64]) -> bool>(n: u64, is_drawn: F) -> bool
    requires { F.IsAlwaysCallable is_drawn }
{
    if n <= ROW as u64 {
        is_drawn_in::<ROW, F>(n, is_drawn)
    } else {
        is_drawn_in::<LONG_ROW, F>(n, is_drawn)
    }
}

// The row's length stands before what is written.
pub(crate) fn arc(line: &[u8]) -> bool {
    is_drawn_to(pattern(line, 14), |row: &mut [f64]| {
        let mut written = [HELD_COUNT; 1];
        let r = jr_arc_inner_points(
            &numbers(line, 0),
            &numbers(line, 7),
            &numbers(line, 10),
            number(line, 13),
            &mut *row,
            &mut written,
        );
        is_row(line, 15, r, row, written[0])
    })
}

pub(crate) fn curve(line: &[u8]) -> bool {
    is_drawn_to(pattern(line, 37), |row: &mut [f64]| {
        let mut written = [HELD_COUNT; 1];
        let r = jr_curve_inner_points(
            &numbers(line, 0),
            tag(line, 27),
            tag(line, 28),
            tag(line, 29),
            &numbers(line, 30),
            &numbers(line, 33),
            number(line, 36),
            &mut *row,
            &mut written,
        );
        is_row(line, 38, r, row, written[0])
    })
}
