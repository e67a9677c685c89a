// Runs the well-known values of data/values.txt: each result may be one step from the f64 nearest
// to the true value. A line whose result is farther off is named.
#![tactic(auto)]

use answer_lines::{operation, pattern};
use libm::{atan2, roots, sincos};
use std::os::unix::fs::FileExt;
use std::{fs, io};

// More lines than the file has.
const MOST: u32 = 1_000_000;

// The longest line, its newline with it. A longer one ends the list, as does one that no newline ends.
const LONGEST: usize = 4096;

// How many lines came out how.
#[derive(Clone, Copy)]
struct Tally {
    near: u64,
    off: u64,
}

impl Tally {
    fn count(&mut self, is_near: bool) {
        if is_near {
            self.near = self.near.saturating_add(1);
        } else {
            self.off = self.off.saturating_add(1);
        }
    }
}

// The result is at most one step from number k of the line.
fn is_near(line: &[u8], k: usize, got: f64) -> bool {
    let due = pattern(line, k);
    let bits = checked::bits(got);
    (bits == due) | (bits.wrapping_add(1) == due) | (due.wrapping_add(1) == bits)
}

// The sine by both functions that give it, and the cosine.
fn are_sines_near(line: &[u8], x: f64) -> bool {
    match (sincos::sin(x), sincos::sincos(x)) {
        (Ok(sin), Ok(both)) => {
            is_near(line, 1, sin) & is_near(line, 1, both.sin) & is_near(line, 2, both.cos)
        }
        _ => false,
    }
}

fn is_known(line: &[u8]) -> bool {
    let x = checked::of_bits(pattern(line, 0));
    let y = checked::of_bits(pattern(line, 1));
    match operation(line) {
        5 => are_sines_near(line, x),
        6 => is_near(line, 2, atan2::atan2(x, y)),
        7 => is_near(line, 1, roots::acos(x)),
        8 => is_near(line, 2, roots::hypot(x, y)),
        _ => false,
    }
}

// A line that holds no value: empty, or a comment.
fn is_comment(line: &[u8]) -> bool {
    matches!(line.first(), None | Some(b'#'))
}

fn main(rt: HostRuntime) -> io::Result<()> {
    let file = fs::open(&rt, "values.txt")?;
    let mut tally = Tally { near: 0, off: 0 };
    let mut buf = [0; LONGEST];
    let mut at = 0u64;
    for k in 1..=MOST {
        let n = file.read_at(&mut buf, at)?;
        let Some(end) = buf[..n].iter().position(|b| *b == b'\n') else {
            break;
        };
        at = at.saturating_add(end as u64 + 1);
        let line = &buf[..end];
        if is_comment(line) {
            continue;
        }
        let is_near = is_known(line);
        if !is_near {
            println!(rt; "off at line {k}")?;
        }
        tally.count(is_near);
    }
    println!(rt; "{} lines within 1 ulp, {} off", tally.near, tally.off)
}
