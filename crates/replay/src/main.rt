// Runs two lists against the port, the Rust's answers and cases worked out by hand: one line for each operation, and one for each call
// whose answer is another.
#![tactic(auto)]

use std::fs::File;
use std::os::unix::fs::FileExt;
use std::{fs, io};

mod calls;
mod of_arcs;
mod of_curves;
mod of_developments;
mod of_frames;
mod of_motions;
mod of_numbers;
mod of_pieces;
mod of_rows;
mod of_sums;
mod of_surfaces;
mod of_traces;
mod of_vectors;

// How many calls came out how.
#[derive(Clone, Copy)]
struct Tally {
    alike: u64,
    different: u64,
}

// The operation in hand, by number and name, its calls, and all that were run. The number of none is 0.
#[derive(Clone, Copy)]
struct Progress {
    operation: u64,
    name: &'static str,
    here: Tally,
    all: Tally,
}

// More lines than a list has.
const MOST: u32 = 1_000_000;

// The longest line, its newline with it.
const LONGEST: usize = 4096;

impl Tally {
    const NONE: Self = Self {
        alike: 0,
        different: 0,
    };

    fn count(&mut self, is_alike: bool) {
        if is_alike {
            self.alike = self.alike.saturating_add(1);
        } else {
            self.different = self.different.saturating_add(1);
        }
    }

    fn print(&self, rt: &impl Print, name: &str) -> io::Result<()> {
        println!(rt; "{name} {} alike, {} different", self.alike, self.different)
    }
}

impl Progress {
    const NONE: Self = Self {
        operation: 0,
        name: "",
        here: Tally::NONE,
        all: Tally::NONE,
    };

    // The line of the operation in hand, where there is one.
    fn print(&self, rt: &impl Print) -> io::Result<()> {
        if self.operation > 0 {
            self.here.print(rt, self.name)?;
        }
        Ok(())
    }

    // On to a line's operation: the one before is printed where that was another.
    fn turn(&mut self, rt: &impl Print, operation: u64, name: &'static str) -> io::Result<()> {
        if operation != self.operation {
            self.print(rt)?;
            *self = Self {
                operation,
                name,
                here: Tally::NONE,
                all: self.all,
            };
        }
        Ok(())
    }

    // The call on line k.
    fn step(&mut self, rt: &impl Print, k: u32, line: &[u8]) -> io::Result<()> {
        let operation = answer_lines::operation(line);
        let (name, is_alike) = calls::run(operation, line);
        self.turn(rt, operation, name)?;
        if !is_alike {
            println!(rt; "different at line {k}")?;
        }
        self.here.count(is_alike);
        self.all.count(is_alike);
        Ok(())
    }
}

// A line that is no call: empty, or a comment.
fn is_comment(line: &[u8]) -> bool {
    matches!(line.first(), None | Some(b'#'))
}

// The list is over where no byte is left. A line whose newline does not come within the longest one's bytes, or not at all, is told:
// what follows is not run.
fn replay(rt: &impl Print, list: &File) -> io::Result<()> {
    let mut p = Progress::NONE;
    let mut buf = [0; LONGEST];
    let mut at = 0u64;
    for k in 1..=MOST {
        let n = list.read_at(&mut buf, at)?;
        let Some(end) = buf[..n].iter().position(|b| *b == b'\n') else {
            if n > 0 {
                println!(rt; "no end in {LONGEST} bytes of line {k}")?;
            }
            break;
        };
        at = at.saturating_add(end as u64 + 1);
        let line = &buf[..end];
        if !is_comment(line) {
            p.step(rt, k, line)?;
        }
    }
    p.print(rt)?;
    p.all.print(rt, "all")
}

fn main(rt: HostRuntime) -> io::Result<()> {
    replay(&rt, &fs::open(&rt, "answers.txt")?)?;
    replay(&rt, &fs::open(&rt, "trials.txt")?)
}
