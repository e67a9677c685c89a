// An answer compared with what a line has after its inputs, pattern by pattern. The list has the zeros of a box's corners as the port
// chooses them, so that they too are compared by their patterns. Where a call is refused, what it was lent must be as it was.
use crate::inputs::number;
use answer_lines::{count, pattern, refusal};

// What an array holds before a call writes to it; no result is this number, this count or this tag.
pub const HELD: f64 = 123456.789;

pub const HELD_COUNT: u64 = 123456789;

pub const HELD_TAG: u32 = 123456789;

// The answers to a tag that nobody knows and where there is no result to give, as callers know them: named here once more, so that a
// change of the port's numbers is told.
const UNKNOWN_TAG: u32 = 254;

const NONE: u32 = 255;

// How a line has an answer: these two have two digits there.
fn listed(answer: u32) -> u64 {
    match answer {
        NONE => 99,
        UNKNOWN_TAG => 98,
        refusal => refusal as u64,
    }
}

// The line has this answer, 0 for a result, and so many patterns.
pub fn is_due(line: &[u8], answer: u32, patterns: usize) -> bool {
    (refusal(line) == listed(answer)) & (count(line) == patterns)
}

// Number i of those that a call may write: of the first n it is the line's, from pattern k on, and else what it was. Of a record that is
// `sparse` a number that its tags do not use is not written, and 0 in the line.
fn is_number(line: &[u8], k: usize, n: usize, sparse: bool, i: usize, x: f64) -> bool {
    let due = pattern(line, k.wrapping_add(i));
    if i < n {
        (due == checked::bits(x)) | (sparse & (due == 0) & (x == HELD))
    } else {
        x == HELD
    }
}

pub fn are_numbers(line: &[u8], k: usize, n: usize, sparse: bool, out: &[f64]) -> bool {
    out.iter()
        .enumerate()
        .all(|(i, x)| is_number(line, k, n, sparse, i, *x))
}

// The numbers are the inputs of the line from pattern k on, a NaN for any other.
fn are_inputs(line: &[u8], k: usize, out: &[f64]) -> bool {
    out.iter().enumerate().all(|(i, x)| {
        let old = number(line, k.wrapping_add(i));
        checked::bits(old) == checked::bits(*x)
    })
}

// The line has, after so many inputs, a refusal or these numbers and so many patterns more.
fn is_told(line: &[u8], inputs: u8, more: u8, sparse: bool, answer: u32, out: &[f64]) -> bool {
    let first = inputs as usize;
    let n = out.len();
    if answer == 0 {
        let all = first.wrapping_add(n).wrapping_add(more as usize);
        is_due(line, 0, all) & are_numbers(line, first, n, sparse, out)
    } else {
        is_due(line, answer, first) & are_numbers(line, first, 0, sparse, out)
    }
}

// ---- answers after so many inputs
pub fn is_answer(line: &[u8], inputs: u8, answer: u32, out: &[f64]) -> bool {
    is_told(line, inputs, 0, false, answer, out)
}

// A piece, a surface or a curve, with so many patterns more after its numbers.
pub fn is_record(line: &[u8], inputs: u8, more: u8, answer: u32, out: &[f64]) -> bool {
    is_told(line, inputs, more, true, answer, out)
}

// The numbers at `place` of the line, a box or sums, changed.
pub fn is_change(line: &[u8], inputs: u8, place: u8, answer: u32, out: &[f64]) -> bool {
    let first = inputs as usize;
    let n = out.len();
    if answer == 0 {
        is_due(line, 0, first.wrapping_add(n)) & are_numbers(line, first, n, false, out)
    } else {
        is_due(line, answer, first) & are_inputs(line, place as usize, out)
    }
}

// A number that is never refused.
pub fn is_value(line: &[u8], inputs: u8, x: f64) -> bool {
    is_answer(line, inputs, 0, &[x])
}

pub fn is_count(line: &[u8], inputs: u8, answer: u32, out: &[u64; 1]) -> bool {
    let first = inputs as usize;
    if answer == 0 {
        is_due(line, 0, first + 1) & (pattern(line, first) == out[0])
    } else {
        is_due(line, answer, first) & (out[0] == HELD_COUNT)
    }
}

fn is_tag(line: &[u8], k: usize, tag: u32) -> bool {
    if tag == HELD_TAG {
        pattern(line, k) == 0
    } else {
        pattern(line, k) == tag as u64
    }
}

// The two tags after a record's numbers, from pattern k on; an arc has none.
pub fn are_tags(line: &[u8], k: u8, answer: u32, tags: &[u32; 2]) -> bool {
    let first = k as usize;
    if answer == 0 {
        is_tag(line, first, tags[0]) & is_tag(line, first + 1, tags[1])
    } else {
        (tags[0] == HELD_TAG) & (tags[1] == HELD_TAG)
    }
}
