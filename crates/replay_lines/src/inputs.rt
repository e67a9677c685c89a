// The inputs of a line: numbers, and arrays of so many numbers from the pattern k on.
use answer_lines::pattern;
use std::array;

pub fn number(line: &[u8], k: usize) -> f64 {
    checked::of_bits(pattern(line, k))
}

pub fn is_set(line: &[u8], k: usize) -> bool {
    pattern(line, k) == 1
}

pub fn tag(line: &[u8], k: usize) -> u32 {
    (pattern(line, k) % 4294967296) as u32
}

// As many numbers as the call takes there.
pub fn numbers<const N: usize>(line: &[u8], k: usize) -> [f64; N] {
    array::from_fn(|i| number(line, k.wrapping_add(i)))
}
