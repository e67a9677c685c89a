// Answers stored where they are due, and pieces, curves and surfaces as arrays of numbers.
#![tactic(auto)]

pub mod curve_records;
pub mod piece_records;
pub mod records;
pub mod stored;
pub mod surface_records;
