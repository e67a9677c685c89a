// What Rust and C may call, by subject. Numbers pass as themselves, records as arrays of numbers; an answer is a refusal's number, 0 where
// there is none, beside what is written. A refusal writes nothing.
#![tactic(auto)]

pub mod of_arcs;
pub mod of_curves;
pub mod of_developments;
pub mod of_frames;
pub mod of_layout;
pub mod of_motions;
pub mod of_numbers;
pub mod of_pieces;
pub mod of_sums;
pub mod of_surfaces;
pub mod of_traces;
pub mod of_vectors;
