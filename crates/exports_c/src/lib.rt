// What C may call, by subject: the functions of crate exports under their own names, with the same clauses. Made by
// scripts/make_exports_c; do not edit.
#![tactic(auto)]

pub mod of_arcs;
pub mod of_curves;
pub mod of_developments;
pub mod of_frames;
pub mod of_layout;
pub mod of_motions;
pub mod of_numbers;
pub mod of_pieces;
pub mod of_sums;
pub mod of_surfaces;
pub mod of_traces;
pub mod of_vectors;
