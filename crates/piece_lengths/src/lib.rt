// How long a piece is, how far it turns, its second derivatives, and into how many chords it is cut.
#![tactic(auto)]

pub mod counts;
pub mod measures;
pub mod second_derivatives;
