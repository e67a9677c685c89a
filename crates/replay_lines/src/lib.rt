// A call of the list of answers: its inputs as the arrays that C passes, and what it gave compared with the line.
#![tactic(auto)]

pub mod answers;
pub mod inputs;
