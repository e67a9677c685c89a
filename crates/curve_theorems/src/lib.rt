// Theorems only: what holds of curves for every input. See proofs/, and specs/ for the words.

#![tactic(auto)]
