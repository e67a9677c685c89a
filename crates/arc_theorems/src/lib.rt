// Theorems only: how far arcs turn, and which refusals their entries can give. See proofs/,
// and specs/ for the words.

#![tactic(auto)]
