// Theorems only: where the values of the elementary functions lie. See specs/ and proofs/.

#![tactic(auto)]
