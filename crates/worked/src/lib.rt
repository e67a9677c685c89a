// The worked cases, checked by computation in specs/Worked.antt. There is no code of its own.

#![tactic(auto)]
