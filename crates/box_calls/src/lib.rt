// Every box call of the product: what any list of them leaves is proved in specs/BoxCalls.antt.
// There is no code of its own.

#![tactic(auto)]
