// Theorems about lists, for the crates above: no code.
#![tactic(auto)]
