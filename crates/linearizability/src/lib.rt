// Theorems alone: one order of operations for every run of the step machine.
#![tactic(auto)]
