// Theorems about the log of writes that a chain of replicas has applied: no code.
#![tactic(auto)]
