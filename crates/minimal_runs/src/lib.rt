// Theorems alone: what holds of the records that a shortened run keeps (crates/shortening).
#![tactic(auto)]
