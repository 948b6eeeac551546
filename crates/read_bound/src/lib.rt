// Theorems alone: a read that nothing hinders is heard within four deliveries of its packet.
#![tactic(auto)]
