// Theorems alone: the members that a walk takes and admits, against those that the gABI extracts. They stand in proofs/Terms.antt.
#![tactic(auto)]
