// Theorems about the definitions of a merge: proofs/Terms.antt has the statements.
#![tactic(auto)]
