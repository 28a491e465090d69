// Theorems about the definitions of a load of a shared object: proofs/Terms.antt has the statements.
#![tactic(auto)]
