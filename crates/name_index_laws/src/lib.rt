// Theorems on names, in proofs/Terms.antt: no functions.
#![tactic(auto)]
