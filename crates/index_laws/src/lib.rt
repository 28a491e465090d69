// Theorems about links with an index of their names: the statements are in proofs/Terms.antt.
#![tactic(auto)]
