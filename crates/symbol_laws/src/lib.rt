// Theorems about the symbol table's definitions: proofs/Terms.antt has the statements.
#![tactic(auto)]
