// The worked examples of document 01, proved from the definitions: the rows in specs/, the theorems in proofs/Terms.antt.
#![tactic(auto)]
