// Theorems on section collection, about the definitions that the contract of gc_sections::run cites. No functions.
#![tactic(auto)]
