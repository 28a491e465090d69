// Theorems on the plain collector, about the definitions that the contract of plain_collector::run cites. No functions.
#![tactic(auto)]
