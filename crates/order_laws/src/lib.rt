// Theorems about lists of adds in any order.
#![tactic(auto)]
