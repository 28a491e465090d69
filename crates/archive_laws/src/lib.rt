// Theorems on whole walks over an archive's members. No functions.
#![tactic(auto)]
