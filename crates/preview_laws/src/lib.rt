// Theorems about the preview of an object: what it answers and shows is what the merge would do to the link.
#![tactic(auto)]
