// Theorems about the report over a lot: what the figures count, and the totals in any order of the titles.
#![tactic(auto)]
