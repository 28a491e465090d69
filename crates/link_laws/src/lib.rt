// Theorems about links of all calls: the statements are in proofs/Terms.antt, those of number and place in proofs/ExactTerms.antt; proofs/Page.antt has the terms on one page.
#![tactic(auto)]
