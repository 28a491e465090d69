// Theorems: nothing but heads and links of hash chains depends on the key of the hash. They stand in proofs/, their words in specs/; link_laws cites them.
#![tactic(auto)]
