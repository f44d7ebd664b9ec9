// Theorems over the calls: see specs/ and proofs/.
#![tactic(auto)]
