// A run keeps to its window. There is no code here: see specs/ and proofs/.

#![tactic(auto)]
