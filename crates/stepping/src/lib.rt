// What holds of every step. There is no code here: see specs/ and proofs/.

#![tactic(auto)]
