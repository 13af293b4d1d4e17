// Each host call has one answer. There is no code here: see specs/ and proofs/.

#![tactic(auto)]
