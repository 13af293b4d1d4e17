// A run, as the manual and 01 define it, and what holds of every run. There is no code here: see specs/ and proofs/.

#![tactic(auto)]
