// No code: the theorems about the table of encodings. See specs/ and proofs/.

#![tactic(auto)]
