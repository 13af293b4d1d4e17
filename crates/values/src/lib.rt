// No code: specs/ has a table of worked values, computed from the definitions of the crates below.

#![tactic(auto)]
