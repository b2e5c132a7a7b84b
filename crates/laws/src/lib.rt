// No code: what is true of any list, test or contract here, for the proofs of the crates above.
#![tactic(auto)]
