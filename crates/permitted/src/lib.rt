// No code: permits in a run, and demand 3 under them (specs and proofs).
#![tactic(auto)]
