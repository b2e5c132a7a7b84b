// No code: the theorems that sender and receiver keep together stand in specs/ and proofs/.
#![tactic(auto)]
