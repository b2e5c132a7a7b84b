// No code: what the odometer shows over many calls, and above the transport, stands in specs/ and proofs/.
#![tactic(auto)]
