// No code: that demand 3 holds over the UART's byte stream too stands in specs/ and proofs/.
#![tactic(auto)]
