// No code: the messages of a stream, that the reader tells just these, and that damage stays between its flags, stand
// in specs/ and proofs/.
#![tactic(auto)]
