#![tactic(auto)]

// No code: the words and laws of nested handlers are in specs/, their proofs in proofs/.
