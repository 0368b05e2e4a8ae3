#![tactic(auto)]

// No code: the bench points are in specs/, their proofs in proofs/.
