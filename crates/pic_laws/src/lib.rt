#![tactic(auto)]

// No code: laws of the calls of pic, registers and csrs are in proofs/.
