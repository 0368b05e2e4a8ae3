// The ready sets: for each rank 0 to 15, a set of 256 bits with the sources of that rank that are enabled and pending.
// Bit y of word x of a set is source 32 x + y.
#![tactic(auto)]

pub mod flips;
pub mod switches;

// 256 bits, one for each source.
pub type Set = [u32; 8];

// The set of each rank.
pub type Sets = [Set; 16];
