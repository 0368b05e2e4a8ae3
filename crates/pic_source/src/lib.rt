// One source of interrupts, by its values: its rank and its field, its latch, and whether it is pending.
#![tactic(auto)]

pub mod ranks;
pub mod sources;

// A rank, 0..15: how urgent a source is. The highest is served first.
#[derive(Clone, Copy, Debug, PartialEq, Eq, PartialOrd, Ord)]
pub struct Rank(pub u8);

// What bits 3:0 of a priority register hold. Fields have no order of their own: which of two is the more urgent depends on priord.
#[derive(Clone, Copy, Debug, PartialEq, Eq)]
pub struct Field(pub u8);
