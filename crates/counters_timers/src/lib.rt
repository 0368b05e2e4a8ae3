// The two internal timers: reset values, soundness, and one clock.
#![tactic(auto)]

mod both;
mod one;

// An internal timer: its counter, its bound and its control (bit 0 enable, bit 1 halt_en, bit 2 pause_en). Words, as the registers hold them: question 8 is
// asked of any such values, sound or not.
#[derive(Clone, Copy)]
pub struct Timer {
    pub count: u32,
    pub bound: u32,
    pub control: u32,
}

// Timers 0 and 1.
#[derive(Clone, Copy)]
pub struct Timers {
    pub timer0: Timer,
    pub timer1: Timer,
}

// What a clock hands back. The answer has bit 0 for timer 0 and bit 1 for timer 1. No outcome: a clock is not refused.
#[derive(Clone, Copy)]
pub struct Clocked {
    pub timers: Timers,
    pub answer: u32,
}
