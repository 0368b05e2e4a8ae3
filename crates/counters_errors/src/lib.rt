// The three error counters: reset values, soundness, what is held of a write, and one error.
#![tactic(auto)]

mod one;
mod three;

use outcome::Answering;

// An error counter, as its register holds it: bits 31:27 the threshold, 26:0 the count.
#[derive(Clone, Copy)]
pub struct ErrorCounter(pub u32);

// The error counters 0, 1 and 2: of the I-cache, of the ICCM and of the DCCM.
#[derive(Clone, Copy)]
pub struct ErrorCounters {
    pub micect: ErrorCounter,
    pub miccmect: ErrorCounter,
    pub mdccmect: ErrorCounter,
}

// What an error hands back. The answer is the bit that the threshold selects.
pub type Outcome = outcome::Outcome<ErrorCounters>;

impl Answering for ErrorCounters {}
