// The counters beside the controller: the two internal timers and the three error counters together, and their CSRs.
#![tactic(auto)]

pub mod csrs;
mod whole;

use counters_errors::ErrorCounters;
use counters_timers::Timers;
use outcome::Answering;

// The counters of a machine.
#[derive(Clone, Copy)]
pub struct Counters {
    pub timers: Timers,
    pub errors: ErrorCounters,
}

// What a clock or an error hands back.
pub type Outcome = outcome::Outcome<Counters>;

impl Answering for Counters {}

// A CSR of the counters, with the number of its timer or of its error counter.
#[derive(Clone, Copy)]
pub enum Csr {
    Mitcnt(u8),
    Mitb(u8),
    Mitctl(u8),
    Ect(u8),
}
