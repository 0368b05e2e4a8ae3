// The CSRs of the counters: which has an address, what it reads, what a write changes.

ghost use Rattle.std.specs.Prelude.{◌≡◌};
ghost use Rattle.counters.specs.Csrs.{is_csr, csr_of, csr_at, put_timer, csr_value, csr_written};

use crate::{Counters, Csr};
use counters_errors::ErrorCounter;
use counters_timers::Timer;

// The CSR of timer i that is k places on from its first.
#[tactic(auto, unfolding(crate::specs::Csrs::csr_of))]
fn csr_of(i: u8, k: u32) -> Csr
    ensures { result ≡ csr_of i k }
{
    match k {
        0 => Csr::Mitcnt(i),
        1 => Csr::Mitb(i),
        _ => Csr::Mitctl(i),
    }
}

// The CSR that has an address.
#[tactic(auto, unfolding(crate::specs::Csrs::csr_at))]
pub fn csr_at(address: u32) -> Option<Csr>
    ensures { result ≡ csr_at address }
{
    match address {
        0x7D2..=0x7D7 => {
            let k = address - 0x7D2;
            Some(csr_of((k / 3) as u8, k % 3))
        }
        0x7F0..=0x7F2 => Some(Csr::Ect((address - 0x7F0) as u8)),
        _ => None,
    }
}

// Whether there is such a CSR.
// Of an Option, here and below: a bare CSR would be a narrower type than these calls have taken.
pub fn is_csr(csr: Option<Csr>) -> bool
    ensures { result ≡ is_csr csr }
{
    match csr {
        Some(Csr::Mitcnt(i) | Csr::Mitb(i) | Csr::Mitctl(i)) => i < 2,
        Some(Csr::Ect(i)) => i < 3,
        None => false,
    }
}

impl Counters {
    // The counters with t for timer i.
    fn with_timer(mut self, i: u8, t: Timer) -> Counters
        ensures { result ≡ put_timer self i t }
    {
        self.timers = self.timers.with_timer(i, t);
        self
    }

    // What a CSR reads.
    #[tactic(auto, unfolding(crate::specs::Csrs::csr_value))]
    pub fn csr_value(self, csr: Option<Csr>) -> u32
        ensures { result ≡ csr_value self csr }
    {
        match csr {
            Some(Csr::Mitcnt(i)) => self.timers.timer(i).count,
            Some(Csr::Mitb(i)) => self.timers.timer(i).bound,
            Some(Csr::Mitctl(i)) => self.timers.timer(i).control,
            Some(Csr::Ect(i)) => self.errors.counter(i).0,
            None => 0,
        }
    }

    // A write of v to a CSR.
    #[tactic(auto, unfolding(crate::specs::Csrs::csr_written))]
    pub fn csr_written(mut self, csr: Option<Csr>, v: u32) -> Counters
        ensures { result ≡ csr_written self csr v }
    {
        match csr {
            Some(Csr::Mitcnt(i)) => {
                let t = Timer {
                    count: v,
                    ..self.timers.timer(i)
                };
                self.with_timer(i, t)
            }
            Some(Csr::Mitb(i)) => {
                let t = Timer {
                    bound: v,
                    ..self.timers.timer(i)
                };
                self.with_timer(i, t)
            }
            Some(Csr::Mitctl(i)) => {
                let t = Timer {
                    control: v % 8,
                    ..self.timers.timer(i)
                };
                self.with_timer(i, t)
            }
            Some(Csr::Ect(i)) => {
                self.errors = self.errors.with_counter(i, ErrorCounter::held(v));
                self
            }
            None => self,
        }
    }
}
