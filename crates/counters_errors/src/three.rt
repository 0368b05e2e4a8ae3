// The three error counters: each by its number, reset values, soundness, and one error in one of them.

ghost use Rattle.std.specs.Prelude.{◌≡◌};
ghost use Rattle.counters_errors.specs.Errors.{error_at, with_error, reset_errors, errors_sound, error_of};

use crate::{ErrorCounter, ErrorCounters, Outcome};
use outcome::Answering;
use questions::Refusal;

impl ErrorCounters {
    // The error counters as power-on leaves them.
    #[tactic(auto, unfolding(crate::specs::Errors::reset_errors))]
    pub fn reset() -> ErrorCounters
        ensures { result ≡ reset_errors }
    {
        ErrorCounters {
            micect: ErrorCounter(0),
            miccmect: ErrorCounter(0),
            mdccmect: ErrorCounter(0),
        }
    }

    // Whether the error counters are sound.
    #[tactic(auto, unfolding(crate::specs::Errors::errors_sound))]
    pub fn is_sound(self) -> bool
        ensures { result ≡ errors_sound self }
    {
        let a = self.micect.is_sound();
        let b = self.miccmect.is_sound();
        let c = self.mdccmect.is_sound();
        a & b & c
    }

    // Error counter i; a counter of 0 where there is none.
    // Three registers by their names, and no step but the choice: an array would be no plainer. No Option: published.
    #[tactic(auto, unfolding(crate::specs::Errors::error_at))]
    pub fn counter(self, i: u8) -> ErrorCounter
        ensures { result ≡ error_at self i }
    {
        match i {
            0 => self.micect,
            1 => self.miccmect,
            2 => self.mdccmect,
            _ => ErrorCounter(0),
        }
    }

    // The error counters with e for counter i; as before where there is none.
    #[tactic(auto, unfolding(crate::specs::Errors::with_error))]
    pub fn with_counter(mut self, i: u8, e: ErrorCounter) -> ErrorCounters
        ensures { result ≡ with_error self i e }
    {
        match i {
            0 => self.micect = e,
            1 => self.miccmect = e,
            2 => self.mdccmect = e,
            _ => {}
        }
        self
    }

    // One error in the counter that an address names. Question 25 is asked first.
    pub fn count_error(self, address: u32) -> Outcome
        ensures { result ≡ error_of self address }
    {
        if 2 < address {
            return self.refuse_for(Refusal::NoSuchCounter);
        }
        let i = address as u8;
        let e = self.counter(i);
        let next = e.counted();
        self.with_counter(i, next).accept(next.selected_bit())
    }
}
