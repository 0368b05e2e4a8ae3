// The counters together: reset values, whether they are sound, a clock and an error.

ghost use Rattle.std.specs.Prelude.{◌≡◌};
ghost use Rattle.counters.specs.Whole.{reset_counters, sound_of, clock_of, error_of};

use crate::{Counters, Outcome};
use counters_errors::ErrorCounters;
use counters_timers::Timers;
use outcome::Answering;

impl Counters {
    // The counters as power-on leaves them.
    pub fn reset() -> Counters
        ensures { result ≡ reset_counters }
    {
        Counters {
            timers: Timers::reset(),
            errors: ErrorCounters::reset(),
        }
    }

    // Whether the counters are sound.
    #[tactic(auto, unfolding(crate::specs::Whole::sound_of))]
    pub fn is_sound(self) -> bool
        ensures { result ≡ sound_of self }
    {
        let a = self.timers.is_sound();
        let b = self.errors.is_sound();
        a & b
    }

    // One clock.
    pub fn clock(mut self) -> Outcome
        ensures { result ≡ clock_of self }
    {
        let out = self.timers.clock();
        self.timers = out.timers;
        self.accept(out.answer)
    }

    // One error in the counter that an address names.
    pub fn count_error(mut self, address: u32) -> Outcome
        ensures { result ≡ error_of self address }
    {
        let out = self.errors.count_error(address);
        self.errors = out.machine;
        out.with(self)
    }
}
