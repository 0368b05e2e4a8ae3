// One timer: soundness, and what a clock does to it.

ghost use Rattle.std.specs.Prelude.{◌≡◌};
ghost use Rattle.counters_timers.specs.Timers.{timer_sound, signal_bit, next_count, after_clock};

use crate::Timer;

impl Timer {
    // Whether the timer is sound. Counter and bound are in range by their type.
    pub(crate) fn is_sound(self) -> bool
        ensures { result ≡ timer_sound self }
    {
        self.control <= 7
    }

    // 1 where the timer signals at a clock.
    pub(crate) fn signal(self) -> u32
        ensures { result ≡ signal_bit self }
    {
        u32::from(self.bound <= self.count)
    }

    // The counter after a clock.
    #[tactic(auto, unfolding(crate::specs::Timers::next_count))]
    fn next_count(self) -> u32
        ensures { result ≡ next_count self }
    {
        let enabled = self.control % 2 == 1;
        let at_bound = self.bound <= self.count;
        if at_bound {
            return 0;
        }
        if enabled { self.count + 1 } else { self.count }
    }

    // The timer after a clock.
    pub(crate) fn clock(mut self) -> Timer
        ensures { result ≡ after_clock self }
    {
        let n = self.next_count();
        self.count = n;
        self
    }
}
