// Both timers: each by its number, reset values, soundness, and one clock.

ghost use Rattle.std.specs.Prelude.{◌≡◌};
ghost use Rattle.counters_timers.specs.Timers.{timer_at, with_timer, reset_timers, timers_sound, clock_of};

use crate::{Clocked, Timer, Timers};

impl Timers {
    // The timers as power-on leaves them.
    #[tactic(auto, unfolding(crate::specs::Timers::reset_timers))]
    pub fn reset() -> Timers
        ensures { result ≡ reset_timers }
    {
        let t = Timer {
            count: 0,
            bound: 0xFFFFFFFF,
            control: 1,
        };
        Timers {
            timer0: t,
            timer1: t,
        }
    }

    // Whether both timers are sound.
    #[tactic(auto, unfolding(crate::specs::Timers::timers_sound))]
    pub fn is_sound(self) -> bool
        ensures { result ≡ timers_sound self }
    {
        let a = self.timer0.is_sound();
        let b = self.timer1.is_sound();
        a & b
    }

    // Timer i; a timer of zeros where there is none.
    // Two registers by their names, and no step but the choice: an array would be no plainer. No Option: published.
    #[tactic(auto, unfolding(crate::specs::Timers::timer_at))]
    pub fn timer(self, i: u8) -> Timer
        ensures { result ≡ timer_at self i }
    {
        match i {
            0 => self.timer0,
            1 => self.timer1,
            _ => Timer {
                count: 0,
                bound: 0,
                control: 0,
            },
        }
    }

    // The timers with t for timer i; as before where there is none.
    #[tactic(auto, unfolding(crate::specs::Timers::with_timer))]
    pub fn with_timer(mut self, i: u8, t: Timer) -> Timers
        ensures { result ≡ with_timer self i t }
    {
        match i {
            0 => self.timer0 = t,
            1 => self.timer1 = t,
            _ => {}
        }
        self
    }

    // One clock.
    pub fn clock(mut self) -> Clocked
        ensures { result ≡ clock_of self }
    {
        let t = self.timer0;
        let u = self.timer1;
        let a = t.signal();
        let b = u.signal();
        self.timer0 = t.clock();
        self.timer1 = u.clock();
        Clocked {
            timers: self,
            answer: a + 2 * b,
        }
    }
}
