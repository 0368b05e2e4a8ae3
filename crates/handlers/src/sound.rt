// Power-on, and whether a machine is sound.

ghost use Rattle.std.specs.Prelude.{◌≡◌};
ghost use Rattle.handlers.specs.Machines.{power_on_of, sound_of};

use crate::{Machine, Outcome};
use counters::Counters;
use handlers_service::Service;
use pic::Controller;

impl Machine {
    // The machine at power-on with n sources; where n is not 2..255, refusal 2 and the machine of 2 sources.
    #[tactic(auto, unfolding(crate::specs::Machines::power_on_of), using(pic::proofs::Calling::power_on_answers_0))]
    pub fn power_on(n: u32) -> Outcome
        ensures { result ≡ power_on_of n }
    {
        let on = Controller::power_on(n);
        let c = on.machine;
        let s = Service::reset();
        let t = Counters::reset();
        let m = Machine {
            service: s,
            counters: t,
            controller: c,
        };
        on.with(m)
    }

    // Question 8.
    #[tactic(auto, unfolding(crate::specs::Machines::sound_of))]
    pub fn is_sound(self) -> bool
        ensures { result ≡ sound_of self }
    {
        self.service.is_sound(
            self.controller.source_count(),
            self.controller.current_rank(),
        ) & self.controller.is_sound()
            & self.counters.is_sound()
    }
}
