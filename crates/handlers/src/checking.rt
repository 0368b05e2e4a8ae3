// A machine that is asked question 8 once: power-on and `enter` make it, its events do not ask again, and `leave` hands it back.

ghost use Rattle.std.specs.Prelude.{◌≡◌};
ghost use Rattle.outcome.specs.Outcomes.{answered_by};
ghost use Rattle.handlers.specs.Checked.{start_of, enter_of, checked_step_of};

use crate::{Answered, Checked, CheckedOutcome, Machine};
use outcome::Answering;
use questions::Refusal;

impl Checked {
    // The machine at power-on with n sources; where n is not 2..255, refusal 2 and the machine of 2 sources.
    #[tactic(auto, unfolding(crate::specs::Checked::start_of, crate::specs::Machines::power_on_of))]
    pub fn start(n: u32) -> CheckedOutcome
        ensures { result ≡ start_of n }
    {
        let on = Machine::power_on(n);
        on.with(Checked {
            machine: on.machine,
        })
    }

    // A machine that is sound; where it is not, refusal 8 and the machine of 2 sources at power-on.
    #[tactic(auto, unfolding(crate::specs::Checked::enter_of))]
    pub fn enter(m: Machine) -> CheckedOutcome
        ensures { result ≡ enter_of m }
    {
        if m.is_sound() {
            return Checked { machine: m }.accept(0);
        }
        let on = Machine::power_on(2);
        Checked {
            machine: on.machine,
        }
        .refuse_for(Refusal::NotSound)
    }

    // One event, a head and a value.
    #[tactic(auto, unfolding(crate::specs::Checked::checked_step_of))]
    pub fn step(self, head: u32, value: u32) -> CheckedOutcome
        ensures { result ≡ checked_step_of self head value }
    {
        let out = self.machine.sound_step(head, value);
        out.with(Checked {
            machine: out.machine,
        })
    }

    // One event, by which it is changed.
    #[tactic(auto, unfolding(crate::specs::Checked::checked_step_of))]
    pub fn advance(&mut self, head: u32, value: u32) -> Answered
        ensures self_after { self.new ≡ (checked_step_of self.old head value).machine }
        ensures value { result ≡ answered_by (checked_step_of self.old head value) }
    {
        let out = self.machine.sound_step(head, value);
        self.machine = out.machine;
        out.answered()
    }

    // The machine.
    pub fn leave(self) -> Machine
        ensures { result ≡ self.machine }
    {
        self.machine
    }
}
