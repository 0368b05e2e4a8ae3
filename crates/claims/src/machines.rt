// The machines that play a list: a checked one, which is asked question 8 once, and one that is lent for each event.

ghost use Rattle.std.specs.Prelude.{◌≡◌, ◌<◌, ◌^◌, ℕ, refl, true, ⊤};
ghost use Rattle.handlers.specs.declared.Machine.{Machine};
ghost use Rattle.handlers.specs.Machines.{power_on_of, sound_of};
ghost use Rattle.handlers.specs.Calls.{step_of};
ghost use Rattle.handlers.specs.Checked.{checked_step_of};
ghost use Rattle.outcome.specs.declared.Answered.{Answered};
ghost use Rattle.outcome.specs.Outcomes.{answered_by};
ghost use Rattle.handlers_laws.proofs.Checks.{checked_answers, checked_keeps, checked_steps};
ghost use Rattle.claims.specs.Play.{answered_of};

use handlers::{Answered, Checked, Machine};
use outcome::Outcome;

// What plays a list: power-on makes it, each event changes it, and it hands back its machine.
pub trait Plays: Sized {
    // The machine that it holds.
    ghost machine: { Self → Machine };

    // What is known of it from power-on to the last event.
    ghost Ready: { Self → Type 0 };

    // What an event makes of it, and what the event answers.
    ghost after: { Self → ℕ → ℕ → Self };

    ghost answered: { Self → ℕ → ℕ → Answered };

    // What it is at power-on with n sources, and power-on's refusal.
    fn start(n: u32) -> Outcome<Self>
        ensures ready { Ready result.machine }
        ensures machine { machine result.machine ≡ (power_on_of n).machine }
        ensures refusal { result.refusal ≡ (power_on_of n).refusal };

    // One event, by which it is changed.
    fn advance(&mut self, head: u32, value: u32) -> Answered
        ensures self_after { self.new ≡ after self.old head value }
        ensures value { result ≡ answered self.old head value };

    // Its machine.
    fn leave(self) -> Machine
        ensures { result ≡ machine self };

    // Once it is ready, each event is an event of the machine that it holds, and leaves it ready.
    ghost keeps: { (p : Self) (head value : ℕ) → value < 2 ^ 32 → Ready p → Ready (after p head value) };

    ghost steps: { (p : Self) (head value : ℕ) → Ready p → machine (after p head value) ≡ (step_of (machine p) head value).machine };

    ghost answers: { (p : Self) (head value : ℕ) → Ready p → answered p head value ≡ answered_of (machine p) head value };
}

impl Plays for Checked {
    ghost machine = { λ c. c.machine };

    ghost Ready = { λ c. sound_of c.machine ≡ true };

    ghost after = { λ c head value. (checked_step_of c head value).machine };

    ghost answered = { λ c head value. answered_by (checked_step_of c head value) };

    fn start(n: u32) -> Outcome<Checked> {
        Checked::start(n)
    }

    fn advance(&mut self, head: u32, value: u32) -> Answered {
        Checked::advance(self, head, value)
    }

    fn leave(self) -> Machine {
        Checked::leave(self)
    }

    ghost keeps = { checked_keeps };

    ghost steps = { checked_steps };

    ghost answers = { checked_answers };
}

impl Plays for Machine {
    ghost machine = { λ m. m };

    ghost Ready = { λ m. ⊤ };

    ghost after = { λ m head value. (step_of m head value).machine };

    ghost answered = { answered_of };

    fn start(n: u32) -> Outcome<Machine> {
        Machine::power_on(n)
    }

    fn advance(&mut self, head: u32, value: u32) -> Answered {
        Machine::advance(self, head, value)
    }

    fn leave(self) -> Machine {
        self
    }

    ghost keeps = { λ m head value small r. r };

    ghost steps = { λ m head value r. refl };

    ghost answers = { λ m head value r. refl };
}
