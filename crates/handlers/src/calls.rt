// The published events of the machine, an event of any kind, and the margin query. Each asks question 8 first.

ghost use Rattle.std.specs.Prelude.{◌≡◌};
ghost use Rattle.outcome.specs.Outcomes.{answered_by};
ghost use Rattle.handlers.specs.Margins.{margin_numbers};
ghost use Rattle.handlers.specs.Outcome.{Outcome};
ghost use Rattle.handlers.specs.Calls.{sound_first, sample_of, load_of, store_of, csr_read_of, csr_write_of, take_of, open_of, chain_of, return_of, set_mask_of, clock_of, error_of, look_of, commit_of, step_of, margin_answer};

use crate::{Answered, Machine, Outcome};
use outcome::Answering;
use questions::Refusal;

impl Machine {
    // Question 8 comes first; the event is asked and played where the machine is sound. The event has the machine of its own: handed on once more, it is
    // copied once more.
    fn when_sound<F: FnOnce() -> Outcome>(&self, event: F) -> Outcome
        requires { F.pre event }
        ensures { (o : Outcome) → ((r : Outcome) → F.post event r → r ≡ o) → result ≡ sound_first self.now o }
    {
        if self.is_sound() {
            event()
        } else {
            self.refuse_for(Refusal::NotSound)
        }
    }

    // The lines of word x take the bits of v.
    #[tactic(auto, unfolding(crate::specs::Calls::sample_of))]
    pub fn sample(mut self, x: u32, v: u32) -> Outcome
        ensures { result ≡ sample_of self x v }
    {
        self.when_sound(|| self.sample_event(x, v))
    }

    // A load of the word at an offset.
    #[tactic(auto, unfolding(crate::specs::Calls::load_of))]
    pub fn load(mut self, offset: u32) -> Outcome
        ensures { result ≡ load_of self offset }
    {
        self.when_sound(|| self.load_event(offset))
    }

    // A store of the word v at an offset.
    #[tactic(auto, unfolding(crate::specs::Calls::store_of))]
    pub fn store(mut self, offset: u32, v: u32) -> Outcome
        ensures { result ≡ store_of self offset v }
    {
        self.when_sound(|| self.store_event(offset, v))
    }

    // A read of a CSR.
    #[tactic(auto, unfolding(crate::specs::Calls::csr_read_of))]
    pub fn csr_read(mut self, address: u32) -> Outcome
        ensures { result ≡ csr_read_of self address }
    {
        self.when_sound(|| self.csr_read_event(address))
    }

    // A write of v to a CSR.
    #[tactic(auto, unfolding(crate::specs::Calls::csr_write_of))]
    pub fn csr_write(mut self, address: u32, v: u32) -> Outcome
        ensures { result ≡ csr_write_of self address v }
    {
        self.when_sound(|| self.csr_write_event(address, v))
    }

    // Serves the winner: it is pushed, unopened, with the current rank as saved.
    #[tactic(auto, unfolding(crate::specs::Calls::take_of))]
    pub fn take(mut self) -> Outcome
        ensures { result ≡ take_of self }
    {
        self.when_sound(|| self.take_event())
    }

    // Opens the uppermost handler: it can be interrupted again by a higher rank.
    #[tactic(auto, unfolding(crate::specs::Calls::open_of))]
    pub fn open(mut self) -> Outcome
        ensures { result ≡ open_of self }
    {
        self.when_sound(|| self.open_event())
    }

    // Serves the winner in the uppermost handler's place, if it is of that handler's rank and above the threshold; else answers 0.
    #[tactic(auto, unfolding(crate::specs::Calls::chain_of))]
    pub fn chain(mut self) -> Outcome
        ensures { result ≡ chain_of self }
    {
        self.when_sound(|| self.chain_event())
    }

    // Ends the uppermost handler, and puts back the current rank that its taking found.
    #[tactic(auto, unfolding(crate::specs::Calls::return_of))]
    pub fn return_from(mut self) -> Outcome
        ensures { result ≡ return_of self }
    {
        self.when_sound(|| self.return_event())
    }

    // Sets the mask to the value.
    #[tactic(auto, unfolding(crate::specs::Calls::set_mask_of))]
    pub fn set_mask(mut self, v: u32) -> Outcome
        ensures { result ≡ set_mask_of self v }
    {
        self.when_sound(|| self.set_mask_event(v))
    }

    // One clock of the timers.
    #[tactic(auto, unfolding(crate::specs::Calls::clock_of))]
    pub fn clock(mut self) -> Outcome
        ensures { result ≡ clock_of self }
    {
        self.when_sound(|| self.clock_event())
    }

    // One error in the counter that the address names, 0 to 2.
    #[tactic(auto, unfolding(crate::specs::Calls::error_of))]
    pub fn count_error(mut self, address: u32) -> Outcome
        ensures { result ≡ error_of self address }
    {
        self.when_sound(|| self.error_event(address))
    }

    // The source that a chain would serve now, or 0. Nothing is changed.
    #[tactic(auto, unfolding(crate::specs::Calls::look_of))]
    pub fn look(mut self) -> Outcome
        ensures { result ≡ look_of self }
    {
        self.when_sound(|| self.look_event())
    }

    // Serves this source in the uppermost handler's place, if it is what a look would answer now.
    #[tactic(auto, unfolding(crate::specs::Calls::commit_of))]
    pub fn commit(mut self, source: u32) -> Outcome
        ensures { result ≡ commit_of self source }
    {
        self.when_sound(|| self.commit_event(source))
    }

    // One event, a head and a value: the machine that it hands back, its answer and its refusal.
    #[tactic(auto, unfolding(crate::specs::Calls::step_of))]
    pub fn step(mut self, head: u32, value: u32) -> Outcome
        ensures { result ≡ step_of self head value }
    {
        self.when_sound(|| self.sound_step(head, value))
    }

    // One event, by which the machine that is lent is changed. It asks question 8 itself: handed to `when_sound` and back, the machine is copied four times more.
    #[tactic(auto, unfolding(crate::specs::Calls::step_of))]
    pub fn advance(&mut self, head: u32, value: u32) -> Answered
        ensures self_after { self.new ≡ (step_of self.old head value).machine }
        ensures value { result ≡ answered_by (step_of self.old head value) }
    {
        if !self.is_sound() {
            return Answered {
                answer: 0,
                refusal: Refusal::NotSound.into(),
            };
        }
        let out = self.sound_step(head, value);
        *self = out.machine;
        out.answered()
    }

    // The margin: the winner's rank minus the larger of threshold and current.
    pub fn margin(self) -> Result<i32, Refusal>
        ensures { margin_numbers result ≡ margin_answer self }
    {
        if self.is_sound() {
            Ok(self.controller.margin())
        } else {
            Err(Refusal::NotSound)
        }
    }
}
