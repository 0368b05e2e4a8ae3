// The events of the controller and of the counters on the machine, and an event of any kind: what they do once question 8 is answered yes.

ghost use Rattle.std.specs.Prelude.{◌≡◌};
ghost use Rattle.handlers.specs.Fields.{with_controller, with_counters};
ghost use Rattle.handlers.specs.Service.{lifted, sample_event, load_event, store_event, csr_read_event, controller_write, csr_write_event, counted_in, clock_event, error_event, sound_step_of};

use crate::{Machine, Outcome};
use counters::Counters;
use counters::csrs::{csr_at, is_csr};
use event::kinds::Kind;
use handlers_questions::{may_store, may_write};
use outcome::Answering;
use pic::Controller;
use questions::Refusal;

impl Machine {
    // The machine with another controller.
    pub(crate) fn with_controller(mut self, c: Controller) -> Machine
        ensures { result ≡ with_controller self c }
    {
        self.controller = c;
        self
    }

    // The machine with other counters.
    fn with_counters(mut self, t: Counters) -> Machine
        ensures { result ≡ with_counters self t }
    {
        self.counters = t;
        self
    }

    // The machine with the controller that an event of its own handed back.
    fn lift(self, out: pic::Outcome) -> Outcome
        ensures { result ≡ lifted self out }
    {
        out.with(self.with_controller(out.machine))
    }

    #[tactic(auto, unfolding(crate::specs::Service::sample_event))]
    pub(crate) fn sample_event(self, x: u32, v: u32) -> Outcome
        ensures { result ≡ sample_event self x v }
    {
        self.lift(pic_registers::sample(self.controller, x, v))
    }

    #[tactic(auto, unfolding(crate::specs::Service::load_event))]
    pub(crate) fn load_event(self, offset: u32) -> Outcome
        ensures { result ≡ load_event self offset }
    {
        self.lift(pic_registers::load(self.controller, offset))
    }

    #[tactic(auto, unfolding(crate::specs::Service::store_event))]
    pub(crate) fn store_event(self, offset: u32, v: u32) -> Outcome
        ensures { result ≡ store_event self offset v }
    {
        if !may_store(
            offset,
            v,
            self.controller.priority_order(),
            self.service.depth,
        ) {
            return self.refuse_for(Refusal::PriordInHandler);
        }
        self.lift(pic_registers::store(self.controller, offset, v))
    }

    #[tactic(auto, unfolding(crate::specs::Service::csr_read_event))]
    pub(crate) fn csr_read_event(self, address: u32) -> Outcome
        ensures { result ≡ csr_read_event self address }
    {
        let csr = csr_at(address);
        if is_csr(csr) {
            return self.accept(self.counters.csr_value(csr));
        }
        self.lift(pic_csrs::csr_read(self.controller, address))
    }

    #[tactic(auto, unfolding(crate::specs::Service::csr_write_event))]
    pub(crate) fn csr_write_event(self, address: u32, v: u32) -> Outcome
        ensures { result ≡ csr_write_event self address v }
    {
        let csr = csr_at(address);
        if is_csr(csr) {
            return self
                .with_counters(self.counters.csr_written(csr, v))
                .accept(0);
        }
        self.controller_write(address, v)
    }

    // A write of v to a CSR of the controller.
    #[tactic(auto, unfolding(crate::specs::Service::controller_write))]
    fn controller_write(self, address: u32, v: u32) -> Outcome
        ensures { result ≡ controller_write self address v }
    {
        if !may_write(address, self.service.depth) {
            return self.refuse_for(Refusal::CurrentInHandler);
        }
        self.lift(pic_csrs::csr_write(self.controller, address, v))
    }

    // The machine with the counters that a clock or an error handed back.
    fn count(self, counted: counters::Outcome) -> Outcome
        ensures { result ≡ counted_in self counted }
    {
        counted.with(self.with_counters(counted.machine))
    }

    #[tactic(auto, unfolding(crate::specs::Service::clock_event))]
    pub(crate) fn clock_event(self) -> Outcome
        ensures { result ≡ clock_event self }
    {
        self.count(self.counters.clock())
    }

    #[tactic(auto, unfolding(crate::specs::Service::error_event))]
    pub(crate) fn error_event(self, address: u32) -> Outcome
        ensures { result ≡ error_event self address }
    {
        self.count(self.counters.count_error(address))
    }

    // One event, a head and a value, on a machine that is known to be sound: 6 and 7, then the event by its kind.
    #[tactic(auto, unfolding(questions::specs::Numbers::number_in, crate::specs::Service::event_of, crate::specs::Service::sound_step_of))]
    pub(crate) fn sound_step(self, head: u32, value: u32) -> Outcome
        ensures { result ≡ sound_step_of self head value }
    {
        let address = event::address(head);
        match event::kind_asked(head, value) {
            Ok(Kind::Sample) => self.sample_event(address, value),
            Ok(Kind::Load) => self.load_event(address),
            Ok(Kind::Store) => self.store_event(address, value),
            Ok(Kind::CsrRead) => self.csr_read_event(address),
            Ok(Kind::CsrWrite) => self.csr_write_event(address, value),
            Ok(Kind::Take) => self.take_event(),
            Ok(Kind::Open) => self.open_event(),
            Ok(Kind::Chain) => self.chain_event(),
            Ok(Kind::Return) => self.return_event(),
            Ok(Kind::SetMask) => self.set_mask_event(value),
            Ok(Kind::Clock) => self.clock_event(),
            Ok(Kind::Error) => self.error_event(address),
            Ok(Kind::Look) => self.look_event(),
            Ok(Kind::Commit) => self.commit_event(address),
            Err(refusal) => self.refuse_for(refusal),
        }
    }
}
