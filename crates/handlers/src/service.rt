// Take, open, chain, return, set mask, look and commit: what they do once question 8 is answered yes. The handler service decides, by what the controller answers; the
// controller captures, or takes another current rank, where the event is accepted.

ghost use Rattle.std.specs.Prelude.{◌≡◌};
ghost use Rattle.handlers.specs.Service.{served_with, take_event, open_event, chain_event, return_event, set_mask_event, look_event, commit_event};

use crate::{Machine, Outcome};
use outcome::Answering;
use pic::Controller;

impl Machine {
    // What the handler service answers; an accepted event leaves the service that it hands back, and the controller c.
    fn served(mut self, out: handlers_service::Outcome, c: Controller) -> Outcome
        ensures { result ≡ served_with self out c }
    {
        if out.refusal != 0 {
            return self.refuse(out.refusal);
        }
        self.service = out.machine;
        self.controller = c;
        self.accept(out.answer)
    }

    // Serves the winner: it is captured and pushed.
    #[tactic(auto, unfolding(crate::specs::Service::take_event))]
    pub(crate) fn take_event(self) -> Outcome
        ensures { result ≡ take_event self }
    {
        let look = self.controller.look();
        let out = self.service.take(look, self.controller.current_rank());
        self.served(out, self.controller.capture(look.winner))
    }

    // Opens the uppermost handler: current takes its rank.
    #[tactic(auto, unfolding(crate::specs::Service::open_event))]
    pub(crate) fn open_event(self) -> Outcome
        ensures { result ≡ open_event self }
    {
        let h = self.service.uppermost();
        let out = self.service.open();
        self.served(out, self.controller.set_current(h.rank))
    }

    // Captures the winner, and serves it in the uppermost handler's place if it may.
    #[tactic(auto, unfolding(crate::specs::Service::chain_event))]
    pub(crate) fn chain_event(self) -> Outcome
        ensures { result ≡ chain_event self }
    {
        let look = self.controller.look();
        let out = self.service.chain(look);
        self.served(out, self.controller.capture(look.winner))
    }

    // Ends the uppermost handler: current takes its saved rank.
    #[tactic(auto, unfolding(crate::specs::Service::return_event))]
    pub(crate) fn return_event(self) -> Outcome
        ensures { result ≡ return_event self }
    {
        let h = self.service.uppermost();
        let out = self.service.return_from();
        self.served(out, self.controller.set_current(h.saved))
    }

    // Sets the mask to the value.
    #[tactic(auto, unfolding(crate::specs::Service::set_mask_event))]
    pub(crate) fn set_mask_event(self, v: u32) -> Outcome
        ensures { result ≡ set_mask_event self v }
    {
        self.served(self.service.set_mask(v), self.controller)
    }

    // Answers the source that a chain would serve now, or 0.
    #[tactic(auto, unfolding(crate::specs::Service::look_event))]
    pub(crate) fn look_event(self) -> Outcome
        ensures { result ≡ look_event self }
    {
        let out = self.service.look(self.controller.look());
        self.served(out, self.controller)
    }

    // Captures the winner and serves it in the uppermost handler's place, if its source is this one.
    #[tactic(auto, unfolding(crate::specs::Service::commit_event))]
    pub(crate) fn commit_event(self, source: u32) -> Outcome
        ensures { result ≡ commit_event self source }
    {
        let look = self.controller.look();
        let out = self.service.commit(look, source);
        self.served(out, self.controller.capture(look.winner))
    }
}
