// Take, open, chain, return, set mask, look and commit, on mask and stack: their questions, what they do and what they answer.

ghost use Rattle.std.specs.Prelude.{◌≡◌, unwrap_or, pos, int_lt};
ghost use Rattle.handlers_service.specs.Outcome.{Outcome};
ghost use Rattle.handlers_service.specs.Sound.{uppermost as uppermost_handler};
ghost use Rattle.handlers_service.specs.Events.{pushed, take_of, with_uppermost, marked, open_of, in_handler, serves_in, replaced, served, chain_of, popped, return_of, set_mask_of, next_in, look_of, commit_of};

use crate::{Outcome, Service};
use handlers_questions::may_commit;
use handlers_stack::{Handler, put};
use outcome::Answering;
use pic::Look;
use pic_comparator::Winner;
use pic_source::Rank;
use questions::Refusal;

// Whether a margin is above 0.
fn is_above(margin: i32) -> bool
    ensures { result ≡ int_lt (pos 0) margin }
{
    0 < margin
}

// Whether a chain in the handler h serves the winner of this look: it is of that handler's rank and above the threshold.
fn serves_in(h: Handler, look: Look) -> bool
    ensures { result ≡ serves_in h look }
{
    (look.winner.rank == h.rank) & look.above
}

// The source that a chain in the handler h would serve by this look.
fn next_in(h: Handler, look: Look) -> Option<u32>
    ensures { unwrap_or result 0 ≡ next_in h look }
{
    serves_in(h, look).then_some(u32::from(look.winner.source))
}

impl Service {
    // Questions 17 and 19 come first; where a handler is open and the mask is 0, the event is played in the uppermost handler.
    // Where the event can answer o alone, the rule says what is made of it.
    fn in_handler<F: FnOnce(Service, Handler) -> Outcome>(self, event: F) -> Outcome
        requires { F.pre event self (uppermost_handler self) }
        ensures { (o : Outcome) → ((r : Outcome) → F.post event self (uppermost_handler self) r → r ≡ o) → result ≡ in_handler self o }
    {
        if self.depth == 0 {
            self.refuse_for(Refusal::NoHandler)
        } else if self.mask != 0 {
            self.refuse_for(Refusal::InterruptsOn)
        } else {
            event(self, self.uppermost())
        }
    }

    // The service with another uppermost handler.
    fn with_uppermost(mut self, h: Handler) -> Service
        ensures { result ≡ with_uppermost self h }
    {
        self.stack = put(self.stack, self.depth.saturating_sub(1), h);
        self
    }

    // Serves the winner of this look: it is pushed, unopened, with the current rank as saved.
    #[tactic(auto, unfolding(crate::specs::Events::take_of))]
    pub fn take(mut self, look: Look, current: Rank) -> Outcome
        ensures { result ≡ take_of self look current }
    {
        if self.mask != 1 {
            return self.refuse_for(Refusal::InterruptsOff);
        }
        if !is_above(look.margin) {
            return self.refuse_for(Refusal::NoMargin);
        }
        self.push(look.winner, current).accept(look.meihap)
    }

    // The winner w pushed, unopened, with the current rank as saved; and the mask off.
    fn push(mut self, w: Winner, current: Rank) -> Service
        ensures { result ≡ pushed self w current }
    {
        let d = self.depth;
        let rank = w.rank;
        let h = Handler {
            source: w.source,
            rank: rank,
            saved: current,
            opened: 0,
        };
        self.stack = put(self.stack, d, h);
        self.depth = d.wrapping_add(1);
        self.mask = 0;
        self
    }

    // Opens the uppermost handler: it can be interrupted again by a higher rank.
    #[tactic(auto, unfolding(crate::specs::Events::open_of))]
    pub fn open(mut self) -> Outcome
        ensures { result ≡ open_of self }
    {
        if self.depth == 0 {
            return self.refuse_for(Refusal::NoHandler);
        }
        let h = self.uppermost();
        if h.opened != 0 {
            return self.refuse_for(Refusal::OpenedAlready);
        }
        self.mark(h).accept(u32::from(h.rank.0))
    }

    // The uppermost handler, h, marked as opened, and the mask on.
    fn mark(mut self, mut h: Handler) -> Service
        ensures { result ≡ marked self h }
    {
        h.opened = 1;
        self.mask = 1;
        self.with_uppermost(h)
    }

    // Serves the winner of this look in the uppermost handler's place, if it is of that handler's rank and above the threshold; else answers 0.
    #[tactic(auto, unfolding(crate::specs::Events::chain_of))]
    pub fn chain(mut self, look: Look) -> Outcome
        ensures { result ≡ chain_of self look }
    {
        self.in_handler(|s, h| {
            if serves_in(h, look) {
                s.serve(look)
            } else {
                s.accept(0)
            }
        })
    }

    // The winner of this look in the place of the uppermost handler's source. Answer: meihap.
    fn serve(self, look: Look) -> Outcome
        ensures { result ≡ served self look }
    {
        self.replace(look.winner).accept(look.meihap)
    }

    // The source of the winner w in the place of the uppermost handler's.
    fn replace(self, w: Winner) -> Service
        ensures { result ≡ replaced self w }
    {
        let mut h = self.uppermost();
        h.source = w.source;
        self.with_uppermost(h)
    }

    // Ends the uppermost handler.
    #[tactic(auto, unfolding(crate::specs::Events::return_of))]
    pub fn return_from(mut self) -> Outcome
        ensures { result ≡ return_of self }
    {
        self.in_handler(|s, _| {
            let popped = s.pop();
            popped.accept(u32::from(popped.depth))
        })
    }

    // One handler less, and the mask on.
    fn pop(mut self) -> Service
        ensures { result ≡ popped self }
    {
        self.depth = self.depth.saturating_sub(1);
        self.mask = 1;
        self
    }

    // Sets the mask to the value.
    #[tactic(auto, unfolding(crate::specs::Events::set_mask_of))]
    pub fn set_mask(mut self, v: u32) -> Outcome
        ensures { result ≡ set_mask_of self v }
    {
        if 1 < v {
            return self.refuse_for(Refusal::NotABit);
        }
        let h = self.uppermost();
        if !((v == 0) | ((self.depth == 0) | (h.opened == 1))) {
            return self.refuse_for(Refusal::NotOpened);
        }
        self.mask = v as u8;
        self.accept(0)
    }

    // Answers the source that a chain would serve by this look, or 0.
    #[tactic(auto, unfolding(crate::specs::Events::look_of))]
    pub fn look(mut self, look: Look) -> Outcome
        ensures { result ≡ look_of self look }
    {
        self.in_handler(|s, h| s.accept(next_in(h, look).unwrap_or(0)))
    }

    // Serves the source n in the uppermost handler's place, if it is what a look would answer now.
    #[tactic(auto, unfolding(crate::specs::Events::commit_of))]
    pub fn commit(mut self, look: Look, n: u32) -> Outcome
        ensures { result ≡ commit_of self look n }
    {
        self.in_handler(|s, h| {
            if next_in(h, look).is_some_and(|next| may_commit(n, next)) {
                s.serve(look)
            } else {
                s.refuse_for(Refusal::NotTheNext)
            }
        })
    }
}
