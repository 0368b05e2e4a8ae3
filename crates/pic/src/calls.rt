// What the controller answers to the layers above: N, the current rank, a look at the winner, the capture.

ghost use Rattle.std.specs.Prelude.{◌≡◌};
ghost use Rattle.pic.specs.Sources.{threshold_of, difference_of, over_of};
ghost use Rattle.pic.specs.Calls.{source_count, priority_order, current_rank, set_current, meihap_of, capture_of, look_of};

use crate::{Controller, Look};
use pic_comparator::Winner;
use pic_source::Rank;
use pic_source::ranks::{to_field, to_rank};

// The first rank minus the second.
#[tactic(auto, unfolding(crate::specs::Sources::difference_of))]
fn difference(a: Rank, b: Rank) -> i32
    ensures { result ≡ difference_of a b }
{
    i32::from(a.0) - i32::from(b.0)
}

// The word of meihap.
#[tactic(auto, unfolding(crate::specs::Calls::meihap_of))]
pub fn meihap(base: u32, claim: u8) -> u32
    ensures { result ≡ meihap_of base claim }
{
    base.wrapping_add(4 * u32::from(claim))
}

impl Controller {
    // N.
    #[tactic(auto, unfolding(crate::specs::Calls::source_count))]
    pub fn source_count(self) -> u8
        ensures { result ≡ source_count self }
    {
        self.sources
    }

    // Priord.
    #[tactic(auto, unfolding(crate::specs::Calls::priority_order))]
    pub fn priority_order(self) -> u8
        ensures { result ≡ priority_order self }
    {
        self.scalars.priord
    }

    #[tactic(auto, unfolding(crate::specs::Calls::current_rank))]
    pub fn current_rank(self) -> Rank
        ensures { result ≡ current_rank self }
    {
        to_rank(self.scalars.priord, self.scalars.current)
    }

    // The controller with another current rank, as the layer above sets it.
    #[tactic(auto, unfolding(crate::specs::Calls::set_current))]
    pub fn set_current(mut self, rank: Rank) -> Controller
        ensures { result ≡ set_current self rank }
    {
        self.scalars.current = to_field(self.scalars.priord, rank);
        self
    }

    // Claim and claimed from the winner w.
    #[tactic(auto, unfolding(crate::specs::Calls::capture_of))]
    pub fn capture(mut self, w: Winner) -> Controller
        ensures { result ≡ capture_of self w }
    {
        self.scalars.claim = w.source;
        self.scalars.claimed = to_field(self.scalars.priord, w.rank);
        self
    }

    // The rank of the threshold.
    fn threshold(self) -> Rank
        ensures { result ≡ threshold_of self.scalars }
    {
        to_rank(self.scalars.priord, self.scalars.threshold)
    }

    // A rank minus the larger of threshold and current.
    #[tactic(auto, unfolding(crate::specs::Calls::current_rank, crate::specs::Sources::higher_of))]
    fn over(self, rank: Rank) -> i32
        ensures { result ≡ over_of self rank }
    {
        difference(rank, self.threshold().max(self.current_rank()))
    }

    // The margin alone: the winner's number is not asked for, so the compiler need not keep it.
    #[tactic(auto, unfolding(crate::specs::Calls::look_of))]
    pub fn margin(self) -> i32
        ensures { result ≡ (look_of self).margin }
    {
        let w = self.winner();
        self.over(w.rank)
    }

    // All that the layer above asks of the winner, from one look.
    #[tactic(auto, unfolding(crate::specs::Calls::look_of))]
    pub fn look(self) -> Look
        ensures { result ≡ look_of self }
    {
        let w = self.winner();
        Look {
            winner: w,
            above: self.threshold() < w.rank,
            margin: self.over(w.rank),
            meihap: meihap(self.scalars.base, w.source),
        }
    }
}
