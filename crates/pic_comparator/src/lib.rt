// The comparison that finds the winner: the two-way comparator, and the balanced tree of such comparators.
#![tactic(auto)]

pub mod trees;

ghost use Rattle.std.specs.Prelude.{◌≡◌};
ghost use Rattle.pic_comparator.specs.Comparator.{no_winner, better_of};

use pic_source::Rank;

// A source number and its rank; 0 and rank 0 where there is none.
// No Option: by 01 the winner is number 0 of rank 0 where there is none, and a capture claims that number.
#[derive(Clone, Copy, Debug, PartialEq, Eq)]
pub struct Winner {
    pub source: u8,
    pub rank: Rank,
}

impl Winner {
    // No source.
    pub fn none() -> Winner
        ensures { result ≡ no_winner }
    {
        Winner {
            source: 0,
            rank: Rank(0),
        }
    }
}

// Of two, the right one passes only if its rank is strictly higher. The numbers are compared: by the derived order of Rank the winner's scan takes four
// instructions more for each source that waits.
#[tactic(auto, unfolding(crate::specs::Comparator::better_of))]
pub fn better(a: Winner, b: Winner) -> Winner
    ensures { result ≡ better_of a b }
{
    if a.rank.0 < b.rank.0 { b } else { a }
}
