// The balanced tree of comparators, over an array of entering ranks: that of an eligible source is its rank, that of any other source 0.

ghost use Rattle.std.specs.Prelude.{◌≡◌, ◌+◌, ◌≤◌};
ghost use Rattle.pic_comparator.specs.Trees.{entered_by, passing, halves_of, balanced_of};

use crate::{Winner, better};
use pic_source::Rank;

// What source s enters as.
#[tactic(auto, unfolding(crate::specs::Comparator::entry_of))]
fn entry(ranks: &[u8; 256], s: u8) -> Winner
    ensures { result ≡ entered_by ranks.now s }
{
    let rank = ranks[s as usize];
    if rank == 0 {
        Winner::none()
    } else {
        Winner {
            source: s,
            rank: Rank(rank),
        }
    }
}

// What passes at the root of the tree of the n sources from s on.
fn halves(ranks: &[u8; 256], s: u8, n: u8) -> Winner
    requires { s + n ≤ 256 }
    ensures { result ≡ passing (entered_by ranks.now) (halves_of s n) }
{
    if n == 0 {
        Winner::none()
    } else if n == 1 {
        entry(ranks, s)
    } else {
        let half = n / 2;
        let left = halves(ranks, s, half);
        let right = halves(ranks, s + half, n - half);
        better(left, right)
    }
}

// What passes at the root of the balanced tree of the sources 1 to n.
pub fn balanced(ranks: &[u8; 256], n: u8) -> Winner
    ensures { result ≡ passing (entered_by ranks.now) (balanced_of n) }
{
    halves(ranks, 1, n)
}
