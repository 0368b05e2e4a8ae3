// The winner by the balanced tree of comparators, beside the scan of the controller. The player does not use it.
#![tactic(auto)]

ghost use Rattle.std.specs.Prelude.{◌≡◌};
ghost use Rattle.pic.specs.Sources.{field_at, waiting_at, winner_of};
ghost use Rattle.pic_tree.specs.Tree.{entering_rank, Entering, tree_winner};

use pic::Controller;
use pic_comparator::Winner;
use pic_comparator::trees::balanced;

// The entering rank of source s: its rank where it is enabled and pending, else 0. A rank of 0 is not eligible, and enters as such.
// No Option: the tree takes entering ranks as numbers, in which 0 is not eligible.
fn entering_rank(c: &Controller, s: u8) -> u8
    ensures { result ≡ entering_rank (waiting_at c.now s) c.now.scalars.priord (field_at c.now s) }
{
    if c.waits(s) { c.rank(s).0 } else { 0 }
}

// The entering ranks of the sources, by number.
fn entering_ranks(c: Controller) -> [u8; 256]
    ensures { Entering c c.sources result }
{
    let mut ranks = [0u8; 256];
    for s in 1..=c.sources {
        ranks[s as usize] = entering_rank(&c, s);
    }
    ranks
}

// What passes at the root of the balanced tree of the sources: the winner.
pub fn winner(c: Controller) -> Winner
    ensures tree { result ≡ tree_winner c }
    ensures scan { result ≡ winner_of c }
{
    let ranks = entering_ranks(c);
    balanced(&ranks, c.sources)
}
