// The winner from the ready sets: for each rank 0 to 15 a set of 256 bits, bit y of word x for source 32 x + y.
#![tactic(auto)]

ghost use Rattle.std.specs.Prelude.{◌≡◌};
ghost use Rattle.pic_sets_winner.specs.Highest.{number_or_256, lowest_of, highest_of};

use pic_bits::lowest_bit;
use pic_comparator::Winner;
use pic_sets::{Set, Sets};
use pic_source::Rank;

// The lowest number of a set.
fn lowest(set: Set) -> Option<u8>
    ensures { number_or_256 result ≡ lowest_of set }
{
    let x = set.iter().position(|w| *w != 0)?;
    Some((32 * (x as u32) + lowest_bit(set[x])) as u8)
}

// The lowest source of the highest set above 0 that is not empty.
pub fn highest(sets: &Sets) -> Winner
    ensures { result ≡ highest_of sets.now }
{
    // By the index: it is the rank that is handed back.
    for r in (1..16).rev() {
        if let Some(source) = lowest(sets[r]) {
            return Winner {
                source,
                rank: Rank(r as u8),
            };
        }
    }
    Winner::none()
}
