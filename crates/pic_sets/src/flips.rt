// Sources that enter the set of their rank or leave it: one, or those of a word.

ghost use Rattle.std.specs.Prelude.{◌≡◌, ◌%◌};
ghost use Rattle.pic_sets.specs.Sets.{flipped_at, updated_of, OthersStay, rank_at, flipped_word};

use crate::Sets;
use pic_bits::lowest_bit;
use pic_source::ranks::to_rank;
use pic_source::{Field, Rank};

// Source s enters the set of a rank, or leaves it. A rank above 15 has no set.
#[tactic(auto, unfolding(crate::specs::Sets::flipped_at))]
fn flip(sets: &mut Sets, rank: Rank, s: u8)
    ensures { sets.new ≡ flipped_at sets.old rank.0 s }
{
    if rank.0 < 16 {
        sets[rank.0 as usize][(s / 32) as usize] ^= 1 << (s % 32);
    }
}

// Source s leaves the set of its old rank where it was ready, and enters that of its new rank where it is. No other set is touched.
// Flags beside the ranks: it is published, and its rule has them.
#[tactic(auto, unfolding(crate::specs::Sets::updated_of, crate::specs::Sets::flipped_if, crate::specs::Sets::flipped_at))]
pub fn update(sets: &mut Sets, s: u8, old: Rank, was: bool, new: Rank, is: bool)
    ensures sets_after { sets.new ≡ updated_of sets.old s old was new is }
    ensures others_stay { OthersStay sets.old sets.new old new }
{
    if was {
        flip(sets, old, s);
    }
    if is {
        flip(sets, new, s);
    }
}

// Each source of word x whose bit is set in changed enters the set of its rank, or leaves it. A word above 7 stands for what is left of it by 8.
pub fn flip_word(sets: &mut Sets, field: &[u8; 256], priord: u8, x: u8, changed: u32)
    ensures { sets.new ≡ flipped_word sets.old (rank_at priord field.now) (x % 8) changed }
{
    let mut left = changed;
    // Bits are taken off the word; no index is counted.
    while left != 0 {
        let y = lowest_bit(left);
        let s = 32 * (x % 8) + (y as u8);
        flip(sets, to_rank(priord, Field(field[s as usize])), s);
        left -= 1 << y;
    }
}
