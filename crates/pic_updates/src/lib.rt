// Samples and stores of a controller whose ready sets are lent, and brought up to date.
#![tactic(auto)]

ghost use Rattle.std.specs.Prelude.{◌≡◌, ◌%◌, ◌/◌, eqb};
ghost use Rattle.pic_bits.specs.Tables.{Shaped};
ghost use Rattle.pic_ready.specs.Ready.{followed_of};
ghost use Rattle.pic_registers.specs.Calls.{sample_of, store_of};
ghost use Rattle.pic_updates.specs.Updates.{moved_where, moved_at, moved_word};

use pic::{Controller, Outcome};
use pic_ready::ready;
use pic_sets::Sets;
use pic_sets::flips::update;
use pic_sets::switches::reverse;

// What the type of sets says of their list. A reference tells no more than that there are sixteen; passed by value, they tell the rest.
fn sixteen(sets: Sets)
    ensures { Shaped 16 sets }
{}

// Source s, as it is in c before an event and in d after it.
fn follow_source(c: Controller, d: Controller, s: u8, sets: &mut Sets)
    ensures { sets.new ≡ moved_at c d s sets.old }
{
    sixteen(*sets);
    update(sets, s, c.rank(s), ready(&c, s), d.rank(s), ready(&d, s));
}

// The sources of word x.
fn follow_word(c: Controller, d: Controller, x: u8, sets: &mut Sets)
    ensures { sets.new ≡ moved_word c d (x % 8) sets.old }
{
    sixteen(*sets);
    for y in 0..32 {
        follow_source(c, d, 32 * (x % 8) + y, sets);
    }
}

// The lines of word x take the bits of v.
pub fn sample(c: Controller, x: u32, v: u32, sets: &mut Sets) -> Outcome
    ensures value { result ≡ sample_of c x v }
    ensures sets_after { sets.new ≡ followed_of c (sample_of c x v).machine sets.old }
{
    let out = pic_registers::sample(c, x, v);
    let d = out.machine;
    follow_word(c, d, (x % 8) as u8, sets);
    out
}

// A store of the word v at an offset. It changes one source at most, or priord.
pub fn store(c: Controller, offset: u32, v: u32, sets: &mut Sets) -> Outcome
    ensures value { result ≡ store_of c offset v }
    ensures sets_after { sets.new ≡ followed_of c (store_of c offset v).machine sets.old }
{
    let out = pic_registers::store(c, offset, v);
    let d = out.machine;
    if c.scalars.priord == d.scalars.priord {
        follow_source(c, d, (offset % 4096 / 4 % 256) as u8, sets);
    } else {
        reverse(sets);
    }
    out
}
