// The sets when priord switches.

ghost use Rattle.std.specs.Prelude.{◌≡◌};
ghost use Rattle.pic_sets.specs.Sets.{reversed_of};

use crate::Sets;

// The set of rank r becomes that of rank 15 - r.
pub fn reverse(sets: &mut Sets)
    ensures { sets.new ≡ reversed_of sets.old }
{
    sets.reverse();
}
