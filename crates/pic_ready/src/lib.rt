// The ready sets of a controller, worked out afresh.
#![tactic(auto)]

ghost use Rattle.std.specs.Prelude.{◌≡◌};
ghost use Rattle.pic_ready.specs.Ready.{ready_at, fresh_of};

use pic::Controller;
use pic_sets::Sets;
use pic_sets::flips::update;
use pic_source::sources::is_source;

// Whether s is a source that is enabled and pending.
#[tactic(auto, unfolding(crate::specs::Ready::ready_at))]
pub fn ready(c: &Controller, s: u8) -> bool
    ensures { result ≡ ready_at c.now s }
{
    is_source(c.sources, s as u32) & c.waits(s)
}

// Each source enters the set of its rank, if it is enabled and pending.
pub fn ready_sets(c: Controller) -> Sets
    ensures { result ≡ fresh_of c }
{
    let mut sets = [[0u32; 8]; 16];
    for s in 1..=c.sources {
        let rank = c.rank(s);
        update(&mut sets, s, rank, false, rank, ready(&c, s));
    }
    sets
}
