// What the controller answers of a source by its number, and the winner, by a scan of the sources.

ghost use Rattle.std.specs.Prelude.{◌≡◌};
ghost use Rattle.pic.specs.Sources.{rank_at, pending_at, waiting_at, winner_of};

use crate::Controller;
use pic_comparator::{Winner, better};
use pic_source::ranks::to_rank;
use pic_source::sources::{pending, waiting};
use pic_source::{Field, Rank};

impl Controller {
    // The rank of source s.
    pub fn rank(&self, s: u8) -> Rank
        ensures { result ≡ rank_at self.now s }
    {
        to_rank(self.scalars.priord, Field(self.field[s as usize]))
    }

    // Whether source s is pending.
    pub fn is_pending(&self, s: u8) -> bool
        ensures { result ≡ pending_at self.now s }
    {
        let i = s as usize;
        pending(
            self.trigger[i],
            self.polarity[i],
            self.line[i],
            self.latch[i],
        )
    }

    // Whether source s is enabled and pending.
    pub fn waits(&self, s: u8) -> bool
        ensures { result ≡ waiting_at self.now s }
    {
        let at = s as usize;
        waiting(
            self.enable[at],
            self.trigger[at],
            self.polarity[at],
            self.line[at],
            self.latch[at],
        )
    }

    // The winner: the eligible source of highest rank, of equals the lowest number. The rank of a source is worked out only where it is enabled and pending; a
    // rank of 0 is not above any, so it is not asked for.
    pub fn winner(self) -> Winner
        ensures { result ≡ winner_of self }
    {
        let mut w = Winner::none();
        for s in 1..=self.sources {
            if self.waits(s) {
                let e = Winner {
                    source: s,
                    rank: self.rank(s),
                };
                w = better(w, e);
            }
        }
        w
    }
}
