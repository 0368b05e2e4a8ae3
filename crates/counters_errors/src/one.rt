// One error counter: threshold and count, soundness, what is held of a write, and one error more.

ghost use Rattle.std.specs.Prelude.{◌≡◌};
ghost use Rattle.counters_errors.specs.Errors.{threshold_in, count_in, held_threshold, held_of, error_sound, counted, selected_bit};

use crate::ErrorCounter;

// The threshold that is held where t is written.
fn held_threshold(t: u32) -> u32
    ensures { result ≡ held_threshold t }
{
    t.min(26)
}

impl ErrorCounter {
    // The counter where v is written to its register.
    #[tactic(auto, unfolding(crate::specs::Errors::held_of))]
    pub fn held(v: u32) -> ErrorCounter
        ensures { result ≡ held_of v }
    {
        let t = held_threshold(v / 0x8000000);
        ErrorCounter(t * 0x8000000 + v % 0x8000000)
    }

    // Bits 31:27.
    fn threshold(self) -> u32
        ensures { result ≡ threshold_in self }
    {
        self.0 / 0x8000000
    }

    // Bits 26:0.
    fn count(self) -> u32
        ensures { result ≡ count_in self }
    {
        self.0 % 0x8000000
    }

    // Whether the threshold is in its range. The count is, by its place.
    #[tactic(auto, unfolding(crate::specs::Errors::error_sound))]
    pub(crate) fn is_sound(self) -> bool
        ensures { result ≡ error_sound self }
    {
        self.threshold() <= 26
    }

    // The counter with one error more.
    #[tactic(auto, unfolding(crate::specs::Errors::counted))]
    pub(crate) fn counted(self) -> ErrorCounter
        ensures { result ≡ counted self }
    {
        let t = self.threshold();
        let n = (self.count() + 1) % 0x8000000;
        ErrorCounter(t * 0x8000000 + n)
    }

    // The bit of the count that the threshold selects.
    #[tactic(auto, unfolding(crate::specs::Errors::selected_bit))]
    pub(crate) fn selected_bit(self) -> u32
        ensures { result ≡ selected_bit self }
    {
        let t = self.threshold();
        (self.count() >> t) % 2
    }
}
