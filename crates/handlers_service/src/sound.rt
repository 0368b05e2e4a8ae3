// The service with no handler, and whether a service is sound.

ghost use Rattle.std.specs.Prelude.{◌≡◌};
ghost use Rattle.handlers_service.specs.Sound.{no_handlers, sound_of, uppermost as uppermost_handler};

use crate::Service;
use handlers_stack::{Handler, handlers_sound, level, no_handler, uppermost};
use pic_source::Rank;

impl Service {
    // The service at power-on.
    pub fn reset() -> Service
        ensures { result ≡ no_handlers }
    {
        let h = no_handler();
        Service {
            mask: 0,
            depth: 0,
            stack: [h; 15],
        }
    }

    // The uppermost handler.
    pub fn uppermost(self) -> Handler
        ensures { result ≡ uppermost_handler self }
    {
        let s = self.stack;
        uppermost(s, self.depth)
    }

    // What question 8 asks of mask and stack, with n sources and this current rank.
    #[tactic(auto, unfolding(crate::specs::Sound::sound_of))]
    pub fn is_sound(self, n: u8, current: Rank) -> bool
        ensures { result ≡ sound_of self n current }
    {
        let d = self.depth;
        let s = self.stack;
        let h = uppermost(s, d);
        (d <= 15)
            & (self.mask <= 1)
            & handlers_sound(n, d, s)
            & ((d == 0) | (current == level(h)))
            & ((self.mask == 0) | ((d == 0) | (h.opened == 1)))
    }
}
