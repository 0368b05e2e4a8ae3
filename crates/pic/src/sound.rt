// Power-on, and whether a controller is sound.

ghost use Rattle.std.specs.Prelude.{◌≡◌};
ghost use Rattle.pic.specs.Sound.{source_sound_at, initial, sources_sound, sound_of};
ghost use Rattle.pic.specs.Calls.{power_on_of};

use crate::{Controller, Outcome, Scalars};
use outcome::Answering;
use pic_source::Field;
use questions::Refusal;
use source_count::is_count;

// All else 0.
fn with_sources(n: u8) -> Controller
    ensures { result ≡ initial n }
{
    let scalars = Scalars {
        priord: 0,
        base: 0,
        claim: 0,
        threshold: Field(0),
        claimed: Field(0),
        current: Field(0),
    };
    Controller {
        sources: n,
        field: [0u8; 256],
        enable: [0u8; 256],
        trigger: [0u8; 256],
        polarity: [0u8; 256],
        line: [0u8; 256],
        latch: [0u8; 256],
        scalars,
    }
}

impl Controller {
    // The controller at power-on with n sources; where n is not 2..255, refusal 2 and the controller of 2 sources.
    #[tactic(auto, unfolding(crate::specs::Calls::power_on_of))]
    pub fn power_on(n: u32) -> Outcome
        ensures { result ≡ power_on_of n }
    {
        if is_count(n) {
            with_sources(n as u8).accept(0)
        } else {
            with_sources(2).refuse_for(Refusal::SourceCount)
        }
    }

    // Whether the values of source s are sound.
    #[tactic(auto, unfolding(crate::specs::Sound::source_sound))]
    fn source_sound(&self, s: u8) -> bool
        ensures { result ≡ source_sound_at self.now s }
    {
        let i = s as usize;
        let line = self.line[i];
        let polarity = self.polarity[i];
        let latch = self.latch[i];
        (self.field[i] <= 15)
            & (self.enable[i] <= 1)
            & (self.trigger[i] <= 1)
            & (polarity <= 1)
            & (line <= 1)
            & (latch <= 1)
            & ((line == polarity) | (latch == 1))
    }

    fn sources_sound(self) -> bool
        ensures { result ≡ sources_sound self self.sources }
    {
        // Each is asked, and not until one is not sound: by `all`, question 8 takes several times as long.
        let mut ok = true;
        for s in 1..=self.sources {
            ok = ok & self.source_sound(s);
        }
        ok
    }

    #[tactic(auto, unfolding(crate::specs::Sound::sound_of))]
    pub fn is_sound(self) -> bool
        ensures { result ≡ sound_of self }
    {
        let v = self.scalars;
        (2 <= self.sources)
            & (v.priord <= 1)
            & (v.base % 1024 == 0)
            & (v.claim <= self.sources)
            & (v.threshold.0 <= 15)
            & (v.claimed.0 <= 15)
            & (v.current.0 <= 15)
            & self.sources_sound()
    }
}
