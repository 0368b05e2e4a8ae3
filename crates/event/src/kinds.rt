ghost use Rattle.std.specs.Prelude.{◌≡◌};
ghost use Rattle.questions.specs.Numbers.{number_in};
ghost use Rattle.event.specs.Event.{Names, uses_address, uses_value, unused_of};

use questions::Refusal;

// The kinds by their names, in the order of their numbers.
#[derive(Clone, Copy, Debug, PartialEq, Eq)]
pub enum Kind {
    Sample,
    Load,
    Store,
    CsrRead,
    CsrWrite,
    Take,
    Open,
    Chain,
    Return,
    SetMask,
    Clock,
    Error,
    Look,
    Commit,
}

// A number that is of no kind.
#[derive(Clone, Copy, Debug, PartialEq, Eq)]
pub struct NoKind(pub u32);

impl TryFrom<u32> for Kind {
    type Error = NoKind;

    ghost try_from_gives = { Names };

    fn try_from(number: u32) -> Result<Kind, NoKind> {
        match number {
            0 => Ok(Kind::Sample),
            1 => Ok(Kind::Load),
            2 => Ok(Kind::Store),
            3 => Ok(Kind::CsrRead),
            4 => Ok(Kind::CsrWrite),
            5 => Ok(Kind::Take),
            6 => Ok(Kind::Open),
            7 => Ok(Kind::Chain),
            8 => Ok(Kind::Return),
            9 => Ok(Kind::SetMask),
            10 => Ok(Kind::Clock),
            11 => Ok(Kind::Error),
            12 => Ok(Kind::Look),
            13 => Ok(Kind::Commit),
            _ => Err(NoKind(number)),
        }
    }
}

impl Kind {
    // Whether an event of this kind uses its address.
    pub fn uses_address(self) -> bool
        ensures { result ≡ uses_address self }
    {
        matches!(
            self,
            Kind::Sample
                | Kind::Load
                | Kind::Store
                | Kind::CsrRead
                | Kind::CsrWrite
                | Kind::Error
                | Kind::Commit
        )
    }

    // Whether it uses its value.
    pub fn uses_value(self) -> bool
        ensures { result ≡ uses_value self }
    {
        matches!(
            self,
            Kind::Sample | Kind::Store | Kind::CsrWrite | Kind::SetMask
        )
    }

    // Question 7 of an event of this kind.
    #[tactic(auto, unfolding(questions::specs::Numbers::number_in))]
    pub fn ask_unused(self, address: u32, value: u32) -> Result<(), Refusal>
        ensures { number_in result ≡ unused_of self address value }
    {
        if (self.uses_address() || address == 0) && (self.uses_value() || value == 0) {
            Ok(())
        } else {
            Err(Refusal::UnusedPart)
        }
    }
}
