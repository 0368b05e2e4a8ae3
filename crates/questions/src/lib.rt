// What a record, an event or a query is refused for: the questions, each by what is wrong where it is answered no.
#![tactic(auto)]

ghost use Rattle.std.specs.Prelude.{◌≡◌};
ghost use Rattle.questions.specs.Numbers.{number_of};

// One case for each question, in the order of their numbers.
#[derive(Clone, Copy, Debug, PartialEq, Eq)]
pub enum Refusal {
    TooShort = 1,
    SourceCount = 2,
    TooManyEvents = 3,
    WrongLength = 4,
    NoRoom = 5,
    NoSuchKind = 6,
    UnusedPart = 7,
    NotSound = 8,
    NoSuchWord = 9,
    OffsetTooHigh = 10,
    OffsetNotAligned = 11,
    NoSuchCsr = 12,
    ReadOnlyCsr = 13,
    CurrentInHandler = 14,
    InterruptsOff = 15,
    NoMargin = 16,
    NoHandler = 17,
    OpenedAlready = 18,
    InterruptsOn = 19,
    NotABit = 20,
    NotOpened = 21,
    CompactSources = 22,
    CompactEvents = 23,
    PriordInHandler = 24,
    NoSuchCounter = 25,
    NotTheNext = 26,
    RetiredKind = 27,
}

impl From<Refusal> for u8 {
    ghost from_gives = { λ refusal number. number ≡ number_of refusal };

    fn from(refusal: Refusal) -> u8 {
        refusal as u8
    }
}
