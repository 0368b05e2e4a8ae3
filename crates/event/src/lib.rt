// An event of a record: a head and a value, 32 bits each.
#![tactic(auto)]

pub mod kinds;

ghost use Rattle.std.specs.Prelude.{◌≡◌};
ghost use Rattle.questions.specs.Numbers.{number_in};
ghost use Rattle.event.specs.Event.{kind_of, address_of, NamedIn, AskedOf, shape_of};

use kinds::Kind;
use questions::Refusal;

// The kind of a head.
pub fn kind(head: u32) -> u32
    ensures { result ≡ kind_of head }
{
    head / 65536
}

// The address of a head.
pub fn address(head: u32) -> u32
    ensures { result ≡ address_of head }
{
    head % 65536
}

// Question 6 of an event: its kind.
pub fn kind_named(head: u32) -> Result<Kind, Refusal>
    ensures { NamedIn head result }
{
    Kind::try_from(kind(head)).map_err(|_| Refusal::NoSuchKind)
}

// Questions 6 and 7 of an event, first no decides: its kind.
#[tactic(auto, unfolding(questions::specs::Numbers::number_in, crate::specs::Event::shape_of))]
pub fn kind_asked(head: u32, value: u32) -> Result<Kind, Refusal>
    ensures { AskedOf head value result }
{
    let kind = kind_named(head)?;
    kind.ask_unused(address(head), value)?;
    Ok(kind)
}

// The same where the kind does not matter.
#[tactic(auto, unfolding(questions::specs::Numbers::number_in, crate::specs::Event::shape_of))]
pub fn shape(head: u32, value: u32) -> Result<(), Refusal>
    ensures { number_in result ≡ shape_of head value }
{
    kind_asked(head, value)?;
    Ok(())
}
