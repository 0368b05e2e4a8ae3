// A record played: bytes in, numbers out.
#![tactic(auto)]

ghost use Rattle.std.specs.Prelude.{◌≡◌, length};
ghost use Rattle.playback_numbers.specs.Numbers.{all_numbers, accepted_with, numbers_of, answers_left, refusals_left, ServesFor};

use handlers::Machine;
use record::{MOST_EVENTS, Refused};

// What is told of a record that was played: N and n; and of the machine after all events, how many handlers are open, current's rank and the margin.
#[derive(Clone, Copy, Debug, PartialEq, Eq)]
pub struct Numbers {
    pub sources: u8,
    pub events: u16,
    pub depth: u8,
    pub level: u8,
    pub margin: i32,
}

// So many places, and no more than any record needs.
fn places(n: usize) -> usize
    ensures { ServesFor result n }
{
    n.min(MOST_EVENTS)
}

// The numbers of a record that is accepted, by the machine after its events.
fn accepted(sources: u8, events: u16, m: Machine) -> Numbers
    ensures { all_numbers (Ok result) ≡ accepted_with sources events m }
{
    Numbers {
        sources,
        events,
        depth: m.service.depth,
        level: m.controller.current_rank().0,
        margin: m.margin().unwrap_or(0),
    }
}

// Plays a record from its bytes. Accepted, what its events answer and what they are refused with stands in the first n places of the two arrays; refused, both
// stay as they were. Question 5 asks whether both have n places.
// Answers beside refusals: C takes these two arrays.
pub fn play(record: &[u8], answers: &mut [u32], refusals: &mut [u8]) -> Result<Numbers, Refused>
    ensures value { all_numbers result ≡ numbers_of «record».now (length answers.old) (length refusals.old) }
    ensures answers_after { answers.new ≡ answers_left «record».now answers.old refusals.old }
    ensures refusals_after { refusals.new ≡ refusals_left «record».now answers.old refusals.old }
{
    // Fixed arrays, heads beside values: there is no heap, and `read` and `play` take slices of numbers. A part of each serves for the places of answers and of
    // refusals.
    let mut heads: [u32; MOST_EVENTS] = [0; MOST_EVENTS];
    let mut values: [u32; MOST_EVENTS] = [0; MOST_EVENTS];
    let heads = &mut heads[..places(answers.len())];
    let values = &mut values[..places(refusals.len())];
    let sizes = record::read(record, heads, values)?;
    let played = claims::play(
        sizes.sources,
        &heads[..sizes.events],
        &values[..sizes.events],
        answers,
        refusals,
    );
    Ok(accepted(sizes.sources as u8, sizes.events as u16, played.machine))
}
