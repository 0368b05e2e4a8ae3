// Lists of events played from power-on, under the claim of nested handlers.
#![tactic(auto)]

mod machines;

ghost use Rattle.std.specs.Prelude.{◌≡◌, length, take};
ghost use Rattle.buffers.specs.Filled.{filled};
ghost use Rattle.handlers.specs.Machines.{power_on_of};
ghost use Rattle.claims.specs.Play.{events_played, played_of, answers_of, refusals_of};
ghost use Rattle.claims.specs.Nested.{Claimed};

use buffers::lesser;
use handlers::{Checked, Machine};
pub use machines::Plays;

// The end machine, how many events were played, and power-on's refusal.
#[derive(Clone, Copy)]
pub struct Played {
    pub machine: Machine,
    pub events: usize,
    // A number, as in an outcome.
    pub refusal: u8,
}

// Plays the events from power-on with n sources on a machine of this type, and stores what each answers and what it is refused with. As many events are played as heads,
// values, answers and refusals all have places; the places beyond stay as they were.
pub fn play_on<P: Plays>(
    n: u32,
    heads: &[u32],
    values: &[u32],
    answers: &mut [u32],
    refusals: &mut [u8],
) -> Played
    ensures value { result ≡ played_of n (events_played (length heads.now) (length values.now) (length answers.old) (length refusals.old)) heads.now values.now }
    ensures answers_after { answers.new ≡ filled (answers_of (power_on_of n).machine (take result.events heads.now) (take result.events values.now)) answers.old }
    ensures refusals_after { refusals.new ≡ filled (refusals_of (power_on_of n).machine (take result.events heads.now) (take result.events values.now)) refusals.old }
    ensures claimed { Claimed n (take result.events heads.now) (take result.events values.now) result.machine }
{
    let on = P::start(n);
    let mut m = on.machine;
    let k = lesser(
        lesser(heads.len(), values.len()),
        lesser(answers.len(), refusals.len()),
    );
    // By the index: four slices of four lengths, and their least is the answer.
    for i in 0..k {
        let answered = m.advance(heads[i], values[i]);
        answers[i] = answered.answer;
        refusals[i] = answered.refusal;
    }
    Played {
        machine: m.leave(),
        events: k,
        refusal: on.refusal,
    }
}

// Plays the events on a machine that is asked question 8 once, as play_on does. One call of it, as play_lent is: both names are published.
pub fn play(
    n: u32,
    heads: &[u32],
    values: &[u32],
    answers: &mut [u32],
    refusals: &mut [u8],
) -> Played
    ensures value { result ≡ played_of n (events_played (length heads.now) (length values.now) (length answers.old) (length refusals.old)) heads.now values.now }
    ensures answers_after { answers.new ≡ filled (answers_of (power_on_of n).machine (take result.events heads.now) (take result.events values.now)) answers.old }
    ensures refusals_after { refusals.new ≡ filled (refusals_of (power_on_of n).machine (take result.events heads.now) (take result.events values.now)) refusals.old }
    ensures claimed { Claimed n (take result.events heads.now) (take result.events values.now) result.machine }
{
    play_on::<Checked>(n, heads, values, answers, refusals)
}
