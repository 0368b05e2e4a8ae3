// The bench's form of an event: one machine is lent, and changed.
#![tactic(auto)]

ghost use Rattle.std.specs.Prelude.{◌≡◌, length, take};
ghost use Rattle.buffers.specs.Filled.{filled};
ghost use Rattle.handlers.specs.Machines.{power_on_of};
ghost use Rattle.handlers.specs.Calls.{step_of};
ghost use Rattle.claims.specs.Play.{events_played, played_of, answers_of, refusals_of};
ghost use Rattle.claims.specs.Nested.{Claimed};
ghost use Rattle.lent_machine.specs.Lend.{answered_of};

use claims::Played;
pub use handlers::Answered;
use handlers::Machine;

// One event on a lent machine, which is changed.
pub fn advance(m: &mut Machine, head: u32, value: u32) -> Answered
    ensures m_after { m.new ≡ (step_of m.old head value).machine }
    ensures value { result ≡ answered_of m.old head value }
{
    m.advance(head, value)
}

// Plays the events from power-on with n sources on one machine, which is lent for each, and stores what each answers and what it is refused with, as claims::play does.
pub fn play_lent(
    n: u32,
    heads: &[u32],
    values: &[u32],
    answers: &mut [u32],
    refusals: &mut [u8],
) -> Played
    ensures value { result ≡ played_of n (events_played (length heads.now) (length values.now) (length answers.old) (length refusals.old)) heads.now values.now }
    ensures answers_after { answers.new ≡ filled (answers_of (power_on_of n).machine (take result.events heads.now) (take result.events values.now)) answers.old }
    ensures refusals_after { refusals.new ≡ filled (refusals_of (power_on_of n).machine (take result.events heads.now) (take result.events values.now)) refusals.old }
    ensures claimed { Claimed n (take result.events heads.now) (take result.events values.now) result.machine }
{
    claims::play_on::<Machine>(n, heads, values, answers, refusals)
}
