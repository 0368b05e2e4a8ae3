// The handler service: the mask and the stack of handlers, and what take, open, chain, return, set mask, look and commit do with them. It knows the controller only by
// its published answers: one look at its sources, its current rank and its number of sources. What an accepted event does with the controller, the machine does.
#![tactic(auto)]

mod events;
mod sound;

use handlers_stack::Handler;
use outcome::Answering;

// The mask, 0 interrupts off, 1 on, and the handlers. Places of the stack from depth up mean nothing.
// Numbers for flags and for the depth: question 8 is asked of any such value, sound or not.
// The stack and its depth are no struct: the rules `uppermost_of` and `handlers_sound` and docs/RULES.md speak of the two, and tests give them unsound values.
#[derive(Clone, Copy)]
pub struct Service {
    pub mask: u8,
    pub depth: u8,
    pub stack: [Handler; 15],
}

// What an event hands back.
pub type Outcome = outcome::Outcome<Service>;

impl Answering for Service {}
