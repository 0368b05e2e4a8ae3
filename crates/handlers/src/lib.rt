// The machine: the interrupt controller with the handler service above it, its timers and its error counters.
#![tactic(auto)]

mod calls;
mod checking;
mod events;
mod service;
mod sound;

use counters::Counters;
use handlers_service::Service;
pub use outcome::Answered;
use outcome::Answering;
use pic::Controller;

// The machine. The controller stands last: an event of the player then costs a copy of it less.
#[derive(Clone, Copy)]
pub struct Machine {
    pub service: Service,
    pub counters: Counters,
    pub controller: Controller,
}

// What an event hands back.
pub type Outcome = outcome::Outcome<Machine>;

impl Answering for Machine {}

// A machine that was asked whether it is sound. Its field is private, so that only `start` and `enter` make one. No
// invariant: that an event keeps a machine sound is a law of handlers_laws, which stands above.
#[derive(Clone, Copy)]
pub struct Checked {
    machine: Machine,
}

// What power-on, entering a machine and an event hand back.
pub type CheckedOutcome = outcome::Outcome<Checked>;

impl Answering for Checked {}
