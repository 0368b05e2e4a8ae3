// What an event hands back, whatever it is an event of: the machine, or a part of it.
#![tactic(auto)]

ghost use Rattle.std.specs.Prelude.{◌≡◌};
ghost use Rattle.outcome.specs.Outcomes.{accepted_with, refused_with, refused_for, with_machine, answered_by};

use questions::Refusal;

// The new machine, the answer and the refusal, 0 if the event is accepted. A refused one answers 0 and hands back the machine as it was.
#[derive(Clone, Copy)]
pub struct Outcome<M> {
    pub machine: M,
    pub answer: u32,
    // A number: 01 has an event hand back machine, answer and number, and lists store the numbers as they are.
    pub refusal: u8,
}

// What an event answers, and what it is refused with, 0 if it is accepted.
#[derive(Clone, Copy)]
pub struct Answered {
    pub answer: u32,
    // A number, as in an outcome.
    pub refusal: u8,
}

impl<M> Outcome<M> {
    // What it says of the event, with no machine.
    pub fn answered(&self) -> Answered
        ensures { result ≡ answered_by self.now }
    {
        Answered {
            answer: self.answer,
            refusal: self.refusal,
        }
    }

    // The same outcome of another machine, of which this one may be a part.
    pub fn with<N>(&self, machine: N) -> Outcome<N>
        ensures { result ≡ with_machine self.now machine }
    {
        let said = self.answered();
        Outcome {
            machine,
            answer: said.answer,
            refusal: said.refusal,
        }
    }
}

// A machine, or a part of one, that answers events.
pub trait Answering: Sized {
    // It accepts an event, and hands itself back with the answer.
    fn accept(self, answer: u32) -> Outcome<Self>
        ensures { result ≡ accepted_with self answer }
    {
        Outcome {
            machine: self,
            answer,
            refusal: 0,
        }
    }

    // It refuses an event, and hands itself back as it was.
    fn refuse(self, refusal: u8) -> Outcome<Self>
        ensures { result ≡ refused_with self refusal }
    {
        Outcome {
            machine: self,
            answer: 0,
            refusal,
        }
    }

    // It refuses an event by the name of what is wrong.
    fn refuse_for(self, refusal: Refusal) -> Outcome<Self>
        ensures { result ≡ refused_for self refusal }
    {
        self.refuse(u8::from(refusal))
    }
}
