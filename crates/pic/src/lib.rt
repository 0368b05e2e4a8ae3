// The VeeR EH1 interrupt controller: what it holds, power-on, soundness, winner, margin and capture. Its registers are in the crates above. Every call has an
// answer for every controller, sound or not.
#![tactic(auto)]

pub mod calls;
mod sound;
mod sources;

use outcome::Answering;
use pic_comparator::Winner;
use pic_source::Field;

// What the controller holds beside its sources.
#[derive(Clone, Copy)]
pub struct Scalars {
    pub priord: u8,
    pub base: u32,
    pub claim: u8,
    // the fields of meipt, meicidpl and meicurpl
    pub threshold: Field,
    pub claimed: Field,
    pub current: Field,
}

// The controller. The arrays are indexed by source number; places 0 and above the number of sources mean nothing. It holds fields as they were written; a rank
// is worked out from its field and priord where it is used.
// Number arrays for each source, and numbers for flags: 01 names this form, and question 8 is asked of any such value, sound or not.
#[derive(Clone, Copy)]
pub struct Controller {
    pub sources: u8,
    // the field of meipl
    pub field: [u8; 256],
    pub enable: [u8; 256],
    // 0 level, 1 edge: the type of document 01
    pub trigger: [u8; 256],
    pub polarity: [u8; 256],
    pub line: [u8; 256],
    pub latch: [u8; 256],
    pub scalars: Scalars,
}

// What an event hands back.
pub type Outcome = outcome::Outcome<Controller>;

impl Answering for Controller {}

// One look at the sources: the winner, whether it is above the threshold, the margin, and meihap once it is captured.
#[derive(Clone, Copy)]
pub struct Look {
    pub winner: Winner,
    pub above: bool,
    pub margin: i32,
    pub meihap: u32,
}
