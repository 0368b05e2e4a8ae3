// Makes a record of a text, from a file or from standard input: the record on standard output. A text that is refused is said on standard error.
#![tactic(auto)]

ghost use Rattle.std.specs.Prelude.{◌≡◌, ◌+◌, length};
ghost use Rattle.text_reader.specs.Reading.{text_size};

use record::RECORD_SIZE;
use text_messages::{MESSAGE_SIZE, bad_text, refused_in};
use text_reader::{NotRecord, TEXT_SIZE};

// One byte more than the longest text, so that longer input is refused, as all of it would be.
const INPUT_SIZE: usize = TEXT_SIZE + 1;

// Says why no record is made of the text, and in which line.
fn say_refused(rt: &HostRuntime, why: NotRecord) {
    let mut message: [u8; MESSAGE_SIZE] = [0; MESSAGE_SIZE];
    let length = match why {
        NotRecord::BadText(fault) => bad_text(fault.why.into(), fault.line, &mut message),
        NotRecord::Refused { refused, line } => {
            refused_in(refused.refusal.into(), refused.place, line, &mut message)
        }
    };
    console::say(rt, &message[..length]);
}

fn convert(rt: &HostRuntime, text: &[u8]) {
    let mut bytes: [u8; RECORD_SIZE] = [0; RECORD_SIZE];
    match text_reader::to_record(text, &mut bytes) {
        Ok(length) => console::write_out(rt, &bytes[..length]),
        Err(why) => say_refused(rt, why),
    }
}

// Zeros, to be read into. The contract keeps the prover from writing them out.
fn buffer() -> [u8; INPUT_SIZE]
    ensures { text_size + 1 ≡ length result }
{
    [0; INPUT_SIZE]
}

fn main(rt: HostRuntime) {
    let mut buffer = buffer();
    if let Some(text) = console::read_input(
        &rt,
        &mut buffer,
        b"usage: text_to_record [FILE]\nmakes a record of the text in FILE, or on standard input\n",
    ) {
        convert(&rt, text);
    }
}
