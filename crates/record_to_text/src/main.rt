// Makes a text of a record, from a file or from standard input: the text on standard output. A record that is refused is said on standard error.
#![tactic(auto)]

use record::{RECORD_SIZE, Refused};
use text_messages::MESSAGE_SIZE;
use text_writer::LISTING_SIZE;

// One byte more than the longest record: it shows that input is longer, which question 2, 3 or 4 then refuses.
const INPUT_SIZE: usize = RECORD_SIZE + 1;

// Says why the record is refused, and at which place.
fn say_refused(rt: &HostRuntime, refused: Refused) {
    let mut message: [u8; MESSAGE_SIZE] = [0; MESSAGE_SIZE];
    let length = text_messages::refused(refused.refusal.into(), refused.place, &mut message);
    console::say(rt, &message[..length]);
}

fn convert(rt: &HostRuntime, bytes: &[u8]) {
    let mut text: [u8; LISTING_SIZE] = [0; LISTING_SIZE];
    match text_writer::to_text(bytes, &mut text) {
        Ok(length) => console::write_out(rt, &text[..length]),
        Err(refused) => say_refused(rt, refused),
    }
}

fn main(rt: HostRuntime) {
    let mut buffer: [u8; INPUT_SIZE] = [0; INPUT_SIZE];
    if let Some(bytes) = console::read_input(
        &rt,
        &mut buffer,
        b"usage: record_to_text [FILE]\nmakes a text of the record in FILE, or on standard input\n",
    ) {
        convert(&rt, bytes);
    }
}
