// Plays a record on one machine that is lent for each event: the record from a file or from standard input, and on standard output what the player prints.
#![tactic(auto)]

use handlers::Machine;

// One byte more than the longest record, so that longer input is refused by the questions, as all of it would be.
const INPUT_SIZE: usize = record::RECORD_SIZE + 1;

// Writes the print of a record.
// In each player: the print that it calls is all that its three lines are about.
fn show(rt: &HostRuntime, record: &[u8]) {
    let mut out: [u8; playback::PRINT_SIZE] = [0; playback::PRINT_SIZE];
    let length = playback::print_on::<Machine>(record, &mut out);
    console::write_out(rt, &out[..length]);
}

fn main(rt: HostRuntime) {
    let mut buffer: [u8; INPUT_SIZE] = [0; INPUT_SIZE];
    if let Some(record) = console::read_input(
        &rt,
        &mut buffer,
        b"usage: lent_player [FILE]\nplays the record in FILE, or on standard input, on a lent machine, and prints it\n",
    ) {
        show(&rt, record);
    }
}
