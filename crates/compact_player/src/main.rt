// Plays a short record on little memory, from a file or from standard input: the print on standard output.
#![tactic(auto)]

// One byte more than the longest short record, so that longer input is refused by the questions, as all of it would be.
const INPUT_SIZE: usize = record::COMPACT_SIZE + 1;

// Writes the print of a record.
// In each player: the print that it calls is all that its three lines are about.
fn show(rt: &HostRuntime, record: &[u8]) {
    let mut out: [u8; playback::COMPACT_PRINT_SIZE] = [0; playback::COMPACT_PRINT_SIZE];
    let length = playback::print_compact(record, &mut out);
    console::write_out(rt, &out[..length]);
}

fn main(rt: HostRuntime) {
    let mut buffer: [u8; INPUT_SIZE] = [0; INPUT_SIZE];
    if let Some(record) = console::read_input(
        &rt,
        &mut buffer,
        b"usage: compact_player [FILE]\nplays the record in FILE, or on standard input, with N up to 63 and 500 events, and prints it\n",
    ) {
        show(&rt, record);
    }
}
