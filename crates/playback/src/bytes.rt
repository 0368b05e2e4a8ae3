// The whole print of a record.
// Heads stand beside values, answers beside refusals: what is lent is numbers, and C, `read` and `play` take them apart.

ghost use Rattle.std.specs.Prelude.{◌≡◌, ◌≤◌, length};
ghost use Rattle.buffers.specs.Filled.{filled, HasFirst};
ghost use Rattle.playback.specs.Print.{refused_line, played_lines, KnownKinds, length_put, put_into, print_of, compact_print_of, printed_length, printed_into};
ghost use Rattle.playback.specs.Size.{print_room};
ghost use Rattle.questions.specs.Numbers.{number_of};
ghost use Rattle.record.specs.Record.{board, most_events};

use crate::list::{FIRST_LINE_SIZE, LAST_LINE_SIZE, print_refused, put_lines};
use claims::Plays;
use handlers::Checked;
use record::{BOARD, COMPACT, COMPACT_EVENTS, Limits, MOST_EVENTS, Refused};

// The most bytes that the line of an event of a record has: the index has at most 4 digits, the kind 2, the answer 10 and the refusal 3.
const EVENT_LINE_SIZE: usize = 23;

// Enough for the print of any record.
pub const PRINT_SIZE: usize = FIRST_LINE_SIZE + MOST_EVENTS * EVENT_LINE_SIZE + LAST_LINE_SIZE;

// Enough for the print of any record that the compact player takes.
pub const COMPACT_PRINT_SIZE: usize = FIRST_LINE_SIZE
    + COMPACT_EVENTS * EVENT_LINE_SIZE
    + LAST_LINE_SIZE;

// The bytes that the print of a record with so many events may need.
fn print_room(events: usize) -> usize
    requires { events ≤ most_events }
    ensures { result ≡ print_room events }
{
    FIRST_LINE_SIZE + events * EVENT_LINE_SIZE + LAST_LINE_SIZE
}

// Plays the events of an accepted record from power-on on a machine of this type, with places for what they answer and are refused with, and prints them, as
// print_into does.
fn print_played<P: Plays>(
    out: &mut [u8],
    sources: u32,
    heads: &[u32],
    values: &[u32],
    answers: &mut [u32],
    refusals: &mut [u8],
) -> usize
    requires { (length heads.now ≤ most_events) × (length values.now ≡ length heads.now) × KnownKinds heads.now
        × (length heads.now ≤ length answers.old) × (length heads.now ≤ length refusals.old) }
    ensures value { result ≡ length_put (print_room (length heads.now)) (played_lines sources heads.now values.now) (length out.old) }
    ensures out_after { out.new ≡ put_into (print_room (length heads.now)) (played_lines sources heads.now values.now) out.old }
{
    if out.len() < print_room(heads.len()) {
        return 0;
    }
    let played = claims::play_on::<P>(sources, heads, values, answers, refusals);
    let m = played.machine;
    put_lines(out, sources, heads, answers, refusals, m)
}

// Prints the line of a bad record, as print_into does: it asks for the room of a print with no events.
fn print_bad(refused: Refused, out: &mut [u8]) -> usize
    ensures value { result ≡ length_put (print_room 0) (refused_line (number_of refused.refusal) refused.place) (length out.old) }
    ensures out_after { out.new ≡ put_into (print_room 0) (refused_line (number_of refused.refusal) refused.place) out.old }
{
    if out.len() < print_room(0) {
        return 0;
    }
    print_refused(u8::from(refused.refusal), refused.place, out)
}

// Prints a record by a reader with these limits, on a machine of this type and on arrays with a place for each event that it takes, as print_into does.
// The arrays are fixed: there is no heap. Their places stand beside the limits, since no const argument is computed.
fn print_by<P: Plays, const EVENTS: usize>(limits: Limits, record: &[u8], out: &mut [u8]) -> usize
    requires { EVENTS ≡ limits.events }
    ensures value { result ≡ printed_length limits «record».now (length out.old) }
    ensures out_after { out.new ≡ printed_into limits «record».now out.old }
{
    let mut heads: [u32; EVENTS] = [0; EVENTS];
    let mut values: [u32; EVENTS] = [0; EVENTS];
    let mut answers: [u32; EVENTS] = [0; EVENTS];
    let mut refusals: [u8; EVENTS] = [0; EVENTS];
    match record::read_within(limits, record, &mut heads, &mut values) {
        Ok(sizes) => print_played::<P>(
            out,
            sizes.sources,
            &heads[..sizes.events],
            &values[..sizes.events],
            &mut answers,
            &mut refusals,
        ),
        Err(refused) => print_bad(refused, out),
    }
}

// Prints any record into a buffer of any length: the print fills its first bytes, and the answer is how many. With less room than the record's print may
// need it stays as it was, nothing is played, and the answer is 0.
// This call and those below it are one call each of what does it for all: their names are published. Each answers a length, as C is promised
// (`printed_length`), and no part of the buffer, which would be lent on and could not be told with `out_after`; so `HasFirst` is a clause.
pub fn print_into(record: &[u8], out: &mut [u8]) -> usize
    ensures value { result ≡ printed_length board «record».now (length out.old) }
    ensures out_after { out.new ≡ printed_into board «record».now out.old }
{
    print_by::<Checked, MOST_EVENTS>(BOARD, record, out)
}

// Prints any record, played on a machine of this type, into a buffer with room for the print of any record.
pub fn print_on<P: Plays>(record: &[u8], out: &mut [u8; PRINT_SIZE]) -> usize
    ensures value { result ≡ length (print_of «record».now) }
    ensures out_after { out.new ≡ filled (print_of «record».now) out.old }
    ensures has_first { HasFirst result out.new }
{
    print_by::<P, MOST_EVENTS>(BOARD, record, out)
}

// Prints any record on a machine that is asked question 8 once, as print_on does.
pub fn print(record: &[u8], out: &mut [u8; PRINT_SIZE]) -> usize
    ensures value { result ≡ length (print_of «record».now) }
    ensures out_after { out.new ≡ filled (print_of «record».now) out.old }
    ensures has_first { HasFirst result out.new }
{
    print_on::<Checked>(record, out)
}

// Prints a short record on little memory, into a buffer with room for the print of any short record: the compact player.
pub fn print_compact(record: &[u8], out: &mut [u8; COMPACT_PRINT_SIZE]) -> usize
    ensures value { result ≡ length (compact_print_of «record».now) }
    ensures out_after { out.new ≡ filled (compact_print_of «record».now) out.old }
    ensures has_first { HasFirst result out.new }
{
    print_by::<Checked, COMPACT_EVENTS>(COMPACT, record, out)
}
