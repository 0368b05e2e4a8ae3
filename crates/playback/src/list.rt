// The lines of a list that was played, and the line of a record that is refused.

ghost use Rattle.std.specs.Prelude.{◌≡◌, ◌≤◌, leb, length, pos};
ghost use Rattle.std.specs.Int.Signed.{lt_z};
ghost use Rattle.buffers.specs.Filled.{filled};
ghost use Rattle.playback.specs.Print.{lines_of, lines_length, lines_into, refused_length, refused_into};
ghost use Rattle.playback.specs.Size.{lines_room};
ghost use Rattle.playback.specs.Text.{minus};

use buffers::lesser;
use digits::Piece::{Byte, Decimal, Text};
use digits::put_pieces;
use handlers::Machine;
use record::MOST_EVENTS;

// The most bytes that the first line, the line of any event and the last line have. No number has more than 20 digits; in the line of an event the kind has at
// most 5, the answer 10 and the refusal 3.
pub(crate) const FIRST_LINE_SIZE: usize = 57;

const ANY_LINE_SIZE: usize = 42;

pub(crate) const LAST_LINE_SIZE: usize = 86;

// Enough for the lines of any list of as many events as a record may have.
pub const LINES_SIZE: usize = FIRST_LINE_SIZE + MOST_EVENTS * ANY_LINE_SIZE + LAST_LINE_SIZE;

// The sign of a number: a minus below 0, else nothing.
#[tactic(auto, unfolding(digits::specs::Ascii::ascii))]
fn sign(z: i32) -> &'static [u8]
    ensures { result.now ≡ minus (lt_z z (pos 0)) }
{
    if z < 0 { b"-" } else { b"" }
}

// Puts the lines of a list that was played at the start, where there is room for them.
pub(crate) fn put_lines(
    out: &mut [u8],
    sources: u32,
    heads: &[u32],
    answers: &[u32],
    refusals: &[u8],
    m: Machine,
) -> usize
    requires { (length heads.now ≤ length answers.now) × (length heads.now ≤ length refusals.now)
        × (length (lines_of sources heads.now answers.now refusals.now m) ≤ length out.old) }
    ensures value { result ≡ length (lines_of sources heads.now answers.now refusals.now m) }
    ensures out_after { out.new ≡ filled (lines_of sources heads.now answers.now refusals.now m) out.old }
{
    let mut at = put_pieces(
        out,
        0,
        &[
            Text(b"sources "),
            Decimal(sources as u64),
            Text(b" events "),
            Decimal(heads.len() as u64),
            Byte(b'\n'),
        ],
    );
    // By the index of the head: a chain of three arrays with their index would be no plainer.
    for (i, head) in heads.iter().enumerate() {
        at = put_pieces(
            out,
            at,
            &[
                Decimal(i as u64),
                Byte(b' '),
                Decimal(event::kind(*head) as u64),
                Byte(b' '),
                Decimal(answers[i] as u64),
                Byte(b' '),
                Decimal(refusals[i] as u64),
                Byte(b'\n'),
            ],
        );
    }
    let margin = m.margin().unwrap_or(0);
    let level = m.controller.current_rank();
    put_pieces(
        out,
        at,
        &[
            Text(b"end open "),
            Decimal(m.service.depth as u64),
            Text(b" level "),
            Decimal(level.0 as u64),
            Text(b" margin "),
            Text(sign(margin)),
            Decimal(margin.unsigned_abs() as u64),
            Byte(b'\n'),
        ],
    )
}

// Whether so many bytes have room for the lines of any k events.
fn has_room(k: usize, space: usize) -> bool
    ensures { result ≡ leb (lines_room k) space }
{
    space
        .checked_sub(FIRST_LINE_SIZE + LAST_LINE_SIZE)
        .is_some_and(|rest| k <= rest / ANY_LINE_SIZE)
}

// Prints the lines of a list that was played into a buffer of any length, for as many events as heads, answers and refusals all have: the lines fill its first
// bytes, and the answer is how many. With less room than the lines of any so many events may need it stays as it was, and the answer is 0.
// No Option, here and in print_refused and print_into: 0 is what the published calls answer where there is no room (`length_put`), and what C is promised.
// Answers beside refusals: lent arrays are of numbers.
pub fn print_lines(
    sources: u32,
    heads: &[u32],
    answers: &[u32],
    refusals: &[u8],
    m: Machine,
    out: &mut [u8],
) -> usize
    ensures value { result ≡ lines_length sources heads.now answers.now refusals.now m (length out.old) }
    ensures out_after { out.new ≡ lines_into sources heads.now answers.now refusals.now m out.old }
{
    let k = lesser(heads.len(), lesser(answers.len(), refusals.len()));
    if !has_room(k, out.len()) {
        return 0;
    }
    put_lines(out, sources, &heads[..k], answers, refusals, m)
}

// Prints the line of a record that is refused into a buffer of any length, as print_lines does; the room of a first line is enough.
// Of any two numbers, as the published call is.
pub fn print_refused(refusal: u8, place: usize, out: &mut [u8]) -> usize
    ensures value { result ≡ refused_length refusal place (length out.old) }
    ensures out_after { out.new ≡ refused_into refusal place out.old }
{
    if out.len() < FIRST_LINE_SIZE {
        return 0;
    }
    put_pieces(
        out,
        0,
        &[
            Text(b"refused "),
            Decimal(refusal as u64),
            Text(b" at "),
            Decimal(place as u64),
            Byte(b'\n'),
        ],
    )
}
