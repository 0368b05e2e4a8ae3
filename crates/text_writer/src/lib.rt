// The text that is made of a record: N in decimal in the first line, then a line head:value in hexadecimal for each event.
#![tactic(auto)]

ghost use Rattle.std.specs.Prelude.{◌≡◌, ◌+◌, ◌*◌, ◌≤◌, ◌<◌, length, take};
ghost use Rattle.buffers.specs.Filled.{filled};
ghost use Rattle.digits.specs.Pieces.{put_each, place_after_each};
ghost use Rattle.text_writer.specs.Writing.{line_texts, listing_of};
ghost use Rattle.text_writer.specs.Answers.{text_numbers, to_text_answer, to_text_bytes, text_length};
ghost use Rattle.text_writer.specs.RoundTrip.{ComesBack};

use digits::Piece::{Byte, Decimal};
use digits::{put_byte, put_hex, put_pieces};
use record::{MOST_EVENTS, Refused};

// The bytes of the longest text that is made: 4 of line 1, and 18 of each event.
pub const LISTING_SIZE: usize = 4 + 18 * MOST_EVENTS;

// Puts the line of an event from a place on, and answers the place after it. Piece by piece: as a row of pieces it takes twice the time, since a number's fewest
// digits are told by its piece then.
fn put_event(text: &mut [u8], at: usize, head: u32, value: u32) -> usize
    ensures value { result ≡ place_after_each text.old at (line_texts head value) }
    ensures text_after { text.new ≡ put_each text.old at (line_texts head value) }
{
    let colon = put_hex(text, at, 8, head);
    let number = put_byte(text, colon, b':');
    let end = put_hex(text, number, 1, value);
    put_byte(text, end, b'\n')
}

// Stores the text of a record, and answers its length.
fn put_listing(text: &mut [u8], sources: u32, heads: &[u32], values: &[u32]) -> usize
    requires { (sources < 1000) × (4 + 18 * length heads.now ≤ length text.old) }
    ensures value { result ≡ length (listing_of sources heads.now values.now) }
    ensures text_after { text.new ≡ filled (listing_of sources heads.now values.now) text.old }
    ensures upper_bound { result ≤ length text.new }
{
    let mut at = put_pieces(text, 0, &[Decimal(sources as u64), Byte(b'\n')]);
    for (head, value) in heads.iter().zip(values) {
        at = put_event(text, at, *head, *value);
    }
    at
}

// Makes a text of a record: accepted, the text fills the first bytes, and their number is answered; refused, all of them stay as they were.
pub fn to_text(bytes: &[u8], text: &mut [u8; LISTING_SIZE]) -> Result<usize, Refused>
    ensures result_value { text_numbers result ≡ to_text_answer bytes.now }
    ensures text_after { text.new ≡ to_text_bytes bytes.now text.old }
    ensures result_in_bounds { text_length result ≤ length text.new }
    ensures comes_back { ComesBack bytes.now (take (text_length result) text.new) }
{
    // Two arrays, and how many are used: memory is fixed, and `record::read` takes two slices.
    let mut heads: [u32; MOST_EVENTS] = [0; MOST_EVENTS];
    let mut values: [u32; MOST_EVENTS] = [0; MOST_EVENTS];
    let sizes = record::read(bytes, &mut heads, &mut values)?;
    let n = sizes.events;
    Ok(put_listing(text, sizes.sources, &heads[..n], &values[..n]))
}
