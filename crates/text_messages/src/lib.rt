// What the converters of texts say on standard error.
#![tactic(auto)]

ghost use Rattle.std.specs.Prelude.{◌≡◌, ◌≤◌, length};
ghost use Rattle.buffers.specs.Filled.{filled, HasFirst};
ghost use Rattle.digits.specs.Pieces.{texts_of, joined};
ghost use Rattle.text_messages.specs.Messages.{why_words, is_of_line, bad_text, refused_with, refused_in};
ghost use Rattle.text_messages.specs.Messages.{refused as refused_message};

use digits::Piece::{Decimal, Text};
use digits::{Piece, put_pieces, put_text};
use refusals::{WORDS_SIZE, words_of};

// Enough for each message: its texts, three numbers of at most 20 digits and the words.
pub const MESSAGE_SIZE: usize = 8 + 20 + 4 + 20 + 7 + 20 + 1 + 2 + WORDS_SIZE + 1;

// Why a line is bad, by the reader's number.
// Of any number, as the published call is.
#[tactic(auto, unfolding(digits::specs::Ascii::ascii))]
fn why_words(why: u8) -> &'static [u8]
    ensures { result.now ≡ why_words why }
{
    match why {
        1 => b"not N, one to three decimal digits",
        2 => b"not HEAD:VALUE in hexadecimal",
        5 => b"the head has fewer than eight digits",
        _ => words_of(3),
    }
}

// Whether such a number is that of a bad line.
fn is_of_line(why: u8) -> bool
    ensures { result ≡ is_of_line why }
{
    matches!(why, 1..=3 | 5)
}

// Says why a text is bad, and in which line: the message fills the first bytes, and the answer is how many.
// Numbers, not a fault: published, it says something of any number.
pub fn bad_text(why: u8, line: usize, out: &mut [u8; MESSAGE_SIZE]) -> usize
    ensures value { result ≡ length (bad_text why line) }
    ensures out_after { out.new ≡ filled (bad_text why line) out.old }
    ensures has_first { HasFirst result out.new }
{
    if is_of_line(why) {
        put_pieces(
            out,
            0,
            &[
                Text(b"refused at line "),
                Decimal(line as u64),
                Text(b": "),
                Text(why_words(why)),
                Text(b"\n"),
            ],
        )
    } else {
        put_text(out, 0, b"refused: the text has more than 1,048,576 bytes\n")
    }
}

// Puts a refusal and its place, what is said of the line, and the words.
// Both are the numbers that the published calls are given.
fn put_refusal(refusal: u8, place: usize, line: &[Piece<'_>], out: &mut [u8]) -> usize
    requires { length (refused_with refusal place (joined (texts_of line.now))) ≤ length out.old }
    ensures value { result ≡ length (refused_with refusal place (joined (texts_of line.now))) }
    ensures out_after { out.new ≡ filled (refused_with refusal place (joined (texts_of line.now))) out.old }
    ensures has_first { HasFirst result out.new }
{
    let a = put_pieces(
        out,
        0,
        &[
            Text(b"refused "),
            Decimal(refusal as u64),
            Text(b" at "),
            Decimal(place as u64),
        ],
    );
    let b = put_pieces(out, a, line);
    put_pieces(out, b, &[Text(b": "), Text(words_of(refusal)), Text(b"\n")])
}

// Says why a record is refused, and at which place.
// Numbers, not what is refused: published, it says something of any number.
pub fn refused(refusal: u8, place: usize, out: &mut [u8; MESSAGE_SIZE]) -> usize
    ensures value { result ≡ length (refused_message refusal place) }
    ensures out_after { out.new ≡ filled (refused_message refusal place) out.old }
    ensures has_first { HasFirst result out.new }
{
    put_refusal(refusal, place, &[], out)
}

// Says why the record of a text is refused, at which place, and in which line of the text.
// Numbers, as in `refused`.
pub fn refused_in(refusal: u8, place: usize, line: usize, out: &mut [u8; MESSAGE_SIZE]) -> usize
    ensures value { result ≡ length (refused_in refusal place line) }
    ensures out_after { out.new ≡ filled (refused_in refusal place line) out.old }
    ensures has_first { HasFirst result out.new }
{
    put_refusal(
        refusal,
        place,
        &[Text(b" (line "), Decimal(line as u64), Text(b")")],
        out,
    )
}
