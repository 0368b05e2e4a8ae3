// Pieces of a line, put one after the other.

ghost use Rattle.std.specs.Prelude.{◌≡◌};
ghost use Rattle.digits.specs.Put.{put_at, place_after};
ghost use Rattle.digits.specs.Pieces.{piece_text, texts_of, put_each, place_after_each};

use crate::{put_byte, put_decimal, put_hex, put_text};

// A piece of a line: a text, a byte, a number in decimal, or one in hexadecimal in at least so many digits.
#[derive(Clone, Copy)]
pub enum Piece<'a> {
    Text(&'a [u8]),
    Byte(u8),
    Decimal(u64),
    Hex(usize, u32),
}

// Puts a piece, as put_text puts its text.
// A buffer and a place, as of the calls that it matches with.
fn put_piece(buffer: &mut [u8], at: usize, piece: Piece<'_>) -> usize
    ensures value { result ≡ place_after buffer.old at (piece_text piece.entry) }
    ensures buffer_after { buffer.new ≡ put_at buffer.old at (piece_text piece.entry) }
{
    match piece {
        Piece::Text(text) => put_text(buffer, at, text),
        Piece::Byte(b) => put_byte(buffer, at, b),
        Piece::Decimal(n) => put_decimal(buffer, at, n),
        Piece::Hex(least, n) => put_hex(buffer, at, least, n),
    }
}

// Puts the pieces one after the other, each as put_text puts its text, and answers the place after the last.
pub fn put_pieces(buffer: &mut [u8], at: usize, pieces: &[Piece<'_>]) -> usize
    ensures value { result ≡ place_after_each buffer.old at (texts_of pieces.now) }
    ensures buffer_after { buffer.new ≡ put_each buffer.old at (texts_of pieces.now) }
{
    let mut next = at;
    for piece in pieces {
        next = put_piece(buffer, next, *piece);
    }
    next
}
