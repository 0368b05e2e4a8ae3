// Text and numbers put into a lent buffer, one piece after the other.
#![tactic(auto)]

ghost use Rattle.std.specs.Prelude.{◌≡◌, ◌+◌, ◌≤◌, ◌<◌, [], ◌∷◌, length, leb};
ghost use Rattle.std.proofs.lemmas.List.Edits.{sets};
ghost use Rattle.digits.specs.Digits.{digits_to, decimal, hexadecimal};
ghost use Rattle.digits.specs.Digits.{glyph as glyph_of};
ghost use Rattle.digits.specs.Put.{put_at, place_after};

pub use row::{Piece, put_pieces};

mod row;

// The sign of a digit.
fn glyph(d: u64) -> u8
    requires { d < 16 }
    ensures { result ≡ glyph_of d }
{
    b"0123456789abcdef"[d as usize]
}

// How a number is put: its base, the fewest digits and the most.
#[derive(Clone, Copy)]
struct Form {
    base: u64,
    least: usize,
    most: usize,
    ghost sound: { (1 < base) × (base ≤ 16) × (0 < most) },
}

// How many digits n has: those of its quotients, until one digit is enough.
fn count_digits(form: Form, n: u64) -> usize
    ensures { result ≡ length (digits_to form.base form.least form.most n) }
{
    let mut left = n;
    for k in 1..form.most {
        if left < form.base && form.least <= k {
            return k;
        }
        left /= form.base;
    }
    form.most
}

// Stores the last k digits of n from a place on, the last one first.
fn store_digits(buffer: &mut [u8], at: usize, form: Form, k: usize, n: u64)
    requires { at + k ≤ length buffer.old }
    ensures { buffer.new ≡ sets buffer.old at (digits_to form.base k k n) }
{
    let mut left = n;
    // By the index: of what is stored through an adapter of iter_mut the library says nothing.
    for i in (0..k).rev() {
        buffer[at + i] = glyph(left % form.base);
        left /= form.base;
    }
}

// Whether a buffer of this length holds so many bytes from a place on.
fn has_room(space: usize, at: usize, count: usize) -> bool
    ensures { result ≡ leb (at + count) space }
{
    space.checked_sub(count).is_some_and(|last| at <= last)
}

// Stores the text in the buffer from a place on.
fn copy(buffer: &mut [u8], at: usize, text: &[u8])
    requires { at + length text.now ≤ length buffer.old }
    ensures { buffer.new ≡ sets buffer.old at text.now }
{
    // By the index: `copy_from_slice` calls the C library's memmove, which C is not asked for.
    for (i, b) in text.iter().enumerate() {
        buffer[at + i] = *b;
    }
}

// Puts the text into the buffer from a place on, and answers the place after it. Where the buffer does not hold it, nothing is stored.
// A buffer and a place, here and below: published.
pub fn put_text(buffer: &mut [u8], at: usize, text: &[u8]) -> usize
    ensures value { result ≡ place_after buffer.old at text.now }
    ensures buffer_after { buffer.new ≡ put_at buffer.old at text.now }
{
    if has_room(buffer.len(), at, text.len()) {
        copy(buffer, at, text);
        return at + text.len();
    }
    at
}

// Puts one byte, as put_text puts the text of that byte.
pub fn put_byte(buffer: &mut [u8], at: usize, b: u8) -> usize
    ensures value { result ≡ place_after buffer.old at (b ∷ []) }
    ensures buffer_after { buffer.new ≡ put_at buffer.old at (b ∷ []) }
{
    if at < buffer.len() {
        buffer[at] = b;
        return at + 1;
    }
    at
}

// Puts the digits of n, as put_text does.
fn put_number(buffer: &mut [u8], at: usize, form: Form, n: u64) -> usize
    ensures value { result ≡ place_after buffer.old at (digits_to form.base form.least form.most n) }
    ensures buffer_after { buffer.new ≡ put_at buffer.old at (digits_to form.base form.least form.most n) }
{
    let k = count_digits(form, n);
    if has_room(buffer.len(), at, k) {
        store_digits(buffer, at, form, k, n);
        return at + k;
    }
    at
}

// Puts n in decimal, as put_text does. One digit needs no count.
pub fn put_decimal(buffer: &mut [u8], at: usize, n: u64) -> usize
    ensures value { result ≡ place_after buffer.old at (decimal n) }
    ensures buffer_after { buffer.new ≡ put_at buffer.old at (decimal n) }
{
    if n < 10 {
        return put_byte(buffer, at, glyph(n));
    }
    let form = Form {
        base: 10,
        least: 1,
        most: 20,
    };
    put_number(buffer, at, form, n)
}

// Puts n in hexadecimal, in at least so many digits and at most eight, as put_text does.
pub fn put_hex(buffer: &mut [u8], at: usize, least: usize, n: u32) -> usize
    ensures value { result ≡ place_after buffer.old at (hexadecimal least n) }
    ensures buffer_after { buffer.new ≡ put_at buffer.old at (hexadecimal least n) }
{
    let form = Form {
        base: 16,
        least,
        most: 8,
    };
    put_number(buffer, at, form, n as u64)
}
