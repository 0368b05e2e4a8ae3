// The words of each refusal.
#![tactic(auto)]

ghost use Rattle.std.specs.Prelude.{◌≡◌};
ghost use Rattle.digits.specs.Put.{put_at, place_after};
ghost use Rattle.refusals.specs.Lines.{line_at};
ghost use Rattle.refusals.specs.Words.{words_of};

use digits::put_text;

// No refusal has more bytes of words.
pub const WORDS_SIZE: usize = 80;

// The line that follows the first n line feeds of a text.
fn line(text: &[u8], n: u8) -> &[u8]
    ensures { result.now ≡ line_at text.now n }
{
    text.split(|b| *b == b'\n').nth(n as usize).unwrap_or(&[])
}

// The words of a refusal.
// Of any number. Lines of one text: a match is no plainer, with a number, a text and a length in each of 27 arms, and takes four times as long to check.
pub fn words_of(refusal: u8) -> &'static [u8]
    ensures { result.now ≡ words_of refusal }
{
    // line k has the words of refusal k; line 0 is empty
    line(
        b"\n\
          fewer than 8 bytes\n\
          N is not 2 to 255\n\
          more than 4,000 events\n\
          the length is not 8 + 8 x n, or heads and values are not equally many\n\
          the arrays or bytes lent do not hold it all\n\
          the kind is not 0 to 13\n\
          an address or a value that the kind does not use is not 0\n\
          the machine handed in is not sound\n\
          the word number is above 7\n\
          the offset is 0x8000 or more\n\
          the offset is not a multiple of 4\n\
          the address is none of the fifteen CSRs\n\
          meihap cannot be written\n\
          meicurpl is written while a handler is open\n\
          interrupts are off\n\
          no source is above both threshold and current rank\n\
          no handler is open\n\
          the uppermost handler is opened already\n\
          interrupts are on\n\
          the value is not 0 or 1\n\
          interrupts on, while the uppermost handler is not opened\n\
          N is above 63, the compact player's most\n\
          more than 500 events, the compact player's most\n\
          priord is switched while a handler is open\n\
          the error counter's number is above 2\n\
          the committed number is 0 or is not what a look would answer\n\
          kind 7 is no longer written: chain by look and commit, 12 and 13\n",
        refusal,
    )
}

// Puts the words of a refusal, as digits::put_text does.
// A number, a buffer and a place: published.
pub fn put_words(buffer: &mut [u8], at: usize, refusal: u8) -> usize
    ensures value { result ≡ place_after buffer.old at (words_of refusal) }
    ensures buffer_after { buffer.new ≡ put_at buffer.old at (words_of refusal) }
{
    put_text(buffer, at, words_of(refusal))
}
