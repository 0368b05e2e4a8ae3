// The writer of a record: it asks the questions, and stores the bytes where every answer is yes.
#![tactic(auto)]

ghost use Rattle.std.specs.Prelude.{◌≡◌, ◌+◌, ◌*◌, ◌^◌, ◌≤◌, ◌<◌, length};
ghost use Rattle.std.proofs.lemmas.List.Edits.{sets};
ghost use Rattle.buffers.specs.Filled.{filled};
ghost use Rattle.questions.specs.Numbers.{number_in};
ghost use Rattle.record.specs.Words.{bytes_of, bytes_of_words};
ghost use Rattle.record.specs.Record.{record_of, length_of};
ghost use Rattle.record.specs.Questions.{verdict_in, write_shape_of, walk, write_verdict};
ghost use Rattle.record.specs.Answers.{write_numbers, write_answer, written_bytes};

use event::kinds::Kind;
use questions::Refusal;
use record::{MOST_EVENTS, Refused};

// Stores w as word k of the bytes.
fn put_word(bytes: &mut [u8], k: usize, w: u32)
    requires { 4 * k + 4 ≤ length bytes.old }
    ensures { bytes.new ≡ sets bytes.old (4 * k) (bytes_of w) }
{
    let at = 4 * k;
    bytes[at..at + 4].copy_from_slice(&w.to_le_bytes());
}

// Stores the words in the bytes, from word k on.
fn put_words(bytes: &mut [u8], k: usize, words: &[u32])
    requires { 4 * (k + length words.now) ≤ length bytes.old }
    ensures { bytes.new ≡ sets bytes.old (4 * k) (bytes_of_words words.now) }
{
    for (i, w) in words.iter().enumerate() {
        put_word(bytes, k + i, *w);
    }
}

// Stores a record in the first bytes.
fn put_record(sources: u32, heads: &[u32], values: &[u32], bytes: &mut [u8])
    requires { (length heads.now < 2 ^ 32) × (8 + 4 * (length heads.now + length values.now) ≤ length bytes.old) }
    ensures { bytes.new ≡ filled (record_of sources heads.now values.now) bytes.old }
{
    let n = heads.len();
    put_word(bytes, 0, n as u32);
    put_word(bytes, 1, sources);
    put_words(bytes, 2, heads);
    put_words(bytes, 2 + n, values);
}

// Questions 6, 27 and 7 of an event that is written, first no decides.
#[tactic(auto, unfolding(questions::specs::Numbers::number_in, record::specs::Questions::write_shape_of, event::specs::Event::shape_of))]
fn write_shape(head: u32, value: u32) -> Result<(), Refusal>
    ensures { number_in result ≡ write_shape_of head value }
{
    match event::kind_named(head)? {
        Kind::Chain => Err(Refusal::RetiredKind),
        kind => kind.ask_unused(event::address(head), value),
    }
}

// Questions 6, 27 and 7 of the events in two arrays, as many as both have.
fn walk_arrays(heads: &[u32], values: &[u32]) -> Result<(), Refused>
    ensures { verdict_in result ≡ walk write_shape_of heads.now values.now }
{
    let mut i: usize = 0;
    // 01 names this form: "a loop over events yields by break the refusal number and index", "the walk ends at the first event that fails a check".
    loop {
        if heads.len() <= i || values.len() <= i {
            break Ok(());
        }
        match write_shape(heads[i], values[i]) {
            Ok(()) => i += 1,
            Err(refusal) => break Err(Refused { refusal, place: i }),
        }
    }
}

// Questions 2 to 7 and 27, writing.
#[tactic(auto, unfolding(record::specs::Questions::write_verdict))]
fn ask_writing(sources: u32, heads: &[u32], values: &[u32], space: usize) -> Result<(), Refused>
    ensures { verdict_in result ≡ write_verdict sources heads.now values.now space }
{
    if !source_count::is_count(sources) {
        return Err(Refusal::SourceCount.into());
    }
    if MOST_EVENTS < heads.len() {
        return Err(Refusal::TooManyEvents.into());
    }
    if heads.len() != values.len() {
        return Err(Refusal::WrongLength.into());
    }
    if space < 8 + 8 * heads.len() {
        return Err(Refusal::NoRoom.into());
    }
    walk_arrays(heads, values)
}

// Writes a record: accepted, it fills the first bytes and answers their number; refused, all of them stay as they were.
pub fn write(
    sources: u32,
    heads: &[u32],
    values: &[u32],
    bytes: &mut [u8],
) -> Result<usize, Refused>
    ensures result_value { write_numbers result ≡ write_answer sources heads.now values.now (length bytes.old) }
    ensures bytes_after { bytes.new ≡ written_bytes sources heads.now values.now bytes.old }
{
    ask_writing(sources, heads, values, bytes.len())?;
    put_record(sources, heads, values, bytes);
    Ok(8 + 8 * heads.len())
}
