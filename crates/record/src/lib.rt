// The record: sizes, then two arrays, all 32-bit little-endian: event count n, N, n heads, n values.
#![tactic(auto)]

ghost use Rattle.std.specs.Prelude.{◌≡◌, ◌+◌, ◌*◌, ◌≤◌, length, get_or};
ghost use Rattle.questions.specs.Numbers.{number_in};
ghost use Rattle.event.specs.Event.{shape_of};
ghost use Rattle.source_count.specs.Count.{is_count};
ghost use Rattle.record.specs.Words.{words_of};
ghost use Rattle.record.specs.Record.{board, compact, words_from, length_of};
ghost use Rattle.record.specs.Questions.{no_refusal, at_0, verdict_in, question, sources_taken, count_in_range, count_taken, walk, read_verdict};
ghost use Rattle.record.specs.Answers.{read_numbers, read_answer, read_heads, read_values};

use questions::Refusal;
use source_count::{MOST_SOURCES, is_count};

// The most events.
pub const MOST_EVENTS: usize = 4000;

// The bytes of the longest record.
pub const RECORD_SIZE: usize = 8 + 8 * MOST_EVENTS;

// The greatest N, the most events and the bytes of the longest record that the compact reader takes.
pub const COMPACT_SOURCES: u32 = 63;

pub const COMPACT_EVENTS: usize = 500;

pub const COMPACT_SIZE: usize = 8 + 8 * COMPACT_EVENTS;

// What a reader takes at most: N, and events.
#[derive(Clone, Copy)]
pub struct Limits {
    pub sources: u32,
    pub events: u32,
}

// The limits of the big reader: it takes every record.
pub const BOARD: Limits = Limits {
    sources: MOST_SOURCES,
    events: MOST_EVENTS as u32,
};

// The limits of the compact reader: it takes short records.
pub const COMPACT: Limits = Limits {
    sources: COMPACT_SOURCES,
    events: COMPACT_EVENTS as u32,
};

// What an accepted record holds: n events, and N.
#[derive(Clone, Copy, Debug, PartialEq, Eq)]
pub struct Sizes {
    pub events: usize,
    pub sources: u32,
}

// The question that was answered no, and the place: the event's index, or 0.
#[derive(Clone, Copy, Debug, PartialEq, Eq)]
pub struct Refused {
    pub refusal: Refusal,
    // No Option: published, and 01 gives place 0 for the questions that are of no event.
    pub place: usize,
}

impl From<Refusal> for Refused {
    ghost from_gives = { λ refusal refused. refused ≡ at_0 refusal };

    fn from(refusal: Refusal) -> Refused {
        Refused { refusal, place: 0 }
    }
}

// Word k of the bytes.
fn word(bytes: &[u8], k: usize) -> u32
    requires { 4 * k + 4 ≤ length bytes.now }
    ensures { result ≡ get_or (words_of bytes.now) k 0 }
{
    let at = 4 * k;
    u32::from_le_bytes([bytes[at], bytes[at + 1], bytes[at + 2], bytes[at + 3]])
}

// Fills a list with the words of the bytes, from word k on.
fn read_words(bytes: &[u8], k: usize, to: &mut [u32])
    requires { 4 * (k + length to.old) ≤ length bytes.now }
    ensures { to.new ≡ words_from bytes.now k (length to.old) }
{
    for (i, place) in to.iter_mut().enumerate() {
        *place = word(bytes, k + i);
    }
}

// Questions 6 and 7 of n events in the bytes of a record.
fn walk_bytes(bytes: &[u8], n: usize) -> Result<(), Refused>
    requires { length bytes.now ≡ length_of n }
    ensures { verdict_in result ≡ walk shape_of (words_from bytes.now 2 n) (words_from bytes.now (2 + n) n) }
{
    let mut i: usize = 0;
    // 01 names this form: "a loop over events yields by break the refusal number and index", "the walk ends at the first event that fails a check".
    loop {
        if n <= i {
            break Ok(());
        }
        match event::shape(word(bytes, 2 + i), word(bytes, 2 + n + i)) {
            Ok(()) => i += 1,
            Err(refusal) => break Err(Refused { refusal, place: i }),
        }
    }
}

// Questions 2, 22, 3 and 23 of N and n.
#[tactic(auto, unfolding(questions::specs::Numbers::number_in))]
fn ask_sizes(limits: Limits, sources: u32, count: u32) -> Result<(), Refusal>
    ensures { number_in result ≡ (question 2 (is_count sources) (question 22 (sources_taken limits sources)
        (question 3 (count_in_range count) (question 23 (count_taken limits count) no_refusal)))).refusal }
{
    if !is_count(sources) {
        return Err(Refusal::SourceCount);
    }
    if limits.sources < sources {
        return Err(Refusal::CompactSources);
    }
    if (MOST_EVENTS as u32) < count {
        return Err(Refusal::TooManyEvents);
    }
    if limits.events < count {
        return Err(Refusal::CompactEvents);
    }
    Ok(())
}

// Questions 1 to 7, reading.
#[tactic(auto, unfolding(questions::specs::Numbers::number_in, crate::specs::Questions::read_verdict))]
fn ask_reading(
    limits: Limits,
    bytes: &[u8],
    head_places: usize,
    value_places: usize,
) -> Result<(), Refused>
    ensures { verdict_in result ≡ read_verdict limits bytes.now head_places value_places }
{
    if bytes.len() < 8 {
        return Err(Refusal::TooShort.into());
    }
    let count = word(bytes, 0);
    ask_sizes(limits, word(bytes, 1), count)?;
    let n = count as usize;
    if bytes.len() != 8 + 8 * n {
        return Err(Refusal::WrongLength.into());
    }
    if !((n <= head_places) & (n <= value_places)) {
        return Err(Refusal::NoRoom.into());
    }
    walk_bytes(bytes, n)
}

// Reads a record within the limits of a reader, as read does.
// Heads beside values, here and in all that plays and writes: lent arrays are of numbers.
pub fn read_within(
    limits: Limits,
    bytes: &[u8],
    heads: &mut [u32],
    values: &mut [u32],
) -> Result<Sizes, Refused>
    ensures result_value { read_numbers result ≡ read_answer limits bytes.now (length heads.old) (length values.old) }
    ensures heads_after { heads.new ≡ read_heads limits bytes.now heads.old values.old }
    ensures values_after { values.new ≡ read_values limits bytes.now heads.old values.old }
{
    ask_reading(limits, bytes, heads.len(), values.len())?;
    let events = word(bytes, 0) as usize;
    read_words(bytes, 2, &mut heads[..events]);
    read_words(bytes, 2 + events, &mut values[..events]);
    Ok(Sizes {
        events,
        sources: word(bytes, 1),
    })
}

// Reads any record: accepted, heads and values fill the first places of the arrays; refused, both stay as they were. One call of read_within, as read_compact
// is: both names are published.
pub fn read(bytes: &[u8], heads: &mut [u32], values: &mut [u32]) -> Result<Sizes, Refused>
    ensures result_value { read_numbers result ≡ read_answer board bytes.now (length heads.old) (length values.old) }
    ensures heads_after { heads.new ≡ read_heads board bytes.now heads.old values.old }
    ensures values_after { values.new ≡ read_values board bytes.now heads.old values.old }
{
    read_within(BOARD, bytes, heads, values)
}

// Reads a short record, as read does: the compact reader.
pub fn read_compact(bytes: &[u8], heads: &mut [u32], values: &mut [u32]) -> Result<Sizes, Refused>
    ensures result_value { read_numbers result ≡ read_answer compact bytes.now (length heads.old) (length values.old) }
    ensures heads_after { heads.new ≡ read_heads compact bytes.now heads.old values.old }
    ensures values_after { values.new ≡ read_values compact bytes.now heads.old values.old }
{
    read_within(COMPACT, bytes, heads, values)
}
