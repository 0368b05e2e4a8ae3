// The text of a record. A row is a line that says something: the first is N in decimal, each further one head:value in hexadecimal, an event. The record that a text makes.
#![tactic(auto)]

ghost use Rattle.std.specs.Prelude.{◌≡◌, cond, map, [], ◌∷◌, ◌+◌, ◌≤◌, ◌<◌, IfOk, MatchResult, length, get_or, take, drop, ltb};
ghost use Rattle.questions.specs.Numbers.{number_of};
ghost use Rattle.record.specs.Record.{most_events, record_size};
ghost use Rattle.text_lines.specs.Lines.{before, after, lines_in};
ghost use Rattle.text_lines.specs.Rows.{rows_from, rows_of};
ghost use Rattle.text_reader.specs.Reading.{head_in, value_in, event_in, text_size, events_fault, text_fault, sources_of_text, heads_of_text, values_of_text, numbers_of};
ghost use Rattle.text_reader.specs.Answers.{why_number, event_by, read_of, fault_by, record_numbers, to_record_answer, to_record_bytes, record_length};
ghost use Rattle.text_reader.specs.declared.NotRecord.TheVariants.{BadText};

use record::{MOST_EVENTS, RECORD_SIZE, Refused};
use text_lines::{decimal_in, find, hexadecimal_in, said_in, says_any, size_in};

// The most bytes of a text.
pub const TEXT_SIZE: usize = 1048576;

// Why a text is refused: a line is not N, or not HEAD:VALUE, or is that of an event too many; or there are too many bytes; or a head is too short.
#[derive(Clone, Copy, Debug, PartialEq, Eq)]
pub enum Why {
    NotSources = 1,
    NotEvent = 2,
    TooMany = 3,
    TooLong = 4,
    ShortHead = 5,
}

impl From<Why> for u8 {
    ghost from_gives = { λ why number. number ≡ why_number why };

    fn from(why: Why) -> u8 {
        why as u8
    }
}

// What is wrong with a text, and its line, from 1: 0 where there are too many bytes.
// No Option: the rule `too_long` of the published call has that 0.
#[derive(Clone, Copy, Debug, PartialEq, Eq)]
pub struct Fault {
    pub why: Why,
    pub line: usize,
}

// Why no record is made of a text: what is wrong with the text; or the refusal of the record's questions, its place, and the line that it is about.
#[derive(Clone, Copy, Debug, PartialEq, Eq)]
pub enum NotRecord {
    BadText(Fault),
    Refused { refused: Refused, line: usize },
}

impl From<Fault> for NotRecord {
    ghost from_gives = { λ fault not_record. not_record ≡ BadText fault };

    fn from(fault: Fault) -> NotRecord {
        NotRecord::BadText(fault)
    }
}

// The event of a row.
#[derive(Clone, Copy)]
struct Event {
    head: u32,
    value: u32,
}

// A row: the number of its line, what it says, and the text after its line.
#[derive(Clone, Copy)]
struct Row<'a> {
    number: usize,
    said: &'a [u8],
    rest: &'a [u8],
}

// The events of a text: their heads and values, and the numbers of their lines.
// No Vec, and no slice of events: memory is fixed, and the writer takes the heads and the values as two slices.
#[derive(Clone, Copy)]
struct Events<'a> {
    heads: &'a [u32],
    values: &'a [u32],
    numbers: &'a [usize],
}

// What a text says whose events are read: N, its line, and the events.
#[derive(Clone, Copy)]
struct Listing<'a> {
    sources: u32,
    first: usize,
    events: Events<'a>,
}

// What stands before the first such mark, and after it: nothing, where there is none.
fn split(text: &[u8], mark: u8) -> (&[u8], &[u8])
    ensures before { result.0.now ≡ before mark text.now }
    ensures after { result.1.now ≡ after mark text.now }
{
    let (front, back) = text.split_at(find(text, mark));
    match back.split_first() {
        Some((_, rest)) => (front, rest),
        None => (front, back),
    }
}

// The event that a row is.
fn event_in(said: &[u8]) -> Result<Event, Why>
    ensures { event_by result ≡ read_of (event_in said.now) }
{
    let (first, second) = split(said, b':');
    let head = hexadecimal_in(first).ok_or(Why::NotEvent)?;
    let value = hexadecimal_in(second).ok_or(Why::NotEvent)?;
    if size_in(first) != 8 {
        return Err(Why::ShortHead);
    }
    Ok(Event { head, value })
}

// The next row of a text whose first line has this number; where there is none, the number after the last line's.
fn next_row(text: &[u8], line: usize) -> Result<Row<'_>, usize>
    requires { line + length text.now ≤ text_size + 1 }
    ensures { MatchResult result
        (λ row. (rows_from line (lines_in text.now) ≡ record { number = row.number; said = row.said.now } ∷ rows_from (row.number + 1) (lines_in row.rest.now))
        × (row.number + 1 + length row.rest.now ≤ line + length text.now) × (length row.rest.now < length text.now))
        (λ number. (rows_from line (lines_in text.now) ≡ []) × (number ≡ line + length (lines_in text.now))) }
{
    let mut rest = text;
    let mut number = line;
    // From line to line by what is left of the text; the number is what the caller needs.
    while !rest.is_empty() {
        let (line, after) = split(rest, b'\n');
        let said = said_in(line);
        if says_any(said) {
            return Ok(Row {
                number,
                said,
                rest: after,
            });
        }
        rest = after;
        number += 1;
    }
    Err(number)
}

// Stores the heads and values of the rows of events, and the numbers of their lines, up to the first row that is bad.
// Three arrays, as `Events` has three slices.
fn read_events<'a>(
    text: &[u8],
    line: usize,
    heads: &'a mut [u32; MOST_EVENTS],
    values: &'a mut [u32; MOST_EVENTS],
    numbers: &'a mut [usize; MOST_EVENTS],
) -> Result<Events<'a>, Fault>
    requires { line + length text.now ≤ text_size + 1 }
    ensures fault_value { fault_by result ≡ events_fault 0 (rows_from line (lines_in text.now)) }
    ensures events { IfOk result (λ events. (length events.heads.now ≤ most_events)
        × (events.heads.now ≡ map head_in (rows_from line (lines_in text.now)))
        × (events.values.now ≡ map value_in (rows_from line (lines_in text.now)))
        × (events.numbers.now ≡ numbers_of (rows_from line (lines_in text.now)))) }
{
    let mut rest = text;
    let mut next = line;
    let mut n = 0;
    // From row to row by what is left of the text; how many there are says how far the arrays are filled.
    while let Ok(row) = next_row(rest, next) {
        let line = row.number;
        if MOST_EVENTS <= n {
            return Err(Fault {
                why: Why::TooMany,
                line,
            });
        }
        let event = event_in(row.said).map_err(|why| Fault { why, line })?;
        heads[n] = event.head;
        values[n] = event.value;
        numbers[n] = line;
        rest = row.rest;
        next = line + 1;
        n += 1;
    }
    Ok(Events {
        heads: &heads[..n],
        values: &values[..n],
        numbers: &numbers[..n],
    })
}

// Reads a text: its first fault; else N, its line, and the events.
// Three arrays, as in `read_events`.
fn read_text<'a>(
    text: &[u8],
    heads: &'a mut [u32; MOST_EVENTS],
    values: &'a mut [u32; MOST_EVENTS],
    numbers: &'a mut [usize; MOST_EVENTS],
) -> Result<Listing<'a>, Fault>
    ensures fault_value { fault_by result ≡ text_fault text.now }
    ensures listing { IfOk result (λ read. (length read.events.heads.now ≤ most_events)
        × (read.sources ≡ sources_of_text text.now)
        × (read.first ≡ get_or (numbers_of (rows_of text.now)) 0 0)
        × (read.events.heads.now ≡ heads_of_text text.now)
        × (read.events.values.now ≡ values_of_text text.now)
        × (read.events.numbers.now ≡ drop 1 (numbers_of (rows_of text.now)))) }
{
    if TEXT_SIZE < text.len() {
        return Err(Fault {
            why: Why::TooLong,
            line: 0,
        });
    }
    let row = next_row(text, 1).map_err(|line| Fault {
        why: Why::NotSources,
        line,
    })?;
    let first = row.number;
    let sources = decimal_in(row.said).ok_or(Fault {
        why: Why::NotSources,
        line: first,
    })?;
    let events = read_events(row.rest, first + 1, heads, values, numbers)?;
    Ok(Listing {
        sources,
        first,
        events,
    })
}

// The line that a refusal of the record's questions is about: that of N, or for questions 6, 27 and 7 that of the event.
fn line_of(refused: Refused, first: usize, numbers: &[usize]) -> usize
    requires { 6 ≤ number_of refused.refusal → refused.place < length numbers.now }
    ensures { result ≡ cond (ltb (number_of refused.refusal) 6) first (get_or numbers.now refused.place 0) }
{
    if u8::from(refused.refusal) < 6 {
        first
    } else {
        numbers[refused.place]
    }
}

// Makes a record of a text: accepted, the record fills the first bytes, and their number is answered; refused, all of them stay as they were.
pub fn to_record(text: &[u8], bytes: &mut [u8; RECORD_SIZE]) -> Result<usize, NotRecord>
    ensures result_value { record_numbers result ≡ to_record_answer text.now record_size }
    ensures bytes_after { bytes.new ≡ to_record_bytes text.now bytes.old }
    ensures result_in_bounds { record_length result ≤ length bytes.new }
{
    // Three arrays, as in `read_events`.
    let mut heads: [u32; MOST_EVENTS] = [0; MOST_EVENTS];
    let mut values: [u32; MOST_EVENTS] = [0; MOST_EVENTS];
    let mut numbers: [usize; MOST_EVENTS] = [0; MOST_EVENTS];
    let listing = read_text(text, &mut heads, &mut values, &mut numbers)?;
    let events = listing.events;
    // Matched, not mapped: that the place has a line is known where the writing was refused.
    match record_writer::write(listing.sources, events.heads, events.values, bytes) {
        Ok(length) => Ok(length),
        Err(refused) => Err(NotRecord::Refused {
            refused,
            line: line_of(refused, listing.first, events.numbers),
        }),
    }
}
