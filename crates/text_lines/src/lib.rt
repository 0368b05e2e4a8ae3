// The lines of a text: what a line says, and the numbers in it.
#![tactic(auto)]

ghost use Rattle.std.specs.Prelude.{◌≡◌, ◌≤◌, length, take, ltb};
ghost use Rattle.text_lines.specs.Lines.{before};
ghost use Rattle.text_lines.specs.Rows.{without_return, said_in, is_blank, without_lead, kept_of, trimmed};
ghost use Rattle.text_lines.specs.Numbers.{found_by, number_in};

// The number that the text is, in a base, in at most so many digits.
// That the base is 2 or more is asked by `to_digit`; both callers give 10 or 16.
fn number_in(text: &[u8], base: u32, most: usize) -> Option<u32>
    requires { (2 ≤ base) × (base ≤ 16) × (most ≤ 8) }
    ensures { found_by result ≡ number_in base most text.now }
{
    if text.is_empty() || text.len() > most {
        return None;
    }
    let mut value: u32 = 0;
    for byte in text {
        let digit = (*byte as char).to_digit(base)?;
        value = value * base + digit;
    }
    Some(value)
}

// The index of the first such mark, or the length.
// No Option: the length is what the published call answers.
pub fn find(text: &[u8], mark: u8) -> usize
    ensures value { result ≡ length (before mark text.now) }
    ensures upper_bound { result ≤ length text.now }
{
    text.iter()
        .position(|byte| *byte == mark)
        .unwrap_or(text.len())
}

// Whether a byte is a blank or a tab.
fn is_blank(byte: u8) -> bool
    ensures { result ≡ is_blank byte }
{
    matches!(byte, b' ' | b'\t')
}

// A text without the blanks at its start.
fn without_lead(text: &[u8]) -> &[u8]
    ensures { result.now ≡ without_lead text.now }
{
    let blanks = text
        .iter()
        .position(|byte| !is_blank(*byte))
        .unwrap_or(text.len());
    &text[blanks..]
}

// A text without the blanks at its end.
fn without_end(text: &[u8]) -> &[u8]
    ensures { result.now ≡ take (kept_of text.now (length text.now)) text.now }
{
    match text.iter().rposition(|byte| !is_blank(*byte)) {
        Some(last) => &text[..=last],
        None => &[],
    }
}

// A part of a line without the blanks around it.
#[tactic(auto, unfolding(crate::specs::Rows::trimmed))]
fn trimmed(part: &[u8]) -> &[u8]
    ensures { result.now ≡ trimmed part.now }
{
    without_end(without_lead(part))
}

// The length of a part of a line without the blanks around it.
pub fn size_in(part: &[u8]) -> usize
    ensures { result ≡ length (trimmed part.now) }
{
    trimmed(part).len()
}

// The decimal number of at most three digits that a part of a line is, without the blanks around it.
pub fn decimal_in(part: &[u8]) -> Option<u32>
    ensures { found_by result ≡ number_in 10 3 (trimmed part.now) }
{
    number_in(trimmed(part), 10, 3)
}

// The hexadecimal number of at most eight digits that it is.
pub fn hexadecimal_in(part: &[u8]) -> Option<u32>
    ensures { found_by result ≡ number_in 16 8 (trimmed part.now) }
{
    number_in(trimmed(part), 16, 8)
}

// A line without a carriage return at its end.
fn unreturned(line: &[u8]) -> &[u8]
    ensures { result.now ≡ without_return line.now }
{
    line.strip_suffix(b"\r").unwrap_or(line)
}

// What a line says.
#[tactic(auto, using(crate::proofs::Rows::said_there, crate::proofs::Rows::said_front, crate::proofs::Rows::said_shorter))]
pub fn said_in(line: &[u8]) -> &[u8]
    ensures value { result.now ≡ said_in line.now }
    ensures line_value { take (length result.now) line.now ≡ said_in line.now }
    ensures upper_bound { length result.now ≤ length line.now }
{
    let line = unreturned(line);
    &line[..find(line, b'#')]
}

// Whether what a line says is not all blank.
pub fn says_any(said: &[u8]) -> bool
    ensures { result ≡ ltb 0 (length (without_lead said.now)) }
{
    !without_lead(said).is_empty()
}
