// What a program reads, whole: the file that its one argument names, or standard input; and what it writes to standard output and standard error.
// Which bytes the system gives and takes is outside any contract: these say that no more are read than the buffer has.
#![tactic(auto)]

ghost use Rattle.std.specs.Prelude.{◌≤◌, ◌<◌, ◌≢◌, ◌↔◌, IsTrue, IfOk, IfSome, length, slice_index};
ghost use Rattle.std.specs.Io.{StartsWith};
ghost use Rattle.std.specs.Io.KnownBytes.{Consumes, IsAtEnd};

use std::env::{Env, FillError};
use std::fs::File;
use std::io;
use std::io::{Cursor, Read, Write};

// The buffer for a name: no longer one is a file's.
const NAME_SIZE: usize = 4096;

// The buffer for the words of an error.
const WORDS_SIZE: usize = 256;

// Reads until the input ends or the buffer is full, also from a pipe that gives a few bytes at a time, and answers the bytes that were read.
fn read_all<'a, R: Read>(file: &mut R, buffer: &'a mut [u8]) -> io::Result<&'a [u8]>
    ensures within { IfOk result (λ read. length read.now ≤ length buffer.old) }
    ensures bytes { IfOk result (λ read. Consumes (R.remaining file.old) (R.remaining file.new) read.now) }
    ensures end { IfOk result (λ read. length read.now < length buffer.old → IsAtEnd (R.remaining file.new)) }
{
    let mut at: usize = 0;
    // It goes on by as many bytes as a read gave.
    while at < buffer.len() {
        let some = file.read(&mut buffer[at..])?;
        if some == 0 {
            break;
        }
        at += some;
    }
    Ok(&buffer[..at])
}

// Writes the bytes to standard error.
pub fn say(rt: &HostRuntime, bytes: &[u8]) {
    let _ = rt.stderr().write_all(bytes);
}

// Writes the bytes to standard output. Where that fails, it is said on standard error.
pub fn write_out(rt: &HostRuntime, bytes: &[u8]) {
    if rt.stdout().write_all(bytes).is_err() {
        say(rt, b"cannot write standard output\n");
    }
}

// Says what cannot be read.
fn say_unread(rt: &HostRuntime, name: &[u8]) {
    say(rt, b"cannot read ");
    say(rt, name);
    say(rt, b"\n");
}

// Says what cannot be opened, and why.
fn say_unopened(rt: &HostRuntime, name: &[u8], why: &[u8]) {
    say(rt, b"cannot open ");
    say(rt, name);
    say(rt, b": ");
    say(rt, why);
    say(rt, b"\n");
}

// The words of an error's text, which ends in the system's number.
fn without_number(text: &str) -> &str
    ensures { StartsWith text.now result.now }
{
    match text.split_once(" (os error ") {
        Some((words, _)) => words,
        None => text,
    }
}

// Says that the file of this name cannot be opened, with the system's words for why.
fn say_refused(rt: &HostRuntime, name: &[u8], error: io::Error) {
    let mut text = Cursor::new([0u8; WORDS_SIZE]);
    let _ = write!(text, "{error}");
    let length = (text.position() as usize).min(WORDS_SIZE);
    let bytes = text.into_inner();
    let words = std::str::from_utf8(&bytes[..length]).unwrap_or("");
    say_unopened(rt, name, without_number(words).as_bytes());
}

// Reads standard input, and says so where it cannot be read.
fn read_standard<'a>(rt: &HostRuntime, buffer: &'a mut [u8]) -> Option<&'a [u8]>
    ensures within { IfSome result (λ read. length read.now ≤ length buffer.old) }
{
    read_all(&mut rt.stdin(), buffer)
        .inspect_err(|_| say_unread(rt, b"standard input"))
        .ok()
}

// Reads the file, and closes it before anything is written, so that nothing reaches it even where a closed standard output or standard error left it
// that number.
fn read_open<'a>(mut file: File, buffer: &'a mut [u8]) -> io::Result<&'a [u8]>
    ensures within { IfOk result (λ read. length read.now ≤ length buffer.old) }
{
    let input = read_all(&mut file, buffer);
    drop(file);
    input
}

// Reads the file of this name, and says so where it cannot be opened or read. It is opened for reading alone.
fn read_file<'a>(rt: &HostRuntime, name: &str, buffer: &'a mut [u8]) -> Option<&'a [u8]>
    ensures within { IfSome result (λ read. length read.now ≤ length buffer.old) }
{
    match File::open(rt, name) {
        Ok(file) => read_open(file, buffer)
            .inspect_err(|_| say_unread(rt, name.as_bytes()))
            .ok(),
        Err(error) => {
            say_refused(rt, name.as_bytes(), error);
            None
        }
    }
}

// Reads the file of this name. std opens no file whose name is no text.
fn read_named<'a>(rt: &HostRuntime, name: &[u8], buffer: &'a mut [u8]) -> Option<&'a [u8]>
    ensures within { IfSome result (λ read. length read.now ≤ length buffer.old) }
{
    let Ok(text) = std::str::from_utf8(name) else {
        say_unopened(rt, name, b"the name is not UTF-8");
        return None;
    };
    read_file(rt, text, buffer)
}

// Whether an argument names a file: it has bytes, and the first is no minus.
fn is_name(argument: &[u8]) -> bool
    ensures { IsTrue result ↔ ((0 < length argument.now) × (slice_index argument.now 0 ≢ 45)) }
{
    argument.first().is_some_and(|b| *b != b'-')
}

// Reads the file that the first argument names. Where it names none, the usage is said. One that is longer than any name is not handed out whole.
fn read_argument<'a>(rt: &HostRuntime, buffer: &'a mut [u8], usage: &[u8]) -> Option<&'a [u8]>
    ensures within { IfSome result (λ read. length read.now ≤ length buffer.old) }
{
    let mut name = [0u8; NAME_SIZE];
    let Ok(length) = rt.arg(1, &mut name) else {
        say_unopened(rt, b"FILE", b"File name too long");
        return None;
    };
    if !is_name(&name[..length]) {
        say(rt, usage);
        return None;
    }
    read_named(rt, &name[..length], buffer)
}

// Whether the program has this argument. The first after its own name is argument 1.
fn has_argument(rt: &impl Env, place: usize) -> bool {
    !matches!(rt.arg(place, &mut []), Err(FillError::NotPresent))
}

// Reads standard input where the program has no argument, or the file that its one argument names, into the buffer, and answers the bytes. Where that fails,
// it is said on standard error, and nothing is left to be done.
// Each program takes its own step then: a function that is lent the step would require that it may be called, and no published call has a precondition.
pub fn read_input<'a>(rt: &HostRuntime, buffer: &'a mut [u8], usage: &[u8]) -> Option<&'a [u8]>
    ensures within { IfSome result (λ read. length read.now ≤ length buffer.old) }
{
    if has_argument(rt, 2) {
        say(rt, usage);
        return None;
    }
    if has_argument(rt, 1) {
        return read_argument(rt, buffer, usage);
    }
    read_standard(rt, buffer)
}

#[cfg(test)]
mod tests {
    use super::*;

    // Gives as many bytes as are left, one in each read, and then ends or fails.
    #[derive(Drop)]
    struct Trickle {
        left: u8,
        fails: bool,
    }

    impl Read for Trickle {
        fn read(&mut self, buffer: &mut [u8]) -> io::Result<usize> {
            if buffer.is_empty() {
                return Ok(0);
            }
            if self.left == 0 {
                return if self.fails {
                    Err(io::Error::from(io::ErrorKind::InvalidData))
                } else {
                    Ok(0)
                };
            }
            buffer[0] = self.left;
            self.left -= 1;
            Ok(1)
        }
    }

    // The bytes that are left, what comes after them, and how many are read into four.
    #[test]
    fn reads_until_the_end_or_full(rt: HostRuntime) {
        for (left, fails, failed, length) in [
            (0, false, false, 0),
            (3, false, false, 3),
            (4, true, false, 4),
            (9, false, false, 4),
            (3, true, true, 0),
            (0, true, true, 0),
        ] {
            let mut buffer = [0u8; 4];
            let input = read_all(&mut Trickle { left, fails }, &mut buffer);
            assert_eq!(rt; input.is_err(), failed, "of {left}");
            assert_eq!(rt; input.map_or(0, |read| read.len()), length, "of {left}");
        }
    }
}
