//! One line at a time from a reader, of bounded length.
ghost use Rattle.std.specs.Prelude.{◌≡◌, ◌≢◌, ◌+◌, ◌-◌, ◌<◌, ◌≤◌, [], All, IfOk, IfSome, OnOk, OnSome, length, take, true, false};
ghost use Rattle.std.specs.Io.{appended_bytes, StartsWith, StopsAt, IsEmptyOrEndsWith};
ghost use Rattle.std.specs.Io.BufRead.{DropsThrough};
ghost use Rattle.std.specs.Io.KnownBytes.{Consumes, IsAtEnd};
ghost use Rattle.script_text.specs.InputLines.{IsNextLine, whole_line};

use std::alloc::Global;
use std::io::{self, BufRead};

/// What a reader gives.
#[derive(Drop)]
pub enum InputLine {
    /// A line with its line feed. What follows the last line feed of the input is a line without one.
    Whole(Vec<u8>),
    /// The beginning of a line that is too long. The rest of it was passed over.
    Long(Vec<u8>),
    /// The beginning of a line, if there is no memory for all of it. The rest of it was passed over.
    NoMemory(Vec<u8>),
    /// The end of the input.
    End,
}

// How many of these bytes a line takes: all up to its line feed and with that, but at most `most`.
fn taken_of(shown: &[u8], most: usize) -> usize
    ensures bound { result ≤ length shown.now }
    ensures most { result ≤ most }
    ensures some { 0 < length shown.now → 0 < most → 0 < result }
    ensures before { All (λ x. x ≢ 10) (take (result - 1) shown.now) }
{
    let mut count = 0;
    while count < shown.len() && count < most {
        if shown[count] == b'\n' {
            return count + 1;
        }
        count += 1;
    }
    count
}

// Appends what the reader has at hand of a line, at most `most` bytes. The answer is whether the line ended by that, with its
// line feed or with the input.
// Eight clauses: what is appended, and what that and the answer say of the line and of the reader.
fn take_some<R: BufRead>(input: &mut R, most: usize, bytes: &mut Vec<u8>) -> io::Result<bool>
    requires { 0 < most }
    ensures appends { StartsWith bytes.new.items bytes.old.items }
    ensures most { length (appended_bytes bytes.old.items bytes.new.items) ≤ most }
    ensures stops { StopsAt (appended_bytes bytes.old.items bytes.new.items) 10 }
    ensures bytes { Consumes (R.remaining input.old) (R.remaining input.new) (appended_bytes bytes.old.items bytes.new.items) }
    ensures end { result ≡ Ok true → length (appended_bytes bytes.old.items bytes.new.items) ≡ 0
        → OnSome (R.remaining input.old) (IsAtEnd (R.remaining input.new)) }
    ensures goes_on { result ≢ Ok true → All (λ x. x ≢ 10) (appended_bytes bytes.old.items bytes.new.items) }
    ensures done { result ≡ Ok true → IsEmptyOrEndsWith (appended_bytes bytes.old.items bytes.new.items) 10 }
{
    let available = match input.fill_buf() {
        Ok(available) => available,
        Err(error) => {
            return if error.kind() == io::ErrorKind::Interrupted {
                Ok(false)
            } else {
                Err(error)
            };
        }
    };
    let end = taken_of(available, most);
    bytes.extend_from_slice(&available[..end])?;
    let is_done = end == 0 || available[end - 1] == b'\n';
    input.consume(end);
    Ok(is_done)
}

// Reads the next line into an empty list, or of one of more than `most + 1` bytes that many. The answer is whether the line ended
// by that, with its line feed or with the input.
// Seven clauses: what is read, and what that and the answer say of the line and of the reader.
fn read_beginning<R: BufRead>(input: &mut R, most: u32, bytes: &mut Vec<u8>) -> io::Result<bool>
    requires { bytes.old.items ≡ [] }
    ensures most { length bytes.new.items ≤ most + 1 }
    ensures cut { result ≡ Ok false → length bytes.new.items ≡ most + 1 }
    ensures line { result ≡ Ok true → IfSome (R.remaining input.old) (λ text. bytes.new.items ≡ whole_line text) }
    ensures rest { result ≡ Ok true → DropsThrough (R.remaining input.old) (R.remaining input.new) 10 }
    ensures goes_on { result ≢ Ok true → All (λ x. x ≢ 10) bytes.new.items }
    ensures bytes { Consumes (R.remaining input.old) (R.remaining input.new) bytes.new.items }
{
    let room = most as usize + 1;
    for _turn in 0..u64::MAX {
        let left = room - bytes.len();
        if left == 0 {
            return Ok(false);
        }
        if take_some(input, left, bytes)? {
            return Ok(true);
        }
    }
    Err(io::Error::from(io::ErrorKind::TimedOut))
}

/// Reads the next line. With its line feed it has at most `most` bytes, or it is too long. What follows the last line feed is a
/// line too, if it isn't empty. After an Ok the line is read to its end, also if it was too long or there was no memory for it.
pub fn next_line<R: BufRead>(alloc: Global, input: &mut R, most: u32) -> io::Result<InputLine>
    ensures line { IfOk result (λ line. IfSome (R.remaining input.old) (λ text. IsNextLine text most line)) }
    ensures rest { OnOk result (DropsThrough (R.remaining input.old) (R.remaining input.new) 10) }
{
    let mut bytes = Vec::new(alloc);
    match read_beginning(input, most, &mut bytes) {
        Ok(true) if bytes.is_empty() => Ok(InputLine::End),
        Ok(true) if bytes.len() <= most as usize => Ok(InputLine::Whole(bytes)),
        Ok(true) => Ok(InputLine::Long(bytes)),
        Ok(false) => {
            input.skip_until(b'\n')?;
            Ok(InputLine::Long(bytes))
        }
        Err(error) if error.kind() == io::ErrorKind::OutOfMemory => {
            input.skip_until(b'\n')?;
            Ok(InputLine::NoMemory(bytes))
        }
        Err(error) => Err(error),
    }
}
