//! What is wrong with a text.
ghost use Rattle.std.specs.Prelude.{◌≡◌, IfOk};

use crate::cursor::{name_length, without_blanks};
use crate::hints::{Hint, hint_of};
use script_text::{NumberedLine, TextWriter};
use std::alloc::{AllocError, Global};
use std::fmt;
use thiserror::Error;

// The most bytes of a word that a fault shows.
const MOST_SHOWN: usize = 40;

/// What was expected instead of what is in a text. What is shown of it begins with the number of the fault.
#[derive(Clone, Copy)]
pub enum Expected {
    Text,
    Statement,
    Operand,
    Number,
    Hexadecimal,
    Nibble,
    Byte,
    Character,
    Quote,
    Term,
    End,
    NewName,
    KnownName,
    Alignment,
    Space,
    Length,
    Digits,
    NoAddress,
    OneLabel,
    Name,
    Equals,
    KnownNumber,
}

impl Expected {
    // What is said of it.
    fn text(self) -> &'static str {
        match self {
            Expected::Text => "fault 1: expected a line in UTF-8",
            Expected::Statement =>
                "fault 2: expected a label, an instruction, byte, word, align, space, def or local",
            Expected::Operand => "fault 3: expected a number, a character or a name",
            Expected::Number => "fault 4: expected a number from -2147483648 to 4294967295",
            Expected::Hexadecimal => "fault 5: expected one to eight hexadecimal digits",
            Expected::Nibble => "fault 6: expected a number from 0 to 15",
            Expected::Byte =>
                "fault 7: expected a number from -128 to 255, a character or a string",
            Expected::Character =>
                "fault 8: expected a character of ASCII, or * and one of n c t s ' \" * or # with two hexadecimal digits",
            Expected::Quote => "fault 9: expected a closing quote",
            Expected::Term => "fault 10: expected a number, a character or a name behind + or -",
            Expected::End => "fault 11: expected the end of the line",
            Expected::NewName => "fault 12: expected a name that isn't defined yet",
            Expected::KnownName => "fault 13: expected a name that is defined",
            Expected::Alignment => "fault 14: expected a power of two from 1 to 256",
            Expected::Space => "fault 15: expected a number from 0 to 65464",
            Expected::Length => "fault 16: expected code of at most 65464 bytes",
            Expected::Digits => "fault 17: expected hexadecimal digits, two for each byte",
            Expected::NoAddress => "fault 18: expected a number or a difference of labels",
            Expected::OneLabel =>
                "fault 19: expected a sum of at most one label that is added and one that is subtracted from it",
            Expected::Name => "fault 20: expected a name",
            Expected::Equals => "fault 21: expected an equals sign and a number",
            Expected::KnownNumber =>
                "fault 22: expected a number, a character, or a name that def or local defines above",
        }
    }
}

impl fmt::Display for Expected {
    fn fmt<W: fmt::Write>(&self, f: &mut fmt::Formatter<W>) -> fmt::Result {
        f.write_str(self.text())
    }
}

/// Something else is expected before the last `left` bytes of a line.
#[derive(Clone, Copy)]
pub struct Mismatch<'a> {
    pub expected: Expected,
    pub left: usize,
    /// What helps, if what is there doesn't show it.
    pub hint: Option<Hint<'a>>,
}

/// Something else was expected at a place of a text.
#[derive(Drop, Error)]
#[error("line {line}, column {column}: {expected}{details}")]
pub struct FaultyLine {
    /// The number of the line in its text, from 1.
    pub line: u64,
    /// The number of the character in the line, from 1.
    pub column: u64,
    pub expected: Expected,
    /// What is there, and what helps: what follows in the sentence, or nothing.
    pub details: String,
}

/// As it is shown.
impl fmt::Debug for FaultyLine {
    fn fmt<W: fmt::Write>(&self, f: &mut fmt::Formatter<W>) -> fmt::Result {
        fmt::Display::fmt(self, f)
    }
}

/// Why a text is no program, or no bytes.
#[derive(Drop, Error)]
pub enum TextFault {
    /// A line of it is wrong.
    #[error("{0}")]
    Wrong(FaultyLine),
    #[error("out of memory")]
    Memory(#[from(alloc)] AllocError),
}

/// As it is shown.
impl fmt::Debug for TextFault {
    fn fmt<W: fmt::Write>(&self, f: &mut fmt::Formatter<W>) -> fmt::Result {
        fmt::Display::fmt(self, f)
    }
}

/// A fault of a line.
pub fn fault_in(
    alloc: Global,
    line: NumberedLine<'_>,
    mismatch: Mismatch<'_>,
) -> Result<FaultyLine, AllocError>
    ensures { IfOk result (λ fault. fault.line ≡ line.entry.number) }
{
    let Mismatch {
        expected,
        left,
        hint,
    } = mismatch;
    let before = line.text.len().saturating_sub(left);
    let rest = line.text.get(before..).unwrap_or(&[]);
    let mut details = TextWriter::new(alloc);
    write_details(&mut details, expected, rest, hint);
    let details = details.finish()?;
    let column = column_behind(line.text.get(..before).unwrap_or(line.text));
    Ok(FaultyLine {
        line: line.number,
        column,
        expected,
        details,
    })
}

/// A fault before the last `left` bytes of a line, without a hint of its own.
pub fn fault_before(
    alloc: Global,
    line: NumberedLine<'_>,
    left: usize,
    expected: Expected,
) -> TextFault {
    let mismatch = Mismatch {
        expected,
        left,
        hint: None,
    };
    match fault_in(alloc, line, mismatch) {
        Ok(fault) => TextFault::Wrong(fault),
        Err(error) => TextFault::Memory(error),
    }
}

// The number of the character after these bytes, from 1.
fn column_behind(text: &[u8]) -> u64 {
    let mut column: u64 = 1;
    for byte in text {
        if *byte & 0xc0 != 0x80 {
            column = column.saturating_add(1);
        }
    }
    column
}

// Writes what follows the text of what was expected.
fn write_details(
    details: &mut TextWriter,
    expected: Expected,
    rest: &[u8],
    hint: Option<Hint<'_>>,
) {
    if matches!(expected, Expected::Text | Expected::Length) {
        return;
    }
    let is_in_quotes = matches!(expected, Expected::Character | Expected::Quote);
    let rest = if is_in_quotes {
        rest
    } else {
        without_blanks(rest)
    };
    let word = first_word(rest);
    details.push(", not ");
    write_met(details, rest, word, is_in_quotes);
    if let Some(hint) = hint_of(expected, rest, word).or(hint) {
        details.push(". ");
        hint.write(details);
    }
}

// Writes what the rest of a line begins with.
fn write_met(details: &mut TextWriter, rest: &[u8], word: &str, is_in_quotes: bool) {
    if rest.is_empty() {
        details.push("the end of the line");
    } else if word.is_empty() {
        details.push("bytes that aren't UTF-8");
    } else if rest.starts_with(b"--") && !is_in_quotes {
        details.push("a comment");
    } else if rest.starts_with(b"\"") && !is_in_quotes {
        details.push("a string");
    } else {
        let written = write!(details.as_mut_string(), "{word:?}");
        details.keep_failure(written);
    }
}

// The name with which a text begins, or else its first character and what follows that up to a blank, a comma or a quote;
// not all of a very long word, and nothing of what isn't UTF-8.
fn first_word(text: &[u8]) -> &str {
    let name = name_length(text);
    let end = if name > 0 {
        name.min(MOST_SHOWN)
    } else {
        length_of_word(text)
    };
    std::str::from_utf8(text.get(..end).unwrap_or(text)).unwrap_or("")
}

// How many bytes of a text come before the one that ends its first word. Its first byte never ends it.
fn length_of_word(text: &[u8]) -> usize {
    for (place, byte) in text.iter().enumerate() {
        if place > 0 && ends_word(place, *byte) {
            return place;
        }
    }
    text.len()
}

// Whether the byte after the first `place` bytes of a word isn't shown with them.
fn ends_word(place: usize, byte: u8) -> bool {
    matches!(byte, b' ' | b'\t' | b',' | b'\'' | b'"')
        || (place >= MOST_SHOWN && byte & 0xc0 != 0x80)
}
