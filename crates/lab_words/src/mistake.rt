//! Where and how a line is wrong.
ghost use Rattle.std.specs.Prelude.{◌≡◌};
ghost use Rattle.lab_words.specs.Columns.{begins_character, column_of};

use crate::wanted::Wanted;
use std::fmt;
use thiserror::Error;

/// How many letters of a word are shown.
const SHOWN: usize = 24;

/// The beginning of a word.
#[derive(Clone, Copy)]
pub struct ShownWord {
    letters: [char; SHOWN],
    count: usize,
    is_whole: bool,
}

impl ShownWord {
    /// The beginning of this word.
    pub fn of(word: &str) -> ShownWord {
        let mut shown = ShownWord {
            letters: [' '; SHOWN],
            count: 0,
            is_whole: true,
        };
        for letter in word.chars() {
            if shown.count >= SHOWN {
                shown.is_whole = false;
                break;
            }
            shown.letters[shown.count] = letter;
            shown.count += 1;
        }
        shown
    }
}

/// The word in quotes. What isn't printable is escaped, and dots stand for what is left out.
impl fmt::Display for ShownWord {
    fn fmt<W: fmt::Write>(&self, f: &mut fmt::Formatter<W>) -> fmt::Result {
        f.write_str("\"")?;
        for place in 0..self.count.min(SHOWN) {
            fmt::Display::fmt(&self.letters[place].escape_debug(), f)?;
        }
        f.write_str(if self.is_whole { "\"" } else { "...\"" })
    }
}

/// What is found where something else is wanted.
#[derive(Clone, Copy)]
pub enum MetText {
    Word(ShownWord),
    /// A blank beside another, at the beginning or at the end.
    Blank,
    /// Nothing: the line ends before.
    End,
    /// A byte that isn't UTF-8.
    Byte(u8),
}

impl fmt::Display for MetText {
    fn fmt<W: fmt::Write>(&self, f: &mut fmt::Formatter<W>) -> fmt::Result {
        match self {
            MetText::Word(word) => fmt::Display::fmt(word, f),
            MetText::Blank => f.write_str("a blank"),
            MetText::End => f.write_str("the end of the line"),
            MetText::Byte(byte) => write!(f, "the byte {byte:02x}"),
        }
    }
}

/// A word of a line that is wrong, or is missing or too much.
#[derive(Clone, Copy)]
pub struct WordMistake {
    /// Its first character in the line, from 1.
    pub column: u64,
    pub met: MetText,
    pub wanted: Wanted,
}

impl WordMistake {
    /// Something else is wanted instead of a text that begins at this column.
    pub fn of_text(column: u64, text: &str, wanted: Wanted) -> WordMistake {
        let met = if text.is_empty() {
            MetText::End
        } else {
            MetText::Word(ShownWord::of(text))
        };
        WordMistake {
            column,
            met,
            wanted,
        }
    }
}

/// As it is shown.
impl fmt::Debug for WordMistake {
    fn fmt<W: fmt::Write>(&self, f: &mut fmt::Formatter<W>) -> fmt::Result {
        fmt::Display::fmt(self, f)
    }
}

impl fmt::Display for WordMistake {
    fn fmt<W: fmt::Write>(&self, f: &mut fmt::Formatter<W>) -> fmt::Result {
        write!(
            f,
            "column {}: {} where {}",
            self.column, self.met, self.wanted
        )
    }
}

/// A line with its mistake.
#[derive(Clone, Copy, Debug, Error)]
#[error("line {line}, {mistake}")]
pub struct WrongLine {
    /// The number of the line in its text, from 1.
    pub line: u64,
    pub mistake: WordMistake,
}

// Whether a character of UTF-8 begins with this byte.
fn is_first_byte(byte: u8) -> bool
    ensures { result ≡ begins_character byte }
{
    !(127 < byte && byte < 192)
}

/// The number, from 1, of the character that begins after the first `start` bytes of a line.
pub fn column_at(line: &[u8], start: usize) -> u64
    ensures { result ≡ column_of line.now start }
{
    let end = start.min(line.len());
    let mut column = 1;
    for i in 0..end {
        if is_first_byte(line[i]) {
            column += 1;
        }
    }
    column
}
