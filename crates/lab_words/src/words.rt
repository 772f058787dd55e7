//! The words of a line, and what they spell.
ghost use Rattle.std.specs.Prelude.{◌≤◌};

use crate::fault::WordFault;
use crate::mistake::{MetText, ShownWord, WordMistake, column_at};
use crate::wanted::{Wanted, WordForm};
use script_text::{HexFault, bytes_of, decimal_number, hexadecimal_word, value_named};
use std::alloc::{AllocError, Global};

/// A place of a line: a word and what comes after it, or the line's end.
#[derive(Clone, Copy)]
pub struct WordPlace<'a> {
    rest: Option<&'a str>,
}

impl<'a> WordPlace<'a> {
    /// The word there; empty at the end, and between two blanks.
    pub fn word(self) -> &'a str {
        self.split().0
    }

    // The word there, and the place after it.
    fn split(self) -> (&'a str, WordPlace<'a>) {
        match self.rest {
            Some(rest) => match rest.split_once(' ') {
                Some((word, after)) => (word, WordPlace { rest: Some(after) }),
                None => (rest, WordPlace { rest: None }),
            },
            None => ("", self),
        }
    }
}

// A mistake at a place.
#[derive(Clone, Copy)]
struct NotedMistake<'a> {
    place: WordPlace<'a>,
    wanted: Wanted,
}

/// The words of a line that are still to be read, with single blanks between them.
///
/// The first wrong word is noted, and reading goes on: what is read in its place is 0, `false` or empty. `finish` returns it.
#[derive(Clone, Copy)]
pub struct Words<'a> {
    line: &'a str,
    next: WordPlace<'a>,
    noted: Option<NotedMistake<'a>>,
}

impl<'a> Words<'a> {
    /// The words of a line.
    pub fn of(line: &'a str) -> Words<'a> {
        Words {
            line,
            next: WordPlace { rest: Some(line) },
            noted: None,
        }
    }

    /// How many words are left.
    pub fn count(&self) -> usize {
        match self.next.rest {
            Some(rest) => rest.split(' ').count(),
            None => 0,
        }
    }

    /// Whether no word is left.
    pub fn is_empty(&self) -> bool {
        self.next.rest.is_none()
    }

    /// The place of the next word.
    pub fn place(&self) -> WordPlace<'a> {
        self.next
    }

    /// The next word, which stays; empty if none is left.
    pub fn peek(&self) -> &'a str {
        self.next.word()
    }

    /// The next word, which stands for this.
    pub fn take(&mut self, wanted: Wanted) -> &'a str {
        let place = self.next;
        if self.is_empty() {
            self.reject(place, wanted);
        }
        let (word, next) = place.split();
        self.next = next;
        word
    }

    /// Takes the next word if it is this one, and returns whether it was.
    pub fn take_if(&mut self, word: &str) -> bool {
        let (there, next) = self.next.split();
        if there != word {
            return false;
        }
        self.next = next;
        true
    }

    /// Notes that something else is wanted at a place.
    pub fn reject(&mut self, place: WordPlace<'a>, wanted: Wanted) {
        if self.noted.is_none() {
            self.noted = Some(NotedMistake { place, wanted });
        }
    }

    /// A value that was read of the word at a place, or this one in its place if something else is wanted there.
    pub fn or_reject<T: Copy>(
        &mut self,
        place: WordPlace<'a>,
        value: Option<T>,
        other: T,
        wanted: Wanted,
    ) -> T {
        if value.is_none() {
            self.reject(place, wanted);
        }
        value.unwrap_or(other)
    }

    /// A value of a table by its name, or this one in its place.
    pub fn value_in<T: Copy>(&mut self, table: &[(&str, T)], other: T, wanted: Wanted) -> T {
        let place = self.next;
        let name = self.take(wanted);
        self.or_reject(place, value_named(table, name), other, wanted)
    }

    /// A decimal number, at most so great.
    pub fn decimal(&mut self, what: &'static str, most: u64) -> u64
        ensures { result ≤ most }
    {
        self.decimal_from(what, 0, most)
    }

    /// A decimal number of a range, or 0 in its place.
    pub fn decimal_from(&mut self, what: &'static str, least: u64, most: u64) -> u64
        ensures { result ≤ most }
    {
        let wanted = Wanted::decimal(what, least, most);
        let place = self.next;
        match decimal_number(self.take(wanted)) {
            Some(number) if least <= number && number <= most => number,
            _ => {
                self.reject(place, wanted);
                0
            }
        }
    }

    /// A decimal number below 256.
    pub fn small_decimal(&mut self, what: &'static str) -> u8 {
        self.decimal(what, 255) as u8
    }

    /// A word of 32 bits in hexadecimal digits.
    pub fn hexadecimal(&mut self, what: &'static str) -> u32 {
        let wanted = Wanted::Word(what, WordForm::Hexadecimal);
        let place = self.next;
        let word = self.take(wanted);
        self.or_reject(place, hexadecimal_word(word), 0, wanted)
    }

    /// A byte in two hexadecimal digits.
    pub fn byte(&mut self, form: WordForm) -> u8 {
        let wanted = Wanted::Word("a byte", form);
        let place = self.next;
        let word = self.take(wanted);
        match hexadecimal_word(word) {
            Some(byte) if byte < 0x100 && word.len() == 2 => byte as u8,
            _ => {
                self.reject(place, wanted);
                0
            }
        }
    }

    /// Bytes in two hexadecimal digits each, at least one byte.
    pub fn bytes(&mut self, alloc: Global) -> Result<Vec<u8>, AllocError> {
        let wanted = Wanted::Word("bytes", WordForm::DigitPairs);
        let place = self.next;
        match bytes_of(alloc, self.take(wanted)) {
            Ok(bytes) => Ok(bytes),
            Err(HexFault::NoMemory) => Err(AllocError),
            Err(HexFault::NotHex) => {
                self.reject(place, wanted);
                Ok(Vec::new(alloc))
            }
        }
    }

    /// 0 or 1.
    pub fn flag(&mut self, what: &'static str) -> bool {
        self.decimal(what, 1) == 1
    }

    /// What was read, if all words were right and none is left; `Wrong` with the first mistake if not.
    pub fn finish<T: Drop>(mut self, value: T) -> Result<T, WordFault> {
        let place = self.next;
        if !self.is_empty() {
            self.reject(place, Wanted::End);
        }
        match self.noted {
            Some(noted) => Err(WordFault::Wrong(self.mistake(noted))),
            None => Ok(value),
        }
    }

    // Where the line is wrong, and how.
    fn mistake(&self, noted: NotedMistake) -> WordMistake {
        let NotedMistake { place, wanted } = noted;
        let left = match place.rest {
            Some(rest) => rest.len(),
            None => 0,
        };
        let start = self.line.len().saturating_sub(left);
        let column = column_at(self.line.as_bytes(), start);
        let (met, column) = match place.rest {
            None => (MetText::End, column),
            Some(rest) if rest.is_empty() => match wanted {
                // The blank before the end is one too many.
                Wanted::End => (MetText::Blank, column.saturating_sub(1)),
                _ => (MetText::End, column),
            },
            Some(_) if place.word().is_empty() => (MetText::Blank, column),
            Some(_) => (MetText::Word(ShownWord::of(place.word())), column),
        };
        WordMistake {
            column,
            met,
            wanted,
        }
    }
}
