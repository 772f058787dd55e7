//! A line that is read from its head: names, numbers and characters.

use crate::fault::{Expected, Mismatch};
use crate::hints::Hint;
use script_text::{decimal_number, hexadecimal_word};

/// What is left of a line. Once something else is expected than what is there, nothing is left, and `mismatch` says
/// what was expected first. What is read until then is right, and what is read after that is 0 or empty.
#[derive(Clone, Copy)]
pub struct Cursor<'a> {
    rest: &'a [u8],
    mismatch: Option<Mismatch<'a>>,
}

impl<'a> Cursor<'a> {
    /// A whole line.
    pub fn of(line: &'a [u8]) -> Cursor<'a> {
        Cursor {
            rest: line,
            mismatch: None,
        }
    }

    /// What was expected first instead of what is in the line, if anything was.
    pub fn mismatch(&self) -> Option<Mismatch<'a>> {
        self.mismatch
    }

    /// How many bytes are left.
    pub fn bytes_left(&self) -> usize {
        self.rest.len()
    }

    /// Something else is expected than what is here.
    pub fn refuse(&mut self, expected: Expected) {
        self.refuse_before(expected, self.rest.len());
    }

    /// Something else is expected before the last `left` bytes of the line.
    pub fn refuse_before(&mut self, expected: Expected, left: usize) {
        self.refuse_with(expected, left, None);
    }

    /// Something else is expected before the last `left` bytes of the line, and this helps.
    pub fn refuse_with(&mut self, expected: Expected, left: usize, hint: Option<Hint<'a>>) {
        if self.mismatch.is_none() {
            self.mismatch = Some(Mismatch {
                expected,
                left,
                hint,
            });
        }
        self.rest = &[];
    }

    /// The next byte, which stays.
    pub fn first(&self) -> Option<u8> {
        self.rest.first().copied()
    }

    /// Whether a comment begins here.
    pub fn is_at_comment(&self) -> bool {
        self.rest.starts_with(b"--")
    }

    /// Passes over blanks and tabs.
    pub fn skip_blanks(&mut self) {
        self.rest = without_blanks(self.rest);
    }

    /// Passes over blanks, and tells whether nothing or a comment follows.
    pub fn is_at_end(&mut self) -> bool {
        self.skip_blanks();
        self.rest.is_empty() || self.is_at_comment()
    }

    /// Takes the next byte if it is this one, and tells whether it was.
    pub fn take_if(&mut self, byte: u8) -> bool {
        match self.rest {
            [first, rest @ ..] if *first == byte => {
                self.rest = rest;
                true
            }
            _ => false,
        }
    }

    fn take_first(&mut self) -> Option<u8> {
        let (first, rest) = self.rest.split_first()?;
        self.rest = rest;
        Some(*first)
    }

    // Takes the next `count` bytes, or all if fewer are left. The answer is empty if they aren't UTF-8.
    fn take_text(&mut self, count: usize) -> &'a str {
        let (head, rest) = self.rest.split_at(count.min(self.rest.len()));
        self.rest = rest;
        std::str::from_utf8(head).unwrap_or("")
    }

    /// Takes the name that begins here, empty if there is none: a letter or `_`, and then letters, digits, `_` and `.`.
    pub fn take_name(&mut self) -> &'a str {
        self.take_text(name_length(self.rest))
    }

    /// A number whose minus, if it has one, was taken before: a decimal number, one to eight hexadecimal digits
    /// after `#`, or a character between `'`.
    pub fn take_number(&mut self, is_negative: bool) -> u32 {
        if self.take_if(b'#') {
            self.take_hexadecimal()
        } else if self.take_if(b'\'') {
            u32::from(self.take_quoted())
        } else if is_negative {
            self.take_decimal(0x8000_0000)
        } else {
            self.take_decimal(0xffff_ffff)
        }
    }

    fn take_decimal(&mut self, most: u64) -> u32 {
        let left = self.bytes_left();
        if self.rest.starts_with(b"0x") || self.rest.starts_with(b"0X") {
            self.refuse(Expected::Number);
        }
        let digits = self.take_text(digits_length(self.rest));
        match decimal_number(digits) {
            Some(number) if number <= most => u32::try_from(number).unwrap_or(0),
            _ => {
                self.refuse_before(Expected::Number, left);
                0
            }
        }
    }

    fn take_hexadecimal(&mut self) -> u32 {
        let left = self.bytes_left();
        let digits = self.take_text(hexadecimal_length(self.rest));
        match hexadecimal_word(digits) {
            Some(number) => number,
            None => {
                self.refuse_before(Expected::Hexadecimal, left);
                0
            }
        }
    }

    // A character before its closing quote.
    fn take_quoted(&mut self) -> u8 {
        if self.first() == Some(b'\'') {
            self.refuse(Expected::Character);
        }
        let character = self.take_character();
        if !self.take_if(b'\'') {
            self.refuse(Expected::Quote);
        }
        character
    }

    /// A character of ASCII: one that is printed, a tab, or `*` and what says another.
    ///
    /// Source: occam 2, the escapes of characters.
    pub fn take_character(&mut self) -> u8 {
        let left = self.bytes_left();
        match self.take_first() {
            Some(b'*') => self.take_escape(),
            Some(byte) if matches!(byte, b'\t' | b' '..=b'~') => byte,
            Some(_) => {
                self.refuse_before(Expected::Character, left);
                0
            }
            None => {
                self.refuse(Expected::Quote);
                0
            }
        }
    }

    fn take_escape(&mut self) -> u8 {
        let left = self.bytes_left();
        match self.take_first() {
            Some(b'n') => b'\n',
            Some(b'c') => b'\r',
            Some(b't') => b'\t',
            Some(b's') => b' ',
            Some(b'#') => self.take_character_code(),
            Some(byte) if matches!(byte, b'\'' | b'"' | b'*') => byte,
            _ => {
                self.refuse_before(Expected::Character, left);
                0
            }
        }
    }

    // A character by its code in two hexadecimal digits.
    fn take_character_code(&mut self) -> u8 {
        let left = self.bytes_left();
        let digits = self.take_text(2);
        match hexadecimal_word(digits) {
            Some(code) if code < 0x100 && digits.len() == 2 => code as u8,
            _ => {
                self.refuse_before(Expected::Character, left);
                0
            }
        }
    }
}

/// A text without the blanks and tabs at its head.
pub fn without_blanks(text: &[u8]) -> &[u8] {
    for (place, byte) in text.iter().enumerate() {
        if !matches!(*byte, b' ' | b'\t') {
            return text.get(place..).unwrap_or(&[]);
        }
    }
    &[]
}

/// How many bytes the name has with which a text begins, 0 if it begins with none.
pub fn name_length(text: &[u8]) -> usize {
    for (place, byte) in text.iter().enumerate() {
        let is_letter = byte.is_ascii_alphabetic() || *byte == b'_';
        let goes_on = byte.is_ascii_digit() || *byte == b'.';
        if !is_letter && (place == 0 || !goes_on) {
            return place;
        }
    }
    text.len()
}

fn digits_length(text: &[u8]) -> usize {
    for (place, byte) in text.iter().enumerate() {
        if !byte.is_ascii_digit() {
            return place;
        }
    }
    text.len()
}

fn hexadecimal_length(text: &[u8]) -> usize {
    for (place, byte) in text.iter().enumerate() {
        if !byte.is_ascii_hexdigit() {
            return place;
        }
    }
    text.len()
}

/// The operand that a word spells, as the assembler reads it; `None` if it is no number.
pub fn operand_of(word: &str) -> Option<u32> {
    let mut cursor = Cursor::of(word.as_bytes());
    let is_negative = cursor.take_if(b'-');
    let number = cursor.take_number(is_negative);
    let operand = if is_negative {
        number.wrapping_neg()
    } else {
        number
    };
    (cursor.mismatch.is_none() && cursor.rest.is_empty()).then_some(operand)
}
