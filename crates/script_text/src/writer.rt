//! Texts that are written piece by piece.

use std::alloc::{AllocError, Global};

/// A text that grows. Once there is no memory for a piece nothing more is written, and `finish` returns the error: so
/// pieces are written one after another, and the error is looked at only at the end.
#[derive(Drop)]
pub struct TextWriter {
    text: String,
    // The error of the first piece that couldn't be written.
    written: Result<(), AllocError>,
}

impl TextWriter {
    /// An empty text.
    pub fn new(alloc: Global) -> TextWriter {
        TextWriter {
            text: String::new(alloc),
            written: Ok(()),
        }
    }

    /// Whether nothing is written yet.
    pub fn is_empty(&self) -> bool {
        self.text.is_empty()
    }

    /// The text so far, for what writes to a `String`.
    pub fn as_mut_string(&mut self) -> &mut String {
        &mut self.text
    }

    /// Notes what became of a piece that was written to the `String`.
    pub fn keep_failure(&mut self, written: Result<(), AllocError>) {
        if self.written.is_ok() {
            self.written = written;
        }
    }

    /// Appends a text.
    pub fn push(&mut self, piece: &str) {
        if self.written.is_ok() {
            self.written = self.text.push_str(piece);
        }
    }

    /// Appends a letter.
    pub fn push_letter(&mut self, letter: char) {
        if self.written.is_ok() {
            self.written = self.text.push(letter);
        }
    }

    /// Appends a number in decimal digits.
    pub fn push_decimal(&mut self, number: u64) {
        if self.written.is_ok() {
            self.written = write!(self.text, "{number}");
        }
    }

    /// Appends a signed number in decimal digits.
    pub fn push_signed(&mut self, number: i64) {
        if self.written.is_ok() {
            self.written = write!(self.text, "{number}");
        }
    }

    /// Appends a number in hexadecimal digits, as many as it needs.
    pub fn push_hexadecimal(&mut self, number: u64) {
        if self.written.is_ok() {
            self.written = write!(self.text, "{number:x}");
        }
    }

    /// Appends two hexadecimal digits.
    pub fn push_hex_byte(&mut self, byte: u8) {
        if self.written.is_ok() {
            self.written = write!(self.text, "{byte:02x}");
        }
    }

    /// Appends two hexadecimal digits for each byte.
    pub fn push_hex_bytes(&mut self, bytes: &[u8]) {
        for byte in bytes {
            self.push_hex_byte(*byte);
        }
    }

    /// Appends eight hexadecimal digits.
    pub fn push_word(&mut self, word: u32) {
        if self.written.is_ok() {
            self.written = write!(self.text, "{word:08x}");
        }
    }

    /// The whole text.
    pub fn finish(self) -> Result<String, AllocError> {
        let TextWriter { text, written } = self;
        written.map(|()| text)
    }
}
