//! What helps to mend a fault of a text, and only the text around it shows.

use crate::cursor::without_blanks;
use crate::fault::Expected;
use script_text::TextWriter;

/// What helps to mend a fault.
#[derive(Clone, Copy)]
pub enum Hint<'a> {
    /// An operation that takes no operand.
    NoOperand(&'a str),
    /// Where the colon of a label is.
    Colon,
    /// How many labels a line has.
    OneLabel,
    /// How a number gets a name.
    Naming,
    /// The value of a sum.
    Value(u32),
    /// The line that defines a name.
    DefinedIn(u64),
    /// A name that differs only in case.
    OtherCase(&'a str),
    /// What can be done with this label.
    Address(&'a str),
    /// That a label is no number yet.
    Unplaced,
}

impl<'a> Hint<'a> {
    // What is said before its name or number, or all if it has none.
    fn text(self) -> &'static str {
        match self {
            Hint::Colon => "The colon of a label comes right after its name",
            Hint::OneLabel => "A line defines one label at most",
            Hint::Naming => "A number gets a name by def",
            Hint::Value(_) => "The value is ",
            Hint::DefinedIn(_) => "Line ",
            Hint::Address(_) => "It is a label: ldc ",
            Hint::Unplaced => "It is a label, whose address isn't known yet",
            Hint::NoOperand(_) | Hint::OtherCase(_) => "",
        }
    }

    // The name in it, or nothing.
    fn name(self) -> &'a str {
        match self {
            Hint::NoOperand(name) | Hint::OtherCase(name) | Hint::Address(name) => name,
            _ => "",
        }
    }

    // What is said after its name or number.
    fn ending(self) -> &'static str {
        match self {
            Hint::NoOperand(_) => " takes no operand",
            Hint::DefinedIn(_) => " defines it",
            Hint::OtherCase(_) => " is defined, and case counts",
            Hint::Address(_) => " gives its address, and local names words of the workspace",
            _ => "",
        }
    }

    /// Writes what helps.
    pub fn write(self, text: &mut TextWriter) {
        text.push(self.text());
        match self {
            Hint::Value(word) => text.push_signed(i64::from(word.cast_signed())),
            Hint::DefinedIn(line) => text.push_decimal(line),
            hint => text.push(hint.name()),
        }
        text.push(self.ending());
    }
}

/// What comes after the word that is there instead of a statement, if it shows what was meant.
pub fn hint_of<'a>(expected: Expected, rest: &[u8], word: &str) -> Option<Hint<'a>> {
    if !matches!(expected, Expected::Statement) {
        return None;
    }
    let behind = rest.get(word.len()..).unwrap_or(&[]);
    match (behind.first(), first_visible(behind)) {
        (Some(b':'), _) => Some(Hint::OneLabel),
        (_, Some(b':')) => Some(Hint::Colon),
        (_, Some(b'=')) => Some(Hint::Naming),
        _ => None,
    }
}

// The first byte that is no blank and no tab.
fn first_visible(text: &[u8]) -> Option<u8> {
    without_blanks(text).first().copied()
}
