//! What a line should have at a place.

use std::fmt;

/// How a word is written.
#[derive(Clone, Copy)]
pub enum WordForm {
    /// As one of these.
    OneOf(&'static [&'static str]),
    /// In decimal digits, as a number of this range.
    Decimal { least: u64, most: u64 },
    /// As a decimal multiple of 4 of this range.
    MultipleOfFour { least: u64, most: u64 },
    /// In one to eight hexadecimal digits.
    Hexadecimal,
    /// In two hexadecimal digits.
    TwoDigits,
    /// In two hexadecimal digits for each byte.
    DigitPairs,
    /// As two hexadecimal digits, or `-`.
    TwoDigitsOrNone,
    /// As `@farm`, or as `@` and a number.
    Asker,
    /// As a text that is in a plan exactly once.
    Once,
    /// As an operand of the assembler.
    Operand,
    /// As an instruction of the assembler.
    Instruction,
    /// As an instruction of the assembler, or as one of these.
    InstructionOr(&'static [&'static str]),
}

/// What the forms of an instruction are.
const INSTRUCTIONS: &str =
    "an operation as add, a function and its operand as ldc 5, or hex and bytes";

/// The same before other names.
const INSTRUCTIONS_OR: &str =
    "an operation as add, a function and its operand as ldc 5, or hex and bytes, or ";

impl WordForm {
    // What is said of it before its names or its range, or all if it has none.
    fn text(self) -> &'static str {
        match self {
            WordForm::OneOf(_) => "",
            WordForm::Decimal { .. } => "decimal digits, ",
            WordForm::MultipleOfFour { .. } => "decimal digits, a multiple of 4 from ",
            WordForm::Hexadecimal => "one to eight hexadecimal digits",
            WordForm::TwoDigits => "two hexadecimal digits",
            WordForm::DigitPairs => "two hexadecimal digits for each byte",
            WordForm::TwoDigitsOrNone => "two hexadecimal digits, or - for none",
            WordForm::Asker => "@farm, or @ and a number, 0 to 255",
            WordForm::Once => "a text that stands just once in the plan",
            WordForm::Operand =>
                "a decimal number from -2147483648 to 4294967295, or # and one to eight hexadecimal digits",
            WordForm::Instruction => INSTRUCTIONS,
            WordForm::InstructionOr(_) => INSTRUCTIONS_OR,
        }
    }
}

impl fmt::Display for WordForm {
    fn fmt<W: fmt::Write>(&self, f: &mut fmt::Formatter<W>) -> fmt::Result {
        f.write_str(self.text())?;
        match self {
            WordForm::OneOf(names) | WordForm::InstructionOr(names) => write_names(f, names),
            WordForm::Decimal { least, most } | WordForm::MultipleOfFour { least, most } =>
                write_range(f, *least, *most),
            _ => Ok(()),
        }
    }
}

fn write_range<W: fmt::Write>(f: &mut fmt::Formatter<W>, least: u64, most: u64) -> fmt::Result {
    write!(f, "{least} to {most}")
}

// Names with commas between them, and `or` before the last.
fn write_names<W: fmt::Write>(f: &mut fmt::Formatter<W>, names: &[&str]) -> fmt::Result {
    for place in 0..names.len() {
        f.write_str(before_name(place, names.len()))?;
        f.write_str(names[place])?;
    }
    Ok(())
}

// What is written before the name at this place of `count` names.
fn before_name(place: usize, count: usize) -> &'static str {
    if place == 0 {
        ""
    } else if place == count.saturating_sub(1) {
        " or "
    } else {
        ", "
    }
}

/// What a line should have at a place.
#[derive(Clone, Copy)]
pub enum Wanted {
    /// A word for this, in its form.
    Word(&'static str, WordForm),
    /// The end of the line.
    End,
    /// Bytes of UTF-8.
    Utf8,
}

impl Wanted {
    /// A decimal number of this range.
    pub fn decimal(what: &'static str, least: u64, most: u64) -> Wanted {
        Wanted::Word(what, WordForm::Decimal { least, most })
    }
}

impl fmt::Display for Wanted {
    fn fmt<W: fmt::Write>(&self, f: &mut fmt::Formatter<W>) -> fmt::Result {
        match self {
            Wanted::Word(what, form) => write!(f, "{what} should be: {form}"),
            Wanted::End => f.write_str("the line should end"),
            Wanted::Utf8 => f.write_str("a character in UTF-8 should be"),
        }
    }
}
