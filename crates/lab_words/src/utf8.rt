//! A line of a text as a text of UTF-8.
ghost use Rattle.std.specs.Prelude.{◌≡◌, IfOk};

use crate::fault::NumberedLineFault;
use crate::mistake::{MetText, WordMistake, WrongLine, column_at};
use crate::wanted::Wanted;
use script_text::NumberedLine;

/// The line as a text; `Wrong` with the first byte that isn't UTF-8, if one isn't.
pub fn line_as_str(line: NumberedLine<'_>) -> Result<&str, NumberedLineFault>
    ensures { IfOk result (λ text. text.now ≡ line.entry.text.now) }
{
    match std::str::from_utf8(line.text) {
        Ok(text) => Ok(text),
        Err(error) => Err(NumberedLineFault::Wrong(not_utf8(line, error.valid_up_to()))),
    }
}

// The byte at this place isn't UTF-8.
fn not_utf8(line: NumberedLine<'_>, place: usize) -> WrongLine {
    let byte = line.text.get(place).copied().unwrap_or(0);
    WrongLine {
        line: line.number,
        mistake: WordMistake {
            column: column_at(line.text, place),
            met: MetText::Byte(byte),
            wanted: Wanted::Utf8,
        },
    }
}
