//! Lines that are read and not done, each with the mistake that is found in it.

use event_text::read_request;
use lab_words::{NumberedLineFault, Question, Wanted, WordFault, WordForm, WordMistake, WrongLine};
use node_trace::read_trace_line;
use std::alloc::Global;

/// The answer to a row, which is `replay` or `trace`, a blank, and a line as that subcommand reads it. The answer is the
/// mistake of that line, in the words that follow the line's number in a message, or `right`.
///
/// `Wrong` if the row begins otherwise.
pub fn tell_mistake(alloc: Global, row: &Question) -> Result<String, NumberedLineFault> {
    match row.text.split_once(" ") {
        Some(("replay", line)) => tell_read(alloc, read_replayed(alloc, line)),
        Some(("trace", line)) => tell_read(alloc, read_trace_line(alloc, line)),
        _ => Err(NumberedLineFault::Wrong(no_row(row))),
    }
}

// Reads a line as `replay` does.
fn read_replayed(alloc: Global, line: &str) -> Result<(), WordFault> {
    read_request(alloc, line)?;
    Ok(())
}

// The answer for a line that was read.
fn tell_read(alloc: Global, read: Result<(), WordFault>) -> Result<String, NumberedLineFault> {
    match read {
        Ok(()) => Ok(String::from_str(alloc, "right")?),
        Err(WordFault::Wrong(mistake)) => Ok(format!(in alloc; "{mistake}")?),
        Err(WordFault::Memory(error)) => Err(NumberedLineFault::Memory(error)),
    }
}

// A row begins with no subcommand.
fn no_row(row: &Question) -> WrongLine {
    let wanted = Wanted::Word("a subcommand", WordForm::OneOf(&["replay", "trace"]));
    let (begin, _) = row.text.split_once(" ").unwrap_or((row.text, ""));
    WrongLine {
        line: row.line,
        mistake: WordMistake::of_text(1, begin, wanted),
    }
}
