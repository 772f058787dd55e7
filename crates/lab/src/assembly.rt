//! Rows of programs, and what they are answered.

use node_answers::disassembly_of;
use script_text::TextWriter;
use std::alloc::{AllocError, Global};
use t414_assembly::{BOOTED, TextFault, assemble, code_as_text, hexadecimal};

/// The answer to a row. The row is a program, whose lines ` / ` divides, and the answer is its code in hexadecimal or its
/// fault; or it is `hex` and digits, and the answer is the instructions that they are. The code of a program is also
/// disassembled and assembled again.
pub fn answer_row(alloc: Global, row: &str) -> Result<String, AllocError> {
    let answered = match row.strip_prefix("hex ") {
        Some(digits) => disassembly_of(alloc, digits.as_bytes()),
        None => answer_program(alloc, row),
    };
    without_end(alloc, answered)
}

// The code of a program in digits, or that its disassembly isn't the same code.
fn answer_program(alloc: Global, row: &str) -> Result<String, TextFault> {
    let code = assemble(alloc, BOOTED, lines_of(alloc, row)?.as_bytes())?.into_code();
    answer_code(alloc, code.as_slice())
}

fn answer_code(alloc: Global, code: &[u8]) -> Result<String, TextFault> {
    if is_disassembled(alloc, code)? {
        return Ok(hexadecimal(alloc, code)?);
    }
    Ok(String::from_str(alloc, "its disassembly is other code")?)
}

// Whether the disassembly of code is assembled as the same code.
fn is_disassembled(alloc: Global, code: &[u8]) -> Result<bool, TextFault> {
    let text = code_as_text(alloc, code)?;
    is_assembled_as(alloc, text.as_bytes(), code)
}

// Whether the code of a text is this.
fn is_assembled_as(alloc: Global, text: &[u8], code: &[u8]) -> Result<bool, TextFault> {
    let made = assemble(alloc, BOOTED, text)?.into_code();
    Ok(made.as_slice() == code)
}

// The lines that ` / ` divides.
fn lines_of(alloc: Global, row: &str) -> Result<String, AllocError> {
    let mut text = TextWriter::new(alloc);
    for line in row.split(" / ") {
        text.push(line);
        text.push("\n");
    }
    text.finish()
}

// An answer without the line feed at its end, or a fault in words.
fn without_end(alloc: Global, answer: Result<String, TextFault>) -> Result<String, AllocError> {
    match answer {
        Ok(text) => without_line_feed(alloc, text.as_str()),
        Err(TextFault::Memory(error)) => Err(error),
        Err(fault) => format!(in alloc; "{fault}"),
    }
}

fn without_line_feed(alloc: Global, text: &str) -> Result<String, AllocError> {
    String::from_str(alloc, text.strip_suffix("\n").unwrap_or(text))
}
