//! Bytes that a text spells by hexadecimal digits, and code as text.
use crate::assembling::assemble;
use crate::disassembly::disassemble;
use crate::fault::{Expected, TextFault, fault_before};
use crate::loading::BOOTED;
use crate::printing::{bytes_as_text, instructions_as_text};
use crate::writing::MOST_CODE;
use script_text::{HexFault, NumberedLine, bytes_of, numbered_lines};
use std::alloc::{AllocError, Global};

/// The bytes that pairs of hexadecimal digits spell, with blanks, tabs and line ends between digits.
///
/// A fault says where another character is, where a digit is missing, or where there is one too many for `MOST_CODE`
/// bytes.
pub fn bytes_of_digits(alloc: Global, text: &[u8]) -> Result<Vec<u8>, TextFault> {
    let mut digits = String::new(alloc);
    let mut last = NumberedLine {
        number: 1,
        text: &[],
    };
    for line in &numbered_lines(alloc, text)? {
        push_digits(alloc, &mut digits, *line)?;
        last = *line;
    }
    if digits.is_empty() {
        return Ok(Vec::new(alloc));
    }
    match bytes_of(alloc, digits.as_str()) {
        Ok(bytes) => Ok(bytes),
        Err(HexFault::NoMemory) => Err(TextFault::Memory(AllocError)),
        Err(HexFault::NotHex) => Err(fault_before(alloc, last, 0, Expected::Digits)),
    }
}

// Appends the digits of a line to others.
fn push_digits(
    alloc: Global,
    digits: &mut String,
    line: NumberedLine<'_>,
) -> Result<(), TextFault> {
    for (place, byte) in line.text.iter().enumerate() {
        if matches!(*byte, b' ' | b'\t') {
            continue;
        }
        let left = line.text.len().saturating_sub(place);
        if !byte.is_ascii_hexdigit() {
            return Err(fault_before(alloc, line, left, Expected::Digits));
        }
        if digits.len() >= 2 * MOST_CODE as usize {
            return Err(fault_before(alloc, line, left, Expected::Length));
        }
        digits.push(char::from(*byte))?;
    }
    Ok(())
}

/// Code as a text that assembles to the same bytes, which is tried before it is answered: its instructions, one a line.
pub fn code_as_text(alloc: Global, bytes: &[u8]) -> Result<String, TextFault> {
    let instructions = disassemble(alloc, bytes)?;
    let text = instructions_as_text(alloc, instructions.as_slice())?;
    let made = assemble(alloc, BOOTED, text.as_bytes())?;
    if made.image.bytes.as_slice() == bytes {
        return Ok(text);
    }
    Ok(bytes_as_text(alloc, bytes)?)
}
