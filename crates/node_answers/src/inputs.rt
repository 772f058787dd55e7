//! Bytes in the words of the command line.

use lab_command::ArgumentFault;
use node_trace::{BootFault, LinkInput, LinkNumber, link_of};
use script_text::{HexFault, bytes_of, decimal_number};
use std::alloc::{AllocError, Global};

/// The code that hexadecimal digits spell, if a boot takes it.
pub fn read_code(alloc: Global, digits: &str) -> Result<Vec<u8>, ArgumentFault> {
    let code = read_bytes(alloc, digits, ArgumentFault::Code)?;
    match BootFault::of_length(code.len()) {
        None => Ok(code),
        Some(_) => Err(ArgumentFault::Length(code.len())),
    }
}

// The bytes of hexadecimal digits. If they are none, that is this fault.
fn read_bytes(
    alloc: Global,
    digits: &str,
    otherwise: ArgumentFault,
) -> Result<Vec<u8>, ArgumentFault> {
    match bytes_of(alloc, digits) {
        Ok(bytes) => Ok(bytes),
        Err(HexFault::NoMemory) => Err(ArgumentFault::Memory(AllocError)),
        Err(HexFault::NotHex) => Err(otherwise),
    }
}

/// What these words send to a program.
pub fn read_inputs(alloc: Global, words: &[&str]) -> Result<Vec<LinkInput>, ArgumentFault> {
    let mut inputs = Vec::new(alloc);
    for word in words {
        inputs.push(read_input(alloc, word)?)?;
    }
    Ok(inputs)
}

// A link and bytes, `1:0a0b`.
fn read_input(alloc: Global, word: &str) -> Result<LinkInput, ArgumentFault> {
    let (link, digits) = word.split_once(':').ok_or(ArgumentFault::Input)?;
    let link = read_link(link).ok_or(ArgumentFault::Input)?;
    let bytes = read_bytes(alloc, digits, ArgumentFault::Input)?;
    Ok(LinkInput { link, bytes })
}

fn read_link(word: &str) -> Option<LinkNumber> {
    match decimal_number(word) {
        Some(number) if number < 4 => Some(link_of(number as u8)),
        _ => None,
    }
}
