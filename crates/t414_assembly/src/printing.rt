//! Code as text: digits, listings, script lines and instructions.

use crate::assembling::Assembly;
use crate::disassembly::Instruction;
use crate::loading::LOADED;
use crate::mnemonics::{function_name, operation_name};
use script_text::{TextWriter, numbered_lines};
use std::alloc::{AllocError, Global};
use t414_decode::Function;

// How many bytes a line of a listing shows.
const BYTES_A_LINE: usize = 8;

/// Two hexadecimal digits for each byte.
pub fn hexadecimal(alloc: Global, bytes: &[u8]) -> Result<String, AllocError> {
    let mut text = TextWriter::new(alloc);
    text.push_hex_bytes(bytes);
    text.finish()
}

/// Each line of a text after the address and the bytes of its statements, eight bytes a line.
pub fn listing(
    alloc: Global,
    origin: u32,
    assembly: &Assembly,
    text: &[u8],
) -> Result<String, AllocError> {
    let lines = numbered_lines(alloc, text)?;
    let mut listed = TextWriter::new(alloc);
    for (index, line) in lines.iter().enumerate() {
        let address = origin.wrapping_add(assembly.start_of_line(index));
        let source = std::str::from_utf8(line.text).unwrap_or("");
        list_line(&mut listed, address, assembly.code_of_line(index), source);
    }
    listed.finish()
}

// A line of a text beside the bytes of its statements.
fn list_line(listed: &mut TextWriter, address: u32, bytes: &[u8], source: &str) {
    let (head, rest) = bytes.split_at(bytes.len().min(BYTES_A_LINE));
    list_bytes(listed, address, head);
    list_source(listed, head.len(), source);
    listed.push("\n");
    let mut address = address;
    for row in rest.chunks(BYTES_A_LINE) {
        address = address.wrapping_add(BYTES_A_LINE as u32);
        list_bytes(listed, address, row);
        listed.push("\n");
    }
}

// A line of a text, if it isn't empty, after `count` bytes and blanks for those that a line could have besides.
fn list_source(listed: &mut TextWriter, count: usize, source: &str) {
    if source.is_empty() {
        return;
    }
    for place in count..BYTES_A_LINE {
        listed.push(if place == 0 { "  " } else { "   " });
    }
    listed.push("  ");
    listed.push(source);
}

// An address and the bytes that are there.
fn list_bytes(listed: &mut TextWriter, address: u32, bytes: &[u8]) {
    listed.push_word(address);
    listed.push(" ");
    if bytes.is_empty() {
        listed.push(" ");
    }
    for byte in bytes {
        listed.push(" ");
        listed.push_hex_byte(*byte);
    }
}

/// The lines of a script that load code longer than a boot takes: a poke for each word of the code from `LOADED` on, and
/// a boot that moves the workspace to the first word after the code and jumps to the code.
pub fn pokes(
    alloc: Global,
    host: &str,
    user: &str,
    boot: &[u8],
    code: &[u8],
) -> Result<String, AllocError> {
    let mut script = TextWriter::new(alloc);
    let mut address = LOADED;
    for word in code.chunks(4) {
        begin_line(&mut script, user, " poke ", host);
        script.push_word(address);
        script.push(" ");
        for place in (0..4usize).rev() {
            script.push_hex_byte(word.get(place).copied().unwrap_or(0));
        }
        script.push("\n");
        address = address.wrapping_add(4);
    }
    begin_line(&mut script, user, " boot ", host);
    script.push_hex_bytes(boot);
    script.push("\n");
    script.finish()
}

fn begin_line(script: &mut TextWriter, user: &str, command: &str, host: &str) {
    script.push(user);
    script.push(command);
    script.push(host);
    script.push(" ");
}

/// Writes an instruction as the assembler reads it: an operation by its name, and any other function with its operand, a
/// signed decimal number.
pub fn write_instruction(text: &mut TextWriter, instruction: Instruction) {
    let Instruction { function, operand } = instruction;
    match (function, operation_name(operand)) {
        (Function::Operate, Some(name)) => text.push(name),
        _ => {
            text.push(function_name(function));
            text.push(" ");
            text.push_signed(i64::from(operand.cast_signed()));
        }
    }
}

/// Instructions as text, one a line.
pub fn instructions_as_text(
    alloc: Global,
    instructions: &[Instruction],
) -> Result<String, AllocError> {
    let mut text = TextWriter::new(alloc);
    for instruction in instructions {
        write_instruction(&mut text, *instruction);
        text.push("\n");
    }
    text.finish()
}

/// Bytes as text, one a line.
pub fn bytes_as_text(alloc: Global, bytes: &[u8]) -> Result<String, AllocError> {
    let mut text = TextWriter::new(alloc);
    for byte in bytes {
        text.push("byte #");
        text.push_hex_byte(*byte);
        text.push("\n");
    }
    text.finish()
}
