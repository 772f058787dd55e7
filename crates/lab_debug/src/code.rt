//! The instructions of a node, disassembled.

use bootstrap::{Memory, Node};
use node_trace::{LinePlace, ProgramLine, label_in, write_source};
use record_following::next_registers;
use script_text::TextWriter;
use std::alloc::{AllocError, Global};
use t414_assembly::{Instruction, disassemble, is_prefix, spell, write_instruction};
use t414_decode::decode;

/// How many instructions are shown.
const SHOWN: usize = 16;

/// How many bytes are looked at: an instruction has eight at most.
const WINDOW: u32 = 136;

/// How far before the next instruction the code of a program begins.
const BEFORE: u32 = 12;

/// The most bytes of an instruction that are shown beside it in a column.
const COLUMN: usize = 4;

/// The address of the byte that a node does next, if its next Step does one.
pub fn next_address(node: &Node) -> Result<Option<u32>, AllocError> {
    let registers = match node.registers() {
        Some(cpu) if cpu.running => Some(cpu),
        Some(_) if !node.quiet() => next_registers(node)?,
        _ => None,
    };
    Ok(match registers {
        Some(cpu) => Some(cpu.instruction),
        None => None,
    })
}

// Whether a node has done prefixes of its next instruction.
fn has_prefixes(node: &Node) -> bool {
    match node.registers() {
        Some(cpu) => cpu.running && cpu.operand != 0,
        None => false,
    }
}

// The address of the first byte of the instruction that has a byte at this address, if prefixes before that byte were done.
fn begin_of(node: &Node, address: u32) -> u32 {
    let mut begin = address;
    if has_prefixes(node) {
        for _ in 0..7u8 {
            let before = begin.wrapping_sub(1);
            match node.memory().byte(before) {
                Ok(byte) if is_prefix(decode(byte).0) => begin = before,
                _ => break,
            }
        }
    }
    begin
}

// The line of a program at which its code is shown from, so that the next instruction is among it.
fn line_before(lines: &[ProgramLine], address: u32) -> Option<u32> {
    let mut found = None;
    for line in lines {
        let behind = address.wrapping_sub(line.address);
        if line.length > 0 && behind <= BEFORE && found.is_none() {
            found = Some(line.address);
        }
    }
    found
}

// The bytes of memory from an address on.
fn bytes_at(alloc: Global, memory: &Memory, address: u32) -> Result<Vec<u8>, AllocError> {
    let mut bytes = Vec::new(alloc);
    for place in 0..WINDOW {
        match memory.byte(address.wrapping_add(place)) {
            Ok(byte) => bytes.push(byte)?,
            Err(_) => break,
        }
    }
    Ok(bytes)
}

// Writes the labels at an address that have a line to themselves.
fn write_labels(lines: &[ProgramLine], address: u32, text: &mut TextWriter) {
    for line in lines {
        if line.length == 0
            && line.address == address
            && let LinePlace::Label(_) = line.place
            && let Some(label) = label_in(line.text)
        {
            text.push(label);
            text.push(":\n");
        }
    }
}

// Writes the bytes of an instruction in their column.
fn write_bytes(bytes: &[u8], text: &mut TextWriter) {
    for byte in bytes {
        text.push_hex_byte(*byte);
        text.push(" ");
    }
    for _ in bytes.len()..COLUMN {
        text.push("   ");
    }
}

// Writes an instruction, its place and its line.
fn write_row(
    lines: &[ProgramLine],
    address: u32,
    instruction: Instruction,
    bytes: &[u8],
    text: &mut TextWriter,
) {
    text.push_word(address);
    text.push("  ");
    write_bytes(bytes, text);
    text.push(" ");
    let begin = text.as_mut_string().len();
    write_instruction(text, instruction);
    let _ = write_source(text, begin, lines, address, 0);
    text.push("\n");
}

/// Writes instructions of a node from an address on, or around the one that it does next, which is marked.
pub fn write_code(
    alloc: Global,
    node: &Node,
    address: Option<u32>,
    lines: &[ProgramLine],
    text: &mut TextWriter,
) -> Result<(), AllocError> {
    let next = next_address(node)?;
    let from = match (address, next) {
        (Some(address), _) => address,
        (None, Some(next)) => match line_before(lines, next) {
            Some(line) => line,
            None => begin_of(node, next),
        },
        (None, None) => {
            text.push("it does no instruction next: give an address\n");
            return Ok(());
        }
    };
    let bytes = bytes_at(alloc, node.memory(), from)?;
    if bytes.is_empty() {
        text.push("no memory is there\n");
    }
    write_rows(alloc, from, next, lines, bytes.as_slice(), text)
}

// Writes the instructions that bytes at an address are.
fn write_rows(
    alloc: Global,
    from: u32,
    next: Option<u32>,
    lines: &[ProgramLine],
    bytes: &[u8],
    text: &mut TextWriter,
) -> Result<(), AllocError> {
    let instructions = disassemble(alloc, bytes)?;
    write_instructions(instructions.as_slice(), from, next, lines, bytes, text);
    Ok(())
}

// Writes the first of these instructions, which bytes at an address are.
fn write_instructions(
    instructions: &[Instruction],
    from: u32,
    next: Option<u32>,
    lines: &[ProgramLine],
    bytes: &[u8],
    text: &mut TextWriter,
) {
    let mut address = from;
    let mut rest = bytes;
    for instruction in instructions.iter().take(SHOWN) {
        let spelling = spell(instruction.function, instruction.operand);
        let length = usize::from(spelling.count()).min(rest.len());
        let (own, behind) = rest.split_at(length);
        write_labels(lines, address, text);
        text.push(if is_among(address, length as u32, next) {
            "> "
        } else {
            "  "
        });
        write_row(lines, address, *instruction, own, text);
        address = address.wrapping_add(length as u32);
        rest = behind;
    }
}

// Whether the next byte is among the `length` bytes from an address on.
fn is_among(address: u32, length: u32, next: Option<u32>) -> bool {
    match next {
        Some(next) => next.wrapping_sub(address) < length,
        None => false,
    }
}
