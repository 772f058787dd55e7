//! Bytes as instructions.
ghost use Rattle.std.specs.Prelude.{◌≡◌, ◌≤◌, ◌<◌, ◌+◌, ◌++◌, IfOk, length, drop, ◌∷◌, []};
ghost use Rattle.t414_assembly.specs.Reassembled.{bytes_of_all};
ghost use Rattle.t414_assembly.specs.Usual.{usual};

use crate::codes::is_prefix;
use crate::shortest::spell;
use std::alloc::{AllocError, Global};
use t414_decode::{Function, accumulate, decode};

/// A function with its operand. A prefix by itself is one byte, and its operand a nibble.
#[derive(Clone, Copy)]
pub struct Instruction {
    pub function: Function,
    pub operand: u32,
}

/// The instructions that bytes are. Where the next bytes aren't the usual spelling of an instruction, the first of them
/// is a prefix by itself. Spelled one after another the instructions are the bytes.
pub fn disassemble(alloc: Global, bytes: &[u8]) -> Result<Vec<Instruction>, AllocError>
    ensures { IfOk result (λ found. bytes_of_all found.items ≡ bytes.now) }
{
    let mut found = Vec::new(alloc);
    let mut rest = bytes;
    while !rest.is_empty() {
        let (instruction, count) = first_instruction(rest);
        found.push(instruction)?;
        rest = &rest[count..];
    }
    Ok(found)
}

// The instruction at the head of bytes, and how many it takes.
fn first_instruction(bytes: &[u8]) -> (Instruction, usize)
    requires { 0 < length bytes.now }
    ensures bytes { bytes.now ≡ usual result.0.function result.0.operand ++ drop result.1 bytes.now }
    ensures some { 0 < result.1 }
    ensures within { result.1 ≤ length bytes.now }
{
    if let Some(instruction) = read(bytes) {
        let spelling = spell(instruction.function, instruction.operand);
        let count = usize::from(spelling.count());
        if bytes.len() >= count && &bytes[..count] == spelling.as_slice() {
            return (instruction, count);
        }
    }
    (prefix(bytes[0]), 1)
}

// A byte as an instruction by itself.
fn prefix(byte: u8) -> Instruction
    ensures { usual result.function result.operand ≡ byte ∷ [] }
{
    let (function, nibble) = decode(byte);
    Instruction {
        function,
        operand: u32::from(nibble),
    }
}

// The first instruction of bytes, if it ends within as many as one can have.
fn read(bytes: &[u8]) -> Option<Instruction> {
    let mut operand = 0;
    for byte in bytes.get(..8).unwrap_or(bytes) {
        operand = accumulate(operand, *byte);
        let (function, _) = decode(*byte);
        if !is_prefix(function) {
            return Some(Instruction { function, operand });
        }
    }
    None
}
