//! The instruction byte that a Step does.

use bootstrap::Node;
use link_channels::Links;
use node_memory::{Fault, Memory};
use script_text::TextWriter;
use std::alloc::AllocError;
use t414_assembly::{Instruction, write_instruction};
use t414_decode::{Function, decode};
use t414_step::Cpu;

/// An instruction byte: its address, and the operand register before it.
#[derive(Clone, Copy)]
pub struct InstructionByte {
    pub address: u32,
    pub byte: u8,
    pub operand: u32,
}

impl InstructionByte {
    /// The byte that the node's next Step does, after its links were served. `None` if a Step does none: the node
    /// doesn't run, no process can go on, or a fault comes before the byte.
    pub fn next(node: &Node) -> Result<Option<InstructionByte>, AllocError> {
        let Some(mut registers) = node.registers() else {
            return Ok(None);
        };
        let mut memory = node.memory().copy(node.memory().allocator())?;
        let mut links = node.links().copy();
        Ok(find_next(&mut registers, &mut memory, &mut links).unwrap_or(None))
    }

    /// Writes the name and the operand; an operation by its name alone.
    pub fn write(self, text: &mut TextWriter) {
        let (function, nibble) = decode(self.byte);
        let operand = match function {
            Function::Prefix | Function::NegativePrefix => u32::from(nibble),
            _ => self.operand | u32::from(nibble),
        };
        write_instruction(text, Instruction { function, operand });
    }
}

// Serves the links, and finds the byte that is done then.
fn find_next(
    registers: &mut Cpu,
    memory: &mut Memory,
    links: &mut Links,
) -> Result<Option<InstructionByte>, Fault> {
    links.serve_all(memory, &mut registers.queue)?;
    match next_place(registers, memory)? {
        Some((address, operand)) => Ok(Some(InstructionByte {
            address,
            byte: memory.byte(address)?,
            operand,
        })),
        None => Ok(None),
    }
}

// Where the current process goes on, or the first of the queue, and the operand register there.
fn next_place(registers: &mut Cpu, memory: &mut Memory) -> Result<Option<(u32, u32)>, Fault> {
    if registers.running {
        return Ok(Some((registers.instruction, registers.operand)));
    }
    match registers.queue.take(memory)? {
        Some(process) => {
            let workspace = process & 0xffff_fffc;
            Ok(Some((memory.word(workspace.wrapping_sub(4))?, 0)))
        }
        None => Ok(None),
    }
}
