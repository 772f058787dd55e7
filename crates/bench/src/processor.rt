//! A processor that is about to run, and its code in memory.

use node_memory::{Fault, Memory};
use t414_step::Cpu;

/// The registers of a running processor that has done nothing: where its code and its workspace lie, and what C has.
pub fn cpu_at(instruction: u32, workspace: u32, c: u32) -> Cpu {
    Cpu {
        c,
        ..Cpu::new(instruction, workspace)
    }
}

/// Puts the bytes of code into memory, from an address on.
pub fn place(memory: &mut Memory, start: u32, code: &[u8]) -> Result<(), Fault> {
    let mut address = start;
    for byte in code {
        memory.set_byte(address, *byte)?;
        address = address.wrapping_add(1);
    }
    Ok(())
}
