//! The bytes of memory around the instruction pointer.

use crate::NoMemory;
use crate::changes::FrameChanges;
use bootstrap::Memory;
use node_memory::MEMORY_START;
use script_text::TextWriter;
use serde_json::{Value, put};
use std::alloc::Global;

/// How many bytes are written together.
const BLOCK: u32 = 16;

/// How many blocks a film has: one block before that of the instruction pointer at least, and 32 bytes from it on.
const BLOCKS: u32 = 4;

/// The most bytes that a memory has.
const MOST_BYTES: usize = 65_536;

/// What a film has shown of the nodes' memories: each byte as it was shown last. A byte that was never shown is `None`.
#[derive(Drop)]
pub struct KnownCode {
    nodes: Vec<Vec<Option<u8>>>,
}

// The bytes of a block of memory that begins at an offset, those outside memory left out.
fn bytes_of_block(alloc: Global, memory: &Memory, start: u32) -> Result<Vec<u8>, NoMemory> {
    let mut bytes = Vec::new(alloc);
    for place in 0..BLOCK {
        let offset = start.saturating_add(place);
        if let Ok(byte) = memory.byte(MEMORY_START.wrapping_add(offset)) {
            bytes.push(byte)?;
        }
    }
    Ok(bytes)
}

// Notes the bytes from a place on, and answers whether one of them wasn't known.
fn learn(known: &mut [Option<u8>], start: usize, bytes: &[u8]) -> bool {
    let mut is_new = false;
    for (place, byte) in known.iter_mut().skip(start).zip(bytes.iter()) {
        if *place != Some(*byte) {
            *place = Some(*byte);
            is_new = true;
        }
    }
    is_new
}

// The digits of bytes.
fn digits(alloc: Global, bytes: &[u8]) -> Result<Value, NoMemory> {
    let mut text = TextWriter::new(alloc);
    text.push_hex_bytes(bytes);
    Ok(Value::String(text.finish()?))
}

impl KnownCode {
    /// Nothing is known of this number of nodes.
    pub fn none(alloc: Global, nodes: usize) -> Result<KnownCode, NoMemory> {
        let mut known = Vec::new(alloc);
        for _ in 0..nodes {
            known.push(vec![in alloc; None; MOST_BYTES]?)?;
        }
        Ok(KnownCode { nodes: known })
    }

    /// Adds the blocks of memory around an address, if not all of their bytes are known. They are known then.
    pub fn tell(
        &mut self,
        alloc: Global,
        node: u8,
        memory: &Memory,
        address: u32,
        changes: &mut FrameChanges,
    ) -> Result<(), NoMemory> {
        let place = address.wrapping_sub(MEMORY_START);
        let Some(known) = self.nodes.get_mut(usize::from(node)) else {
            return Ok(());
        };
        if place as usize >= MOST_BYTES {
            return Ok(());
        }
        let first = place.saturating_sub(BLOCK) / BLOCK;
        for block in 0..BLOCKS {
            let start = first.saturating_add(block).saturating_mul(BLOCK);
            let bytes = bytes_of_block(alloc, memory, start)?;
            if learn(known.as_mut_slice(), start as usize, bytes.as_slice()) {
                let address = MEMORY_START.wrapping_add(start);
                let name = format!(in alloc; "node {node} memory {address:08x}")?;
                put(
                    changes,
                    alloc,
                    name.as_str(),
                    digits(alloc, bytes.as_slice())?,
                )?;
            }
        }
        Ok(())
    }
}
