//! What a node was before it changed.

use bootstrap::{Cpu, Memory, NoMemory, Node};
use link_channels::FourLinks;

/// The registers, memory and links that a node had.
#[derive(Drop)]
pub struct Snapshot {
    pub registers: Option<Cpu>,
    pub memory: Memory,
    pub links: FourLinks,
}

impl Snapshot {
    /// Those that a node has.
    pub fn of(node: &Node) -> Result<Snapshot, NoMemory> {
        Ok(Snapshot {
            registers: node.registers(),
            memory: node.memory().copy(node.memory().allocator())?,
            links: node.links().four(),
        })
    }
}
