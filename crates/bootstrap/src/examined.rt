//! A node as it is examined outside a farm: its memory, its links and the registers of what runs.

ghost use Rattle.std.specs.Prelude.{◌≡◌};

use crate::node::Node;
use crate::state::NodeState;
use link_channels::Links;
use node_memory::Memory;
use t414_step::Cpu;

impl Node {
    ghost use Rattle.bootstrap.specs.Examined.{registers_of, running_with};

    /// A node that runs with these registers, whatever they hold, over this memory and these links.
    pub fn running(memory: Memory, links: Links, registers: Cpu) -> Node
        ensures answer { result ≡ running_with memory links registers }
    {
        Node {
            memory,
            links,
            state: NodeState::Runs(registers),
        }
    }

    /// The registers of a node that runs, or `None` where it boots or has halted.
    pub fn registers(&self) -> Option<Cpu>
        ensures answer { result ≡ registers_of self.now.state }
    {
        match self.state {
            NodeState::Runs(registers) => Some(registers),
            _ => None,
        }
    }

    /// What the node is doing.
    pub fn state(&self) -> NodeState
        ensures answer { result ≡ self.now.state }
    {
        self.state
    }

    /// The node's memory.
    pub fn memory(&self) -> &Memory
        ensures answer { result.now ≡ self.now.memory }
    {
        &self.memory
    }

    /// The node's four links.
    pub fn links(&self) -> &Links
        ensures answer { result.now ≡ self.now.links }
    {
        &self.links
    }

    /// The node's memory and its links. What it was doing is given up.
    pub fn into_parts(self) -> (Memory, Links)
        ensures memory { result.0 ≡ self.memory }
        ensures links { result.1 ≡ self.links }
    {
        let Node {
            memory,
            links,
            state: _,
        } = self;
        (memory, links)
    }
}
