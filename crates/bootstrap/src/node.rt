//! A node: its opening, reset, copy and comparison, and its links.

ghost use Rattle.std.specs.Prelude.{◌≡◌, ◌↔◌};

use crate::state::NodeState;
use link_channels::{LinkNumber, Links};
use node_memory::{Memory, NoMemory};
use os_link::Packet;
use std::alloc::Global;

/// A node: its memory, its links and what it is doing.
#[derive(Drop)]
pub struct Node {
    pub(crate) memory: Memory,
    pub(crate) links: Links,
    pub(crate) state: NodeState,
}

impl Node {
    ghost use Rattle.std.specs.Prelude.{IfOk, IsTrue, length};
    ghost use Rattle.node_memory.specs.Bytes.{IsMemorySize};
    ghost use Rattle.os_link.specs.End.{next_of};
    ghost use Rattle.link_channels.specs.Links.{at, packet_arrived, packet_taken};
    ghost use Rattle.bootstrap.specs.Opening.{opened_node, restarted};

    /// A node with `memory` bytes of memory, all zero, that waits for a control byte.
    ///
    /// `memory` is a multiple of 4 from 2,048 to 65,536 (see `is_memory_size`). `NoMemory` if the bytes can't be
    /// allocated.
    pub fn open(alloc: Global, memory: usize) -> Result<Node, NoMemory>
        requires { IsMemorySize memory }
        ensures answer { IfOk result (λ node. node ≡ opened_node memory) }
    {
        Ok(Node {
            memory: Memory::new(alloc, memory)?,
            links: Links::new(),
            state: NodeState::WantsControl,
        })
    }

    /// Clears all link ends, gives up the registers and waits for a control byte. Memory stays.
    ///
    /// Source: Transputer Reference Manual, reset.
    pub fn reset(&mut self)
        ensures state { self.new ≡ restarted self.old }
    {
        self.links = Links::new();
        self.state = NodeState::WantsControl;
    }

    /// Makes memory zero, and resets: the node is as it was opened.
    pub fn clear(&mut self)
        ensures state { self.new ≡ opened_node (length self.old.memory) }
    {
        self.memory.clear();
        self.reset();
    }

    /// An equal node. `NoMemory` where its memory can't be allocated.
    pub fn copy(&self, alloc: Global) -> Result<Node, NoMemory>
        ensures answer { IfOk result (λ node. node ≡ self.now) }
    {
        Ok(Node {
            memory: self.memory.copy(alloc)?,
            links: self.links.copy(),
            state: self.state,
        })
    }

    /// Makes the node equal to another if their memories are of one size; whether they are. If they aren't nothing
    /// changes. No memory is allocated.
    pub fn copy_from(&mut self, other: &Node) -> bool
        ensures answer { IsTrue result ↔ (length self.old.memory ≡ length other.now.memory) }
        ensures copied { IsTrue result → self.new ≡ other.now }
        ensures other_size { ¬ IsTrue result → self.new ≡ self.old }
    {
        if !self.memory.copy_from(&other.memory) {
            return false;
        }
        self.links = other.links.copy();
        self.state = other.state;
        true
    }

    /// Whether two nodes are equal, whatever led to them.
    pub fn same(&self, other: &Node) -> bool
        ensures equal { IsTrue result → self.now ≡ other.now }
        ensures different { self.now ≡ other.now → IsTrue result }
    {
        self.state == other.state
            && self.links.equals(&other.links)
            && self.memory.equals(&other.memory)
    }

    /// The packet that leaves a link next, which stays. A node that halted has its packets too.
    pub fn waiting(&self, link: LinkNumber) -> Option<Packet>
        ensures answer { result ≡ next_of (at link self.now.links).end.latch }
    {
        self.links.waiting(link)
    }

    /// Takes the packet that leaves a link next. If none waits, nothing changes.
    pub fn take(&mut self, link: LinkNumber) -> Option<Packet>
        ensures answer { result ≡ next_of (at link self.old.links).end.latch }
        ensures state { self.new ≡ record self.old { links = packet_taken link self.old.links } }
    {
        self.links.take(link)
    }

    /// A packet arrives at a link: a byte fills an empty buffer and else is dropped and counted, an acknowledge counts
    /// where one is awaited. So it does at a node that halted.
    pub fn deliver(&mut self, link: LinkNumber, packet: Packet)
        ensures state { self.new ≡ record self.old { links = packet_arrived link packet self.old.links } }
    {
        self.links.deliver(link, packet);
    }
}
