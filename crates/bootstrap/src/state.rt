//! What a node is doing.

use link_channels::LinkNumber;
use node_memory::Fault;
use t414_step::Cpu;

/// What a node takes the bytes of a link for, after its control byte.
///
/// Source: Transputer Reference Manual, bootstrapping.
#[derive(Clone, Copy, PartialEq, Eq)]
pub enum Task {
    /// To store a word. `left` bytes, 1 to 8, are still to come: first those of the address, then those of the word.
    Poke { left: u8, address: u32, word: u32 },
    /// To answer a word. `left` bytes, 1 to 4, of its address are still to come.
    Peek { left: u8, address: u32 },
    /// To load code. `left` bytes, 1 to 255, are still to come. The next one is stored at the address.
    Load { left: u8, address: u32 },
}

/// What a node is doing. A node that halted has given up its registers.
///
/// Source: Transputer Reference Manual, bootstrapping.
#[derive(Clone, Copy, PartialEq, Eq)]
pub enum NodeState {
    /// It waits for a control byte.
    WantsControl,
    /// It takes bytes from the link that gave the control byte.
    Takes {
        link: LinkNumber,
        task: Task,
    },
    /// It answers a peek: `left` bytes, 0 to 3, are not yet posted. The next one is the lowest byte of `word`.
    Answers {
        link: LinkNumber,
        left: u8,
        word: u32,
    },
    /// It runs what was loaded.
    Runs(Cpu),
    /// It met a fault.
    Halted(Fault),
}
