//! Why a node does no more than it does.

use bootstrap::Task;
use link_channels::{LinkNumber, Process};
use node_memory::Fault;

/// A process waits for bytes of a link.
#[derive(Clone, Copy)]
pub struct InputWait {
    /// Who waits, if that can still be read in memory.
    pub process: Option<Process>,
    /// How many bytes are still to come.
    pub left: u32,
    /// How many it asked for, if it was the last to leave the processor.
    pub whole: Option<u32>,
}

/// A byte was posted at a link, and its acknowledge hasn't come.
#[derive(Clone, Copy)]
pub struct OutputWait {
    /// Who waits, if that can still be read in memory.
    pub process: Option<Process>,
    /// How many bytes are to be sent after that one.
    pub behind: u32,
    /// How many bytes the process sends in all, if that can still be read: `out` has the number in A, if the process was
    /// the last to leave the processor.
    pub whole: Option<u32>,
}

/// What a link is waited for.
#[derive(Clone, Copy)]
pub struct LinkWaits {
    pub input: Option<InputWait>,
    pub output: Option<OutputWait>,
    /// The process of an alternative that is to be notified of a byte.
    pub watch: Option<Process>,
}

/// Why a node does no more than it does.
#[derive(Clone, Copy)]
pub enum Cause {
    /// It waits for a control byte, by any link.
    WantsControl,
    /// It takes the bytes of a task from a link.
    Takes { link: LinkNumber, task: Task },
    /// It answers a peek by a link: `left` bytes are not yet posted, and the acknowledge of the one before is awaited.
    Answers { link: LinkNumber, left: u8 },
    /// It has a process to run, or a link to serve.
    Runs,
    /// No process can go on before a link is served. What each link is waited for, in the order of their numbers.
    Rests([LinkWaits; 4]),
    /// It met a fault.
    Halted(Fault),
}

/// A join that waits for more processes to end. The one that ended last was the last to leave the processor.
#[derive(Clone, Copy)]
pub struct JoinWait {
    /// The address of the last byte of its `endp`.
    pub ended: u32,
    /// The workspace with which the join goes on.
    pub workspace: u32,
    /// How many processes are to end still.
    pub count: u32,
}

/// What a process wants of a channel in memory.
#[derive(Clone, Copy)]
pub enum Rendezvous {
    Receives,
    Sends,
    /// It waits in an alternative.
    Chooses,
}

/// A process waits at a channel in memory.
#[derive(Clone, Copy)]
pub struct InsideWait {
    /// The address of the channel's word.
    pub channel: u32,
    pub process: Process,
    pub rendezvous: Rendezvous,
}
