//! Why a node halts.

use thiserror::Error;

/// What an instruction meets that halts the node.
#[derive(Clone, Copy, Debug, PartialEq, Eq, Error)]
pub enum Fault {
    /// A byte or a word was asked for at an address outside memory.
    #[error("an address lies outside memory")]
    OutsideMemory,
    /// `opr` with an operand that is the code of no operation.
    #[error("there is no operation {0:X}")]
    UnknownOperation(u32),
    /// Error was set while HaltOnError was set.
    #[error("the error flag was set")]
    ErrorSet,
    /// A descriptor or a queue of high priority was asked for.
    #[error("a process or queue of high priority was asked for")]
    HighPriority,
    /// A channel instruction named the event channel, or a link's channel of the other direction.
    #[error("an instruction named a channel that it can't use")]
    WrongChannel,
}

impl Fault {
    ghost use Rattle.std.specs.Prelude.{◌≡◌};
    ghost use Rattle.node_memory.specs.Faults.{fault_number};

    /// The number of the fault, from 1 to 5 in the order of the variants.
    pub fn number(self) -> u8
        ensures { result ≡ fault_number self }
    {
        match self {
            Fault::OutsideMemory => 1,
            Fault::UnknownOperation(_) => 2,
            Fault::ErrorSet => 3,
            Fault::HighPriority => 4,
            Fault::WrongChannel => 5,
        }
    }
}
