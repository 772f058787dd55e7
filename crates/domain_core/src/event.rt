//! What is asked of a domain, by whom, and what it answers.
ghost use Rattle.std.specs.Prelude.{◌≡◌};
ghost use Rattle.domain_core.specs.Numbers.{refusal_number};
ghost use Rattle.domain_core.specs.declared.event.Refusal.TheVariants.{NoMemory};

use bootstrap::Seen;
use std::alloc::{AllocError, AllocFailed};
use t414_step::Stepped;
use thiserror::Error;
use virtual_switch::ConfigReply;

/// Who asks.
#[derive(Clone, Copy, PartialEq, Eq)]
pub enum By {
    /// A user, by the user's number in the domain.
    User(u8),
    /// The farm itself, which steps nodes and moves packets. It has no host.
    Farm,
}

/// What can be asked of a domain.
#[derive(Clone, Copy, PartialEq, Eq)]
pub enum Event {
    /// The next configuration byte comes to the switch.
    Config(u8),
    /// A byte is put in the sending queue of a host.
    Write(u8, u8),
    /// The front byte of a host's receiving queue is taken.
    Read(u8),
    /// A node is reset.
    Reset(u8),
    /// A node is looked at.
    Look(u8),
    /// A node does one Step.
    Step(u8),
    /// The packet that waits at the device of a virtual port is moved through the switch.
    Move(u8),
}

/// What became of the packet that waits at a port.
#[derive(Clone, Copy, PartialEq, Eq)]
pub enum Moved {
    /// The port has no device, or no packet waits there.
    Nothing,
    /// The port drives no output: the packet is gone.
    Lost,
    /// An output that the port drives isn't ready: the packet still waits.
    Stayed,
    /// Each output that the port drives has a copy.
    Passed,
}

/// What an event is answered.
#[derive(Clone, Copy, PartialEq, Eq)]
pub enum Reply {
    /// The switch's reply to a configuration byte.
    Config(ConfigReply),
    /// The byte is in the host's sending queue.
    Written,
    /// The host's sending queue is full, and the byte isn't in it.
    Full,
    /// The front byte of the host's receiving queue, if there was one.
    Read(Option<u8>),
    /// The node was reset.
    Reset,
    /// What is seen of the node.
    Look(Seen),
    /// What the Step came to.
    Stepped(Stepped),
    /// What became of the packet.
    Moved(Moved),
}

/// What a user asked, and the answer.
#[derive(Clone, Copy)]
pub struct AnsweredCommand {
    /// What was asked.
    pub event: Event,
    /// What was answered.
    pub reply: Reply,
}

/// Why an event isn't answered. Nothing has changed then, and nothing is recorded.
#[derive(Clone, Copy, Debug, PartialEq, Eq, Error)]
pub enum Refusal {
    /// There is no such user, host, node or port, or the host isn't the user's.
    #[error("there is no such user, host, node or port")]
    NoSuch,
    /// The domain's recorded events number its limit.
    #[error("the journal is full")]
    JournalFull,
    /// The journal can't grow, or a node can't be copied.
    #[error("no memory")]
    NoMemory,
}

impl Refusal {
    /// The number of the refusal, from 1 to 3 in the order in which they are tested.
    pub fn number(self) -> u8
        ensures { result ≡ refusal_number self }
    {
        match self {
            Refusal::NoSuch => 1,
            Refusal::JournalFull => 2,
            Refusal::NoMemory => 3,
        }
    }
}

impl From<AllocError> for Refusal {
    ghost from_gives = { λ _ refusal. refusal ≡ NoMemory };

    fn from(_error: AllocError) -> Refusal {
        Refusal::NoMemory
    }
}

impl<T: Drop> From<AllocFailed<T>> for Refusal {
    ghost from_gives = { λ _ refusal. refusal ≡ NoMemory };

    fn from(_error: AllocFailed<T>) -> Refusal {
        Refusal::NoMemory
    }
}
