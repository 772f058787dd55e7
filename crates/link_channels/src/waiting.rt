//! Who waits at a channel.

ghost use Rattle.std.specs.Prelude.{◌≡◌};
ghost use Rattle.node_memory.specs.Effect.{effect_with};
ghost use Rattle.link_channels.specs.Waiting.{waiting_at, scheduled};
ghost use Rattle.link_channels.specs.declared.link.Link.{Link};

use node_memory::{Fault, Memory};
use process_queue::{NOT_PROCESS, Queue};

/// The state of an alternative that enables its guards, in the word 12 below its workspace.
pub const ENABLING: u32 = 0x8000_0001;

/// The state of an alternative that waits, in the word 12 below its workspace.
pub const WAITING: u32 = 0x8000_0002;

/// The state of an alternative one of whose guards is ready, in the word 12 below its workspace.
pub const READY: u32 = 0x8000_0003;

/// The word at the workspace of an alternative that has chosen no branch yet.
pub const NONE_SELECTED: u32 = 0xffff_ffff;

// The workspace of the process that waits at a channel, if there is one. A word that is the descriptor of a process
// of high priority is a fault.
#[inline(always)]
#[tactic(auto, unfolding(crate::specs::Waiting::waiting_at))]
pub(crate) fn waiting_at(memory: &Memory, channel: u32) -> Result<Option<u32>, Fault>
    ensures answer { result ≡ waiting_at memory.now channel }
{
    let descriptor = memory.word(channel)?;
    if descriptor == NOT_PROCESS {
        Ok(None)
    } else if descriptor % 2 == 0 {
        Err(Fault::HighPriority)
    } else {
        Ok(Some(descriptor - descriptor % 4))
    }
}

// The process of a descriptor goes on, unless it is none.
pub(crate) fn schedule(memory: &mut Memory, queue: &mut Queue, descriptor: u32) -> Result<(), Fault>
    ensures answer { (l : Link) → effect_with result queue.new l memory.new ≡ scheduled descriptor l queue.old memory.old }
{
    if descriptor == NOT_PROCESS {
        return Ok(());
    }
    if descriptor % 2 == 0 {
        return Err(Fault::HighPriority);
    }
    queue.put(memory, descriptor - descriptor % 4)
}
