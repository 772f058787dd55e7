//! Soft channels: two processes of one node meet at a word of its memory. What they do leaves the links.

ghost use Rattle.std.specs.Prelude.{◌≡◌, OnErr};
ghost use Rattle.node_memory.specs.Effect.{effect_of, effect_with};
ghost use Rattle.link_channels.specs.declared.link.FourLinks.{FourLinks};
ghost use Rattle.link_channels.specs.declared.link.Link.{Link};
ghost use Rattle.link_channels.specs.Soft.{message_told, chosen, soft_disable, soft_enable, soft_reset, soft_transferred, wait_there};

use crate::process::{Process, Transfer, TransferDirection, TransferOutcome};
use crate::waiting::{ENABLING, NONE_SELECTED, READY, WAITING, waiting_at};
use node_memory::{Fault, Memory};
use process_queue::{NOT_PROCESS, Queue};

impl Process {
    // Waits at the channel: its pointer lies where the other finds it, and its place is saved.
    #[inline(always)]
    fn wait_there(
        &self,
        memory: &mut Memory,
        queue: &Queue,
        transfer: Transfer,
    ) -> Result<TransferOutcome, Fault>
        ensures answer { (ls : FourLinks) → effect_with result queue.now ls memory.new ≡ wait_there self.now transfer ls queue.now memory.old }
    {
        memory.set_word(transfer.channel, self.descriptor())?;
        memory.set_word(self.workspace.wrapping_sub(12), transfer.pointer)?;
        memory.set_word(self.workspace.wrapping_sub(4), self.instruction)?;
        Ok(TransferOutcome::Waits)
    }

    // Tells an alternative of a message, which goes on if it waited, and waits for the input that it does then. It is apart
    // from messages between two processes that wait for each other, and takes the address of nothing that these use.
    #[cold]
    #[inline(never)]
    fn tell_by_value(
        self,
        memory: &mut Memory,
        queue: Queue,
        transfer: Transfer,
        other: u32,
        waits: bool,
    ) -> (Queue, Result<TransferOutcome, Fault>)
        ensures answer { (ls : FourLinks) → effect_with result.1 result.0 ls memory.new ≡ message_told waits other self transfer ls queue memory.old }
        ensures queue_unchanged { OnErr result.1 (result.0 ≡ queue) }
    {
        if let Err(fault) = memory.set_word(other.wrapping_sub(12), READY) {
            return (queue, Err(fault));
        }
        let mut after = queue;
        if waits {
            if let Err(fault) = after.put(memory, other) {
                return (queue, Err(fault));
            }
        }
        match self.wait_there(memory, &after, transfer) {
            Ok(outcome) => (after, Ok(outcome)),
            Err(fault) => (queue, Err(fault)),
        }
    }

    // The same, with the queue in its place.
    #[inline(always)]
    fn tell_alternative(
        &self,
        memory: &mut Memory,
        queue: &mut Queue,
        transfer: Transfer,
        other: u32,
        waits: bool,
    ) -> Result<TransferOutcome, Fault>
        ensures answer { (ls : FourLinks) → effect_with result queue.new ls memory.new ≡ message_told waits other self.now transfer ls queue.old memory.old }
        ensures queue_unchanged { OnErr result (queue.new ≡ queue.old) }
    {
        let (after, outcome) = self.tell_by_value(memory, *queue, transfer, other, waits);
        *queue = after;
        outcome
    }

    // Takes a message from a process that has one, or gives one to a process that waits for it, or waits.
    #[inline(always)]
    #[tactic(auto, unfolding(crate::specs::Soft::soft_input, crate::specs::Soft::soft_output))]
    pub(crate) fn transfer_softly(
        &self,
        memory: &mut Memory,
        queue: &mut Queue,
        direction: TransferDirection,
        transfer: Transfer,
    ) -> Result<TransferOutcome, Fault>
        ensures answer { (ls : FourLinks) → effect_with result queue.new ls memory.new ≡ soft_transferred direction self.now transfer ls queue.old memory.old }
        ensures queue_unchanged { OnErr result (queue.new ≡ queue.old) }
    {
        let Some(other) = waiting_at(memory, transfer.channel)? else {
            return self.wait_there(memory, queue, transfer);
        };
        let there = memory.word(other.wrapping_sub(12))?;
        let (from, to) = match direction {
            TransferDirection::Input => (there, transfer.pointer),
            TransferDirection::Output => match there {
                ENABLING | READY => return self.tell_alternative(
                    memory, queue, transfer, other, false,
                ),
                WAITING => return self.tell_alternative(memory, queue, transfer, other, true),
                target => (transfer.pointer, target),
            },
        };
        memory.copy_up(from, to, transfer.count)?;
        memory.set_word(transfer.channel, NOT_PROCESS)?;
        queue.put(memory, other)?;
        Ok(TransferOutcome::GoesOn)
    }

    // Names a channel that the process is ready to take from.
    #[tactic(auto, unfolding(crate::specs::Soft::soft_enable))]
    pub(crate) fn enable_softly(&self, memory: &mut Memory, channel: u32) -> Result<(), Fault>
        ensures answer { (ls : FourLinks) → effect_of result ls memory.new ≡ soft_enable self.now channel ls memory.old }
    {
        let other = memory.word(channel)?;
        if other == NOT_PROCESS {
            memory.set_word(channel, self.descriptor())
        } else if other == self.descriptor() {
            Ok(())
        } else {
            memory.set_word(self.workspace.wrapping_sub(12), READY)
        }
    }

    // Chooses the branch of a guard that is ready, unless one was chosen before; whether it is chosen.
    pub(crate) fn choose(&self, memory: &mut Memory, offset: u32) -> Result<bool, Fault>
        ensures of_four { (ls : FourLinks) → effect_of result ls memory.new ≡ chosen self.now offset ls memory.old }
        ensures of_one { (l : Link) → effect_of result l memory.new ≡ chosen self.now offset l memory.old }
    {
        if memory.word(self.workspace)? != NONE_SELECTED {
            return Ok(false);
        }
        memory.set_word(self.workspace, offset)?;
        Ok(true)
    }

    // Names it no more; whether its branch is the chosen one.
    #[tactic(auto, unfolding(crate::specs::Soft::soft_disable))]
    pub(crate) fn disable_softly(
        &self,
        memory: &mut Memory,
        channel: u32,
        offset: u32,
    ) -> Result<bool, Fault>
        ensures answer { (ls : FourLinks) → effect_of result ls memory.new ≡ soft_disable self.now channel offset ls memory.old }
    {
        let other = memory.word(channel)?;
        if other == NOT_PROCESS {
            return Ok(false);
        }
        if other == self.descriptor() {
            memory.set_word(channel, NOT_PROCESS)?;
            return Ok(false);
        }
        self.choose(memory, offset)
    }
}

// Frees a channel; the word that it had.
#[tactic(auto, unfolding(crate::specs::Soft::soft_reset))]
pub(crate) fn reset_softly(memory: &mut Memory, channel: u32) -> Result<u32, Fault>
    ensures answer { (ls : FourLinks) → effect_of result ls memory.new ≡ soft_reset channel ls memory.old }
{
    let other = memory.word(channel)?;
    memory.set_word(channel, NOT_PROCESS)?;
    Ok(other)
}
