//! Channels of links: a process asks a link of its node for bytes, or gives it bytes to send.

ghost use Rattle.std.specs.Prelude.{◌≡◌};
ghost use Rattle.link_channels.specs.Hard.{input_reset, link_disable, link_enable, link_input, link_output, output_reset};
ghost use Rattle.node_memory.specs.Effect.{effect_of};

use crate::link::Link;
use crate::process::{Process, Transfer, TransferOutcome};
use crate::waiting::READY;
use node_memory::{Fault, Memory};
use process_queue::NOT_PROCESS;

impl Process {
    // Waits for bytes from a link.
    pub(crate) fn input_from_link(
        &self,
        memory: &mut Memory,
        link: &mut Link,
        transfer: Transfer,
    ) -> Result<TransferOutcome, Fault>
        ensures answer { effect_of result link.new memory.new ≡ link_input self.now transfer link.old memory.old }
    {
        if transfer.count == 0 {
            return Ok(TransferOutcome::GoesOn);
        }
        memory.set_word(transfer.channel, self.descriptor())?;
        link.input_pointer = transfer.pointer;
        link.input_count = transfer.count;
        link.watched = false;
        memory.set_word(self.workspace.wrapping_sub(4), self.instruction)?;
        Ok(TransferOutcome::Waits)
    }

    // Posts the first byte to a link, and waits.
    pub(crate) fn output_to_link(
        &self,
        memory: &mut Memory,
        link: &mut Link,
        transfer: Transfer,
    ) -> Result<TransferOutcome, Fault>
        ensures answer { effect_of result link.new memory.new ≡ link_output self.now transfer link.old memory.old }
    {
        if transfer.count == 0 {
            return Ok(TransferOutcome::GoesOn);
        }
        memory.set_word(transfer.channel, self.descriptor())?;
        memory.set_word(self.workspace.wrapping_sub(4), self.instruction)?;
        let byte = memory.byte(transfer.pointer)?;
        link.end.post(byte);
        link.output_pointer = transfer.pointer.wrapping_add(1);
        link.output_count = transfer.count - 1;
        Ok(TransferOutcome::Waits)
    }

    // Watches a link, or is ready where a byte is there.
    pub(crate) fn enable_link(
        &self,
        memory: &mut Memory,
        link: &mut Link,
        channel: u32,
    ) -> Result<(), Fault>
        ensures answer { effect_of result link.new memory.new ≡ link_enable self.now channel link.old memory.old }
    {
        if link.end.input.buffer.is_some() {
            return memory.set_word(self.workspace.wrapping_sub(12), READY);
        }
        memory.set_word(channel, self.descriptor())?;
        link.watched = true;
        Ok(())
    }

    // Watches a link no more; whether its branch is the chosen one.
    pub(crate) fn disable_link(
        &self,
        memory: &mut Memory,
        link: &mut Link,
        channel: u32,
        offset: u32,
    ) -> Result<bool, Fault>
        ensures answer { effect_of result link.new memory.new ≡ link_disable self.now channel offset link.old memory.old }
    {
        link.watched = false;
        if memory.word(channel)? == self.descriptor() {
            memory.set_word(channel, NOT_PROCESS)?;
        }
        if link.end.input.buffer.is_none() {
            return Ok(false);
        }
        self.choose(memory, offset)
    }
}

impl Link {
    // The output side as where nothing was sent.
    pub(crate) fn reset_output(&mut self)
        ensures state { self.new ≡ output_reset self.old }
    {
        self.end.latch.withdraw();
        self.end.output.clear();
        self.output_count = 0;
    }

    // The input side as where nothing has come; no acknowledge is posted.
    pub(crate) fn reset_input(&mut self)
        ensures state { self.new ≡ input_reset self.old }
    {
        self.end.input.empty();
        self.input_count = 0;
        self.watched = false;
    }
}
