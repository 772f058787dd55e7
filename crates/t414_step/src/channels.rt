//! Messages through channels.
//!
//! All of these are inlined in the loop of steps, so that it keeps its registers where no address is taken.

ghost use Rattle.std.specs.Prelude.{◌≡◌};

use crate::cpu::Cpu;
use link_channels::{Links, Process, Transfer, TransferDirection, TransferOutcome};
use node_memory::{Fault, Memory};

#[tactic(auto, unfolding(crate::specs::ChannelRows::channel_row))]
impl Cpu {
    ghost use Rattle.t414_decode.specs.declared.instruction.ChannelOperation.TheVariants as op;
    ghost use Rattle.t414_step.specs.ChannelRows.{channel_row, message_by, process_of, transfer, turned};
    ghost use Rattle.t414_step.specs.Answers.{finished};

    // The process that asks.
    #[inline(always)]
    fn process(&self) -> Process
        ensures { result ≡ process_of self.now }
    {
        Process {
            workspace: self.workspace,
            instruction: self.instruction,
        }
    }

    // Goes on, or waits.
    #[inline(always)]
    fn take_outcome(&mut self, outcome: TransferOutcome)
        ensures { self.new ≡ turned outcome self.old }
    {
        match outcome {
            TransferOutcome::GoesOn => {}
            TransferOutcome::Waits => self.running = false,
        }
    }

    // The transfer of in and out: as many bytes as A says, through channel B, at C.
    #[inline(always)]
    pub(crate) fn transfer(&self) -> Transfer
        ensures { result ≡ transfer self.now.a self.now.b self.now.c }
    {
        Transfer {
            count: self.a,
            channel: self.b,
            pointer: self.c,
        }
    }

    // Takes a message from a channel, or gives it one, or waits for the other side.
    #[inline(always)]
    pub(crate) fn message(
        &mut self,
        memory: &mut Memory,
        links: &mut Links,
        direction: TransferDirection,
        transfer: Transfer,
    ) -> Result<(), Fault>
        ensures { finished result self.new links.new memory.new ≡ message_by direction transfer self.old links.old memory.old }
    {
        let process = self.process();
        // A call gets a copy of the queue, so that no address of the registers is taken.
        let mut queue = self.queue;
        let outcome = process.transfer(memory, links, &mut queue, direction, transfer)?;
        self.queue = queue;
        self.take_outcome(outcome);
        Ok(())
    }

    // The transfer of outbyte and outword: `count` bytes from the word at the workspace, through channel B.
    #[inline(always)]
    pub(crate) fn outgoing_transfer(&self, count: u32) -> Transfer
        ensures { result ≡ transfer count self.now.b self.now.workspace }
    {
        Transfer {
            count,
            channel: self.b,
            pointer: self.workspace,
        }
    }

    // resetch
    #[inline(always)]
    pub(crate) fn reset_channel(
        &mut self,
        memory: &mut Memory,
        links: &mut Links,
    ) -> Result<(), Fault>
        ensures { finished result self.new links.new memory.new ≡ channel_row op.ResetChannel self.old links.old memory.old }
    {
        self.a = links.reset(memory, self.a)?;
        Ok(())
    }

    // enbc
    #[inline(always)]
    pub(crate) fn enable_channel(
        &mut self,
        memory: &mut Memory,
        links: &mut Links,
    ) -> Result<(), Fault>
        ensures { finished result self.new links.new memory.new ≡ channel_row op.EnableChannel self.old links.old memory.old }
    {
        if self.a != 0 {
            self.process().enable(memory, links, self.b)?;
        }
        self.b = self.c;
        Ok(())
    }

    // disc
    #[inline(always)]
    pub(crate) fn disable_channel(
        &mut self,
        memory: &mut Memory,
        links: &mut Links,
    ) -> Result<(), Fault>
        ensures { finished result self.new links.new memory.new ≡ channel_row op.DisableChannel self.old links.old memory.old }
    {
        let chosen = self.b != 0 && self.process().disable(memory, links, self.c, self.a)?;
        self.a = u32::from(chosen);
        Ok(())
    }
}
