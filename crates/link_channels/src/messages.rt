//! The channel instructions on any channel: a soft one, or one of a link.

ghost use Rattle.std.specs.Prelude.{◌≡◌, OnErr};

use crate::channel::Channel;
use crate::links::Links;
use crate::number::LinkNumber;
use crate::process::{Process, Transfer, TransferDirection, TransferOutcome};
use node_memory::{Fault, Memory};
use process_queue::Queue;

impl Process {
    ghost use Rattle.link_channels.specs.Hard.{link_input, link_output};
    ghost use Rattle.link_channels.specs.Links.{at, within};
    ghost use Rattle.link_channels.specs.Messages.{input, output, transferred, enable, disable};
    ghost use Rattle.node_memory.specs.Effect.{effect_of, effect_with};

    // Waits for a message from the link of a number. It is apart from soft channels, and takes the address of nothing that
    // these use.
    #[cold]
    #[inline(never)]
    fn input_over(
        self,
        memory: &mut Memory,
        links: &mut Links,
        number: LinkNumber,
        transfer: Transfer,
    ) -> Result<TransferOutcome, Fault>
        ensures answer { effect_of result links.new memory.new ≡ within number links.old (link_input self transfer (at number links.old) memory.old) }
    {
        let mut link = links.at(number);
        let outcome = self.input_from_link(memory, &mut link, transfer);
        links.set(number, link);
        outcome
    }

    // Gives a message to the link of a number.
    #[cold]
    #[inline(never)]
    fn output_over(
        self,
        memory: &mut Memory,
        links: &mut Links,
        number: LinkNumber,
        transfer: Transfer,
    ) -> Result<TransferOutcome, Fault>
        ensures answer { effect_of result links.new memory.new ≡ within number links.old (link_output self transfer (at number links.old) memory.old) }
    {
        let mut link = links.at(number);
        let outcome = self.output_to_link(memory, &mut link, transfer);
        links.set(number, link);
        outcome
    }

    /// Takes a message from a channel, or gives it one, or waits for the other side: instruction set handbook, in and out.
    ///
    /// `Fault::WrongChannel` comes before all else, for the event channel and for a link's channel of the other direction;
    /// `HighPriority` where a process of high priority waits at a soft channel; `OutsideMemory` where a word or
    /// a byte lies outside. What was written before a fault stays, in memory and in the links; the queue is unchanged.
    // A message through a soft channel is done where it is asked for, without a call. The loop of steps asks for both
    // directions in one place, so that it has the message once.
    #[inline(always)]
    pub fn transfer(
        &self,
        memory: &mut Memory,
        links: &mut Links,
        queue: &mut Queue,
        direction: TransferDirection,
        transfer: Transfer,
    ) -> Result<TransferOutcome, Fault>
        ensures answer { effect_with result queue.new links.new memory.new ≡ transferred direction self.now transfer links.old queue.old memory.old }
        ensures queue_unchanged { OnErr result (queue.new ≡ queue.old) }
    {
        match (Channel::of(transfer.channel), direction) {
            (Channel::Soft, _) => self.transfer_softly(memory, queue, direction, transfer),
            (Channel::LinkInput(number), TransferDirection::Input) => {
                self.input_over(memory, links, number, transfer)
            }
            (Channel::LinkOutput(number), TransferDirection::Output) => {
                self.output_over(memory, links, number, transfer)
            }
            _ => Err(Fault::WrongChannel),
        }
    }

    /// Takes a message from a channel, or waits for the other side: instruction set handbook, in.
    ///
    /// `Fault::WrongChannel` comes before all else, for the event channel and for a link's output channel;
    /// `HighPriority` where a process of high priority waits at a soft channel; `OutsideMemory` where a word or a byte
    /// lies outside. What was written before a fault stays, in memory and in the links; the queue is unchanged.
    #[inline(always)]
    pub fn input(
        &self,
        memory: &mut Memory,
        links: &mut Links,
        queue: &mut Queue,
        transfer: Transfer,
    ) -> Result<TransferOutcome, Fault>
        ensures answer { effect_with result queue.new links.new memory.new ≡ input self.now transfer links.old queue.old memory.old }
        ensures queue_unchanged { OnErr result (queue.new ≡ queue.old) }
    {
        self.transfer(memory, links, queue, TransferDirection::Input, transfer)
    }

    /// Gives a message to a channel, or waits for the other side: instruction set handbook, out.
    ///
    /// `Fault::WrongChannel` comes before all else, for the event channel and for a link's input channel;
    /// `HighPriority` where a process of high priority waits at a soft channel; `OutsideMemory` where a word or a byte
    /// lies outside. What was written before a fault stays, in memory and in the links; the queue is unchanged.
    #[inline(always)]
    pub fn output(
        &self,
        memory: &mut Memory,
        links: &mut Links,
        queue: &mut Queue,
        transfer: Transfer,
    ) -> Result<TransferOutcome, Fault>
        ensures answer { effect_with result queue.new links.new memory.new ≡ output self.now transfer links.old queue.old memory.old }
        ensures queue_unchanged { OnErr result (queue.new ≡ queue.old) }
    {
        self.transfer(memory, links, queue, TransferDirection::Output, transfer)
    }

    /// Names a channel that the process is ready to take from, its guard not being 0: instruction set handbook, enbc.
    ///
    /// `Fault::WrongChannel` for the event channel and a link's output channel; `OutsideMemory` where a word lies
    /// outside. What was written before a fault stays.
    pub fn enable(&self, memory: &mut Memory, links: &mut Links, channel: u32) -> Result<(), Fault>
        ensures answer { effect_of result links.new memory.new ≡ enable self.now channel links.old memory.old }
    {
        match Channel::of(channel) {
            Channel::Soft => self.enable_softly(memory, channel),
            Channel::LinkInput(number) => {
                let mut link = links.at(number);
                let enabled = self.enable_link(memory, &mut link, channel);
                links.set(number, link);
                enabled
            }
            Channel::LinkOutput(_) | Channel::Event => Err(Fault::WrongChannel),
        }
    }

    /// Names a channel no more, its guard not being 0; whether its branch, which begins at an offset, is the chosen
    /// one: instruction set handbook, disc.
    ///
    /// `Fault::WrongChannel` for the event channel and a link's output channel; `OutsideMemory` where a word lies
    /// outside. What was written before a fault stays, in memory and in the links.
    pub fn disable(
        &self,
        memory: &mut Memory,
        links: &mut Links,
        channel: u32,
        offset: u32,
    ) -> Result<bool, Fault>
        ensures answer { effect_of result links.new memory.new ≡ disable self.now channel offset links.old memory.old }
    {
        match Channel::of(channel) {
            Channel::Soft => self.disable_softly(memory, channel, offset),
            Channel::LinkInput(number) => {
                let mut link = links.at(number);
                let chosen = self.disable_link(memory, &mut link, channel, offset);
                links.set(number, link);
                chosen
            }
            Channel::LinkOutput(_) | Channel::Event => Err(Fault::WrongChannel),
        }
    }
}
