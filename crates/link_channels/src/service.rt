//! What waits at a link is served: bytes into memory, bytes out of it, and arrivals that are watched for.

ghost use Rattle.std.specs.Prelude.{◌≡◌};
ghost use Rattle.node_memory.specs.Effect.{effect_with};
ghost use Rattle.link_channels.specs.Service.{complete, input_byte, output_byte, arrival, serve_link, serve, serve_all};
ghost use Rattle.link_channels.specs.declared.link.Link.{Link};

use crate::link::{FourLinks, Link};
use crate::number::LinkNumber;
use crate::waiting::{ENABLING, READY, WAITING, schedule, waiting_at};
use node_memory::{Fault, Memory};
use process_queue::{NOT_PROCESS, Queue};

// A transfer is done: its channel is free, and its process goes on.
fn complete(memory: &mut Memory, queue: &mut Queue, channel: u32) -> Result<(), Fault>
    ensures answer { (l : Link) → effect_with result queue.new l memory.new ≡ complete channel l queue.old memory.old }
{
    let descriptor = memory.word(channel)?;
    memory.set_word(channel, NOT_PROCESS)?;
    schedule(memory, queue, descriptor)
}

impl Link {
    // A byte for a process that waits for input; whether there was one.
    fn serve_input(
        &mut self,
        memory: &mut Memory,
        queue: &mut Queue,
        channel: u32,
    ) -> Result<bool, Fault>
        ensures answer { effect_with result queue.new self.new memory.new ≡ input_byte channel self.old queue.old memory.old }
    {
        let Some(byte) = self.end.input.buffer else {
            return Ok(false);
        };
        if self.input_count == 0 {
            return Ok(false);
        }
        memory.set_byte(self.input_pointer, byte)?;
        let _ = self.end.take_byte();
        self.input_pointer = self.input_pointer.wrapping_add(1);
        self.input_count -= 1;
        if self.input_count == 0 {
            complete(memory, queue, channel)?;
        }
        Ok(true)
    }

    // An acknowledge for a process that waits for output; whether there was one.
    fn serve_output(
        &mut self,
        memory: &mut Memory,
        queue: &mut Queue,
        channel: u32,
    ) -> Result<bool, Fault>
        ensures answer { effect_with result queue.new self.new memory.new ≡ output_byte channel self.old queue.old memory.old }
    {
        if !self.end.output.acknowledged {
            return Ok(false);
        }
        self.end.output.acknowledged = false;
        if self.output_count == 0 {
            complete(memory, queue, channel)?;
            return Ok(true);
        }
        let byte = memory.byte(self.output_pointer)?;
        self.end.post(byte);
        self.output_pointer = self.output_pointer.wrapping_add(1);
        self.output_count -= 1;
        Ok(true)
    }

    // A byte that an alternative watches for; whether there was one.
    fn serve_arrival(
        &mut self,
        memory: &mut Memory,
        queue: &mut Queue,
        channel: u32,
    ) -> Result<bool, Fault>
        ensures answer { effect_with result queue.new self.new memory.new ≡ arrival channel self.old queue.old memory.old }
    {
        if !self.watched || self.end.input.buffer.is_none() {
            return Ok(false);
        }
        self.watched = false;
        let Some(process) = waiting_at(memory, channel)? else {
            return Ok(true);
        };
        let state = process.wrapping_sub(12);
        match memory.word(state)? {
            ENABLING => memory.set_word(state, READY)?,
            WAITING => {
                memory.set_word(state, READY)?;
                queue.put(memory, process)?;
            }
            _ => {}
        }
        Ok(true)
    }

    // Serves the link, whose channel words lie at these two addresses; whether it did anything.
    #[tactic(auto, unfolding(crate::specs::Service::serve_link))]
    fn serve(
        &mut self,
        memory: &mut Memory,
        queue: &mut Queue,
        input: u32,
        output: u32,
    ) -> Result<bool, Fault>
        ensures answer { effect_with result queue.new self.new memory.new ≡ serve_link input output self.old queue.old memory.old }
    {
        let took = self.serve_input(memory, queue, input)?;
        let gave = self.serve_output(memory, queue, output)?;
        let woke = self.serve_arrival(memory, queue, input)?;
        Ok(took || gave || woke)
    }
}

impl FourLinks {
    // Serves one of the links; whether that did anything.
    pub(crate) fn serve(
        &mut self,
        memory: &mut Memory,
        queue: &mut Queue,
        number: LinkNumber,
    ) -> Result<bool, Fault>
        ensures answer { effect_with result queue.new self.new memory.new ≡ serve number self.old queue.old memory.old }
    {
        let mut link = self.at(number);
        let acted = link.serve(
            memory,
            queue,
            number.input_channel(),
            number.output_channel(),
        );
        self.set(number, link);
        acted
    }

    // Serves the links in their order; returns whether that did anything. It is rare, so it is kept out of the loops of
    // steps.
    #[inline(never)]
    #[tactic(auto, unfolding(crate::specs::Service::serve_all))]
    pub(crate) fn serve_all(
        &mut self,
        memory: &mut Memory,
        queue: &mut Queue,
    ) -> Result<bool, Fault>
        ensures answer { effect_with result queue.new self.new memory.new ≡ serve_all self.old queue.old memory.old }
    {
        let zero = self.serve(memory, queue, LinkNumber::Zero)?;
        let one = self.serve(memory, queue, LinkNumber::One)?;
        let two = self.serve(memory, queue, LinkNumber::Two)?;
        let three = self.serve(memory, queue, LinkNumber::Three)?;
        Ok(zero || one || two || three)
    }
}
