//! The links of a node, with a flag for what waits to be served.

ghost use Rattle.std.specs.Prelude.{◌≡◌};

use crate::link::{FourLinks, Link};
use crate::number::LinkNumber;
use node_memory::{Fault, Memory};
use os_link::Packet;
use process_queue::Queue;
use std::marker::Model;

/// The links of a node: four link ends, each with what a process has asked of it.
#[derive(Drop)]
pub struct Links {
    links: FourLinks,
    // Whether a service would do something, so that a step with nothing to serve costs one test.
    has_work: bool,
}

impl Model for Links {
    ghost use Rattle.std.specs.Prelude.{◌≡◌};
    ghost use Rattle.link_channels.specs.declared.link.FourLinks.{FourLinks};
    ghost use Rattle.link_channels.specs.Links.{any_has_work};

    ghost Value = { FourLinks };

    ghost view = { λ s. s.links };

    ghost invariant = { λ s. s.has_work ≡ any_has_work s.links };
}

impl Links {
    ghost use Rattle.std.specs.Prelude.{IsTrue, OnErr, false};
    ghost use Rattle.link_channels.specs.Links.{at, with_link, fresh_links, any_has_work, packet_arrived, packet_taken, byte_posted, byte_taken, acknowledge_cleared_at};
    ghost use Rattle.node_memory.specs.Effect.{effect_with};
    ghost use Rattle.link_channels.specs.Service.{has_acted, serve, serve_all};
    ghost use Rattle.os_link.specs.End.{next_of};

    // The flag for these links.
    fn of(links: FourLinks) -> Links
        ensures answer { result ≡ links }
    {
        let has_work = links.any_has_work();
        Links { links, has_work }
    }

    /// Links at which nothing has happened, and from which nobody has asked anything.
    pub fn new() -> Links
        ensures answer { result ≡ fresh_links }
    {
        Links::of(FourLinks::new())
    }

    /// The links, as plain values.
    pub fn four(&self) -> FourLinks
        ensures answer { result ≡ self.now }
    {
        self.links
    }

    /// The link of a number.
    pub fn at(&self, number: LinkNumber) -> Link
        ensures answer { result ≡ at number self.now }
    {
        self.links.at(number)
    }

    /// Puts a link in the place of another. The other three stay.
    pub fn set(&mut self, number: LinkNumber, link: Link)
        ensures state { self.new ≡ with_link number link self.old }
    {
        self.links.set(number, link);
        self.has_work = self.links.any_has_work();
    }

    /// Whether a service of one of them would do something.
    #[inline]
    pub fn has_work(&self) -> bool
        ensures answer { result ≡ any_has_work self.now }
    {
        self.has_work
    }

    /// The packet that leaves a link next, which stays.
    pub fn waiting(&self, number: LinkNumber) -> Option<Packet>
        ensures answer { result ≡ next_of (at number self.now).end.latch }
    {
        self.at(number).end.latch.next()
    }

    /// Takes the packet that leaves a link next. If none waits, nothing changes.
    pub fn take(&mut self, number: LinkNumber) -> Option<Packet>
        ensures answer { result ≡ next_of (at number self.old).end.latch }
        ensures state { self.new ≡ packet_taken number self.old }
    {
        let mut link = self.at(number);
        let packet = link.end.take();
        self.set(number, link);
        packet
    }

    /// A packet arrives at a link.
    pub fn deliver(&mut self, number: LinkNumber, packet: Packet)
        ensures state { self.new ≡ packet_arrived number packet self.old }
    {
        let mut link = self.at(number);
        link.end.deliver(packet);
        self.set(number, link);
    }

    /// Posts a byte at a link, whose acknowledge is awaited from now on.
    pub fn post(&mut self, number: LinkNumber, byte: u8)
        ensures state { self.new ≡ byte_posted number byte self.old }
    {
        let mut link = self.at(number);
        link.end.post(byte);
        self.set(number, link);
    }

    /// Takes the byte from a link's buffer, which posts an acknowledge. If there is none, nothing changes.
    pub fn take_byte(&mut self, number: LinkNumber) -> Option<u8>
        ensures answer { result ≡ (at number self.old).end.input.buffer }
        ensures state { self.new ≡ byte_taken number self.old }
    {
        let mut link = self.at(number);
        let byte = link.end.take_byte();
        self.set(number, link);
        byte
    }

    /// Whether a link's byte was acknowledged. This clears the note of it, so the next call answers
    /// `false` until another acknowledge comes.
    pub fn take_acknowledged(&mut self, number: LinkNumber) -> bool
        ensures answer { result ≡ (at number self.old).end.output.acknowledged }
        ensures state { self.new ≡ acknowledge_cleared_at number self.old }
    {
        let mut link = self.at(number);
        let acknowledged = link.end.output.take_acked();
        self.set(number, link);
        acknowledged
    }

    /// Equal links.
    pub fn copy(&self) -> Links
        ensures answer { result ≡ self.now }
    {
        Links::of(self.links)
    }

    /// Whether two nodes' links are equal.
    pub fn equals(&self, other: &Links) -> bool
        ensures equal { IsTrue result → self.now ≡ other.now }
        ensures different { self.now ≡ other.now → IsTrue result }
    {
        self.links.equals(&other.links)
    }

    /// Serves one of the links; whether that did anything: Transputer Reference Manual, links.
    ///
    /// `Fault::OutsideMemory` where a byte, a channel or a state lies outside, `HighPriority` where the process at
    /// the channel is of high priority. What was done before a fault stays, in memory and in the links; the queue is
    /// unchanged.
    pub fn serve(
        &mut self,
        memory: &mut Memory,
        queue: &mut Queue,
        number: LinkNumber,
    ) -> Result<bool, Fault>
        ensures answer { effect_with result queue.new self.new memory.new ≡ serve number self.old queue.old memory.old }
        ensures queue_unchanged { OnErr result (queue.new ≡ queue.old) }
    {
        let mut after = *queue;
        let acted = self.links.serve(memory, &mut after, number);
        self.has_work = self.links.any_has_work();
        if acted.is_ok() {
            *queue = after;
        }
        acted
    }

    /// Serves links 0 to 3 in this order; whether that did anything. The faults are those of `serve`, and end it.
    #[inline(always)]
    pub fn serve_all(&mut self, memory: &mut Memory, queue: &mut Queue) -> Result<bool, Fault>
        ensures answer { effect_with result queue.new self.new memory.new ≡ serve_all self.old queue.old memory.old }
        ensures queue_unchanged { OnErr result (queue.new ≡ queue.old) }
        // It acts, or meets a fault, exactly where a link has work.
        ensures work { has_acted result ≡ any_has_work self.old }
    {
        if !self.has_work {
            return Ok(false);
        }
        // The links get a copy of the queue, so that no address of the caller's registers is taken.
        let mut after = *queue;
        let acted = self.links.serve_all(memory, &mut after);
        self.has_work = self.links.any_has_work();
        if acted.is_ok() {
            *queue = after;
        }
        acted
    }
}
