//! A whole link end.

ghost use Rattle.std.specs.Prelude.{◌≡◌};

use crate::incoming::LinkIn;
use crate::latch::{Latch, Packet};
use crate::outgoing::LinkOut;

/// A link end of a node or a host.
///
/// Source: Transputer Reference Manual, links.
#[derive(Clone, Copy)]
pub struct LinkEnd {
    /// What waits to leave.
    pub latch: Latch,
    /// What has arrived.
    pub input: LinkIn,
    /// What is known of the byte sent last.
    pub output: LinkOut,
}

impl LinkEnd {
    ghost use Rattle.std.specs.Prelude.{IsTrue};
    ghost use Rattle.os_link.specs.End.{fresh_end, posted, emptied, arrived, next_of, without_next};

    /// The link end at which nothing has happened.
    pub fn new() -> LinkEnd
        ensures { result ≡ fresh_end }
    {
        LinkEnd {
            latch: Latch::new(),
            input: LinkIn::new(),
            output: LinkOut::new(),
        }
    }

    /// Posts a byte. It replaces one that still waits. Its acknowledge is awaited from now on.
    pub fn post(&mut self, byte: u8)
        ensures { self.new ≡ posted byte self.old }
    {
        self.latch.post_data(byte);
        self.output.begin();
    }

    /// Takes the byte from the buffer, which posts an acknowledge. If the buffer is empty, nothing
    /// changes.
    pub fn take_byte(&mut self) -> Option<u8>
        ensures answer { result ≡ self.old.input.buffer }
        ensures state { self.new ≡ emptied self.old }
    {
        let byte = self.input.take_byte()?;
        self.latch.post_ack();
        Some(byte)
    }

    /// A packet arrives.
    pub fn deliver(&mut self, packet: Packet)
        ensures { self.new ≡ arrived packet self.old }
    {
        match packet {
            Packet::Byte(byte) => self.input.deliver(byte),
            Packet::Ack => self.output.acked(),
        }
    }

    /// Takes the packet that leaves next.
    pub fn take(&mut self) -> Option<Packet>
        ensures answer { result ≡ next_of self.old.latch }
        ensures state { self.new ≡ record self.old { latch = without_next self.old.latch } }
    {
        self.latch.take()
    }

    /// Whether two link ends are equal.
    pub fn equals(&self, other: &LinkEnd) -> bool
        ensures equal { IsTrue result → self.now ≡ other.now }
        ensures different { self.now ≡ other.now → IsTrue result }
    {
        self.latch == other.latch && self.input == other.input && self.output == other.output
    }
}
