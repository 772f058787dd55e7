//! What waits to leave a link end.

ghost use Rattle.std.specs.Prelude.{◌≡◌, None, Some, true, false};
ghost use Rattle.os_link.specs.End.{next_of, without_next};

/// What one link end sends to another.
///
/// Source: Transputer Reference Manual, links.
#[derive(Clone, Copy, PartialEq, Eq)]
pub enum Packet {
    /// A byte of a message.
    Byte(u8),
    /// The acknowledge of a byte.
    Ack,
}

/// At most one byte and one acknowledge that wait to leave. The acknowledge leaves first.
///
/// Source: Transputer Reference Manual, links; the order of the two is our choice.
#[derive(Clone, Copy, PartialEq, Eq)]
pub struct Latch {
    /// The byte that waits.
    pub byte: Option<u8>,
    /// Whether an acknowledge waits.
    pub acknowledge: bool,
}

impl Latch {
    /// A latch in which nothing waits.
    pub fn new() -> Latch
        ensures { result ≡ record { byte = None; acknowledge = false } }
    {
        Latch {
            byte: None,
            acknowledge: false,
        }
    }

    /// Lets a byte wait. It replaces one that waits already.
    pub fn post_data(&mut self, byte: u8)
        ensures { self.new ≡ record self.old { byte = Some byte } }
    {
        self.byte = Some(byte);
    }

    /// Lets an acknowledge wait. A second one merges with the first.
    pub fn post_ack(&mut self)
        ensures { self.new ≡ record self.old { acknowledge = true } }
    {
        self.acknowledge = true;
    }

    /// The packet that leaves next, which goes on waiting.
    pub fn next(&self) -> Option<Packet>
        ensures { result ≡ next_of self.now }
    {
        if self.acknowledge {
            Some(Packet::Ack)
        } else {
            self.byte.map(Packet::Byte)
        }
    }

    /// Takes the packet that leaves next; what else waits goes on waiting.
    pub fn take(&mut self) -> Option<Packet>
        ensures answer { result ≡ next_of self.old }
        ensures state { self.new ≡ without_next self.old }
    {
        if self.acknowledge {
            self.acknowledge = false;
            Some(Packet::Ack)
        } else {
            self.byte.take().map(Packet::Byte)
        }
    }

    /// Lets the byte wait no longer; an acknowledge goes on waiting.
    pub fn withdraw(&mut self)
        ensures { self.new ≡ record self.old { byte = None } }
    {
        self.byte = None;
    }
}
