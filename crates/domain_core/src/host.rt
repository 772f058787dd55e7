//! Hosts: what a user's machine sends and receives at a port.
ghost use Rattle.std.specs.Prelude.{◌≡◌, ◌≤◌, IfOk, not};
ghost use Rattle.std.specs.VecDeque.{deque_capacity};
ghost use Rattle.os_link.specs.End.{next_of};
ghost use Rattle.os_link.specs.declared.latch.Packet.TheVariants.{Ack};
ghost use Rattle.domain_core.specs.Hosts.{opened_host, is_full, host_written, front, host_read, delivered, packet_left, sending_on, receiving};

use crate::NoMemory;
use os_link::{LinkEnd, Packet};
use std::alloc::Global;
use std::collections::VecDeque;
use std::marker::Model;

/// How many bytes each queue of a host holds.
pub const QUEUE_BYTES: usize = 4096;

/// A host: a sending and a receiving queue of at most 4,096 bytes each, and one end of a link. It
/// needs no step: a byte is posted as soon as none awaits its acknowledge.
pub struct Host {
    sending: VecDeque<u8>,
    received: VecDeque<u8>,
    end: LinkEnd,
}

// Dropped by hand, since a derived `Drop` makes callers prove the drop of each field.
impl Drop for Host {
    fn drop(self) {
        let Host {
            sending: _,
            received: _,
            end: _,
        } = self;
    }
}

impl Model for Host {
    ghost use Rattle.std.specs.Prelude.{◌≤◌};
    ghost use Rattle.std.specs.VecDeque.{deque_capacity};
    ghost use Rattle.domain_core.specs.Hosts.{HostState};

    ghost Value = { HostState };

    ghost view = { λ h. record { sending = h.sending.items; received = h.received.items; end = h.end } };

    ghost invariant = { λ h. (4096 ≤ deque_capacity h.sending) × (4096 ≤ deque_capacity h.received) };
}

// A queue of the same bytes.
fn copy_queue(alloc: Global, queue: &VecDeque<u8>) -> Result<VecDeque<u8>, NoMemory>
    ensures items { IfOk result (λ copy. copy.items ≡ queue.now.items) }
    ensures room { IfOk result (λ copy. 4096 ≤ deque_capacity copy) }
{
    let (front, back) = queue.as_slices();
    let mut bytes = Vec::with_capacity(alloc, QUEUE_BYTES)?;
    bytes.extend_from_slice(front)?;
    bytes.extend_from_slice(back)?;
    Ok(VecDeque::from_vec(bytes))
}

impl Host {
    /// A host to which nothing happened. Both queues are reserved; `NoMemory` where they can't be.
    pub fn open(alloc: Global) -> Result<Host, NoMemory>
        ensures { IfOk result (λ host. host ≡ opened_host) }
    {
        Ok(Host {
            sending: VecDeque::with_capacity(alloc, QUEUE_BYTES)?,
            received: VecDeque::with_capacity(alloc, QUEUE_BYTES)?,
            end: LinkEnd::new(),
        })
    }

    /// An equal host with queues of its own. `NoMemory` where they can't be allocated.
    pub fn copy(&self, alloc: Global) -> Result<Host, NoMemory>
        ensures { IfOk result (λ host. host ≡ self.now) }
    {
        Ok(Host {
            sending: copy_queue(alloc, &self.sending)?,
            received: copy_queue(alloc, &self.received)?,
            end: self.end,
        })
    }

    /// What is to be sent, front first, with the byte whose acknowledge hasn't come.
    pub fn sending(&self) -> &VecDeque<u8>
        ensures { result.now.items ≡ self.now.sending }
    {
        &self.sending
    }

    /// What was received and not taken yet, front first.
    pub fn received_bytes(&self) -> &VecDeque<u8>
        ensures { result.now.items ≡ self.now.received }
    {
        &self.received
    }

    /// The host's end of its link.
    pub fn end(&self) -> LinkEnd
        ensures { result ≡ self.now.end }
    {
        self.end
    }

    /// Empties both queues and clears the link end: the host is as it was opened.
    pub fn clear(&mut self)
        ensures { self.new ≡ opened_host }
    {
        self.sending.clear();
        self.received.clear();
        self.end = LinkEnd::new();
    }

    /// Puts a byte at the end of the sending queue, and answers whether there was room. A byte counts
    /// until its acknowledge has come.
    pub fn write(&mut self, byte: u8) -> bool
        ensures answer { result ≡ not (is_full self.old.sending) }
        ensures state { self.new ≡ host_written byte self.old }
    {
        if self.sending.len() >= QUEUE_BYTES {
            return false;
        }
        let _ = self.sending.push_back(byte);
        self.send_on();
        true
    }

    /// Takes the front byte of the receiving queue. A byte that was held then moves in.
    pub fn read(&mut self) -> Option<u8>
        ensures answer { result ≡ front self.old.received }
        ensures state { self.new ≡ host_read self.old }
    {
        let byte = self.received.pop_front();
        self.receive();
        byte
    }

    /// The packet that leaves next, which goes on waiting.
    pub fn waiting(&self) -> Option<Packet>
        ensures { result ≡ next_of self.now.end.latch }
    {
        self.end.latch.next()
    }

    /// Takes the packet that leaves next.
    pub fn take(&mut self) -> Option<Packet>
        ensures answer { result ≡ next_of self.old.end.latch }
        ensures state { self.new ≡ packet_left self.old }
    {
        self.end.take()
    }

    /// A packet arrives.
    pub fn deliver(&mut self, packet: Packet)
        ensures { self.new ≡ delivered packet self.old }
    {
        match packet {
            Packet::Byte(_) => {
                self.end.deliver(packet);
                self.receive();
            }
            Packet::Ack => self.acknowledge(),
        }
    }

    /// An acknowledge arrives: an awaited one removes the front byte, and the next is posted.
    fn acknowledge(&mut self)
        ensures { self.new ≡ delivered Ack self.old }
    {
        if !self.end.output.waits() {
            return;
        }
        self.end.deliver(Packet::Ack);
        self.end.output.take_acked();
        self.sending.pop_front();
        self.send_on();
    }

    /// Posts the front byte, if none awaits its acknowledge.
    fn send_on(&mut self)
        ensures { self.new ≡ sending_on self.old }
    {
        if self.end.output.waits() {
            return;
        }
        if let Some(byte) = self.sending.front() {
            self.end.post(*byte);
        }
    }

    /// Moves the byte in the buffer into the receiving queue, if there is room.
    fn receive(&mut self)
        ensures { self.new ≡ receiving self.old }
    {
        if self.received.len() >= QUEUE_BYTES {
            return;
        }
        if let Some(byte) = self.end.take_byte() {
            let _ = self.received.push_back(byte);
        }
    }
}
