//! The hosts at the links of a node that is traced.

use crate::packets::write_packet;
use bootstrap::{LinkNumber, Node, Packet, link_number_of};
use script_text::TextWriter;
use std::alloc::{AllocError, Global};

/// Bytes that a host sends to a link.
#[derive(Drop)]
pub struct LinkInput {
    /// The link.
    pub link: LinkNumber,
    /// The bytes, in their order.
    pub bytes: Vec<u8>,
}

/// A host at a link: it takes what leaves the link, and sends bytes.
pub struct LinkHost {
    link: LinkNumber,
    bytes: Vec<u8>,
    // How many of the bytes are sent, and whether the last of them isn't acknowledged yet.
    sent: usize,
    awaits: bool,
}

// Dropped by hand, since a derived `Drop` makes callers prove the drop of each field.
impl Drop for LinkHost {
    fn drop(self) {
        let LinkHost {
            link: _,
            bytes: _,
            sent: _,
            awaits: _,
        } = self;
    }
}

/// A host at each link, which sends the bytes of all inputs of that link, one after another.
pub fn hosts_of(alloc: Global, inputs: &[LinkInput]) -> Result<Vec<LinkHost>, AllocError> {
    let mut hosts = Vec::new(alloc);
    for link in LinkNumber::all() {
        hosts.push(LinkHost {
            link,
            bytes: bytes_for(alloc, link, inputs)?,
            sent: 0,
            awaits: false,
        })?;
    }
    Ok(hosts)
}

// The bytes of all inputs of a link.
fn bytes_for(alloc: Global, link: LinkNumber, inputs: &[LinkInput]) -> Result<Vec<u8>, AllocError> {
    let mut bytes = Vec::new(alloc);
    for input in inputs {
        if input.link == link {
            bytes.extend_from_slice(input.bytes.as_slice())?;
        }
    }
    Ok(bytes)
}

impl LinkHost {
    /// Sends the next byte, if there is one and the one before it is acknowledged, and writes its line.
    pub fn send_next(&mut self, node: &mut Node, text: &mut TextWriter) {
        if self.awaits {
            return;
        }
        let Some(byte) = self.bytes.get(self.sent) else {
            return;
        };
        let packet = Packet::Byte(*byte);
        node.deliver(self.link, packet);
        self.sent = self.sent.saturating_add(1);
        self.awaits = true;
        text.push("to ");
        self.write_line(packet, text);
    }

    /// Takes the packets that leave the link, acknowledges each byte, and writes their lines. An acknowledge and a byte may
    /// both wait.
    pub fn take_packets(&mut self, node: &mut Node, text: &mut TextWriter) {
        for _ in 0..2 {
            let Some(packet) = node.take(self.link) else {
                break;
            };
            self.write_line(packet, text);
            match packet {
                Packet::Byte(_) => node.deliver(self.link, Packet::Ack),
                Packet::Ack => self.awaits = false,
            }
        }
    }

    // Writes the line of a packet.
    fn write_line(&self, packet: Packet, text: &mut TextWriter) {
        text.push("link ");
        text.push_decimal(u64::from(link_number_of(self.link)));
        text.push(" ");
        write_packet(text, Some(packet));
        text.push("\n");
    }

    /// Says how many bytes the program hasn't taken, if there are such.
    pub fn write_rest(&self, text: &mut TextWriter) {
        let left = self.bytes.len().saturating_sub(self.sent) as u64;
        let left = left.saturating_add(u64::from(self.awaits));
        if left == 0 {
            return;
        }
        text.push("link ");
        text.push_decimal(u64::from(link_number_of(self.link)));
        text.push(" hasn't taken ");
        text.push_decimal(left);
        text.push(" of ");
        text.push_decimal(self.bytes.len() as u64);
        text.push(" bytes\n");
    }
}
