//! Packets, and what a host at a link does with them.

use bootstrap::{LinkNumber, Node, Packet, peek_message, poke_message, word_of};
use script_text::TextWriter;

/// Writes a packet, or `none`.
pub fn write_packet(text: &mut TextWriter, packet: Option<Packet>) {
    match packet {
        Some(Packet::Byte(byte)) => {
            text.push("byte ");
            text.push_hex_byte(byte);
        }
        Some(Packet::Ack) => text.push("acknowledge"),
        None => text.push("none"),
    }
}

/// A host gives a link bytes, one a Step, and takes their acknowledges.
pub fn send(node: &mut Node, link: LinkNumber, bytes: &[u8]) {
    for byte in bytes {
        node.deliver(link, Packet::Byte(*byte));
        let _ = node.step();
        if node.waiting(link) == Some(Packet::Ack) {
            let _ = node.take(link);
        }
    }
}

/// A host takes the byte that leaves a link next, and acknowledges it; the node steps once.
pub fn receive(node: &mut Node, link: LinkNumber) -> Option<u8> {
    let received = match node.take(link) {
        Some(Packet::Byte(byte)) => Some(byte),
        _ => None,
    };
    node.deliver(link, Packet::Ack);
    let _ = node.step();
    received
}

/// A host asks by link 0 for the word at an address.
pub fn peek(node: &mut Node, address: u32) -> Option<u32> {
    send(node, LinkNumber::Zero, &peek_message(address));
    let first = receive(node, LinkNumber::Zero)?;
    let second = receive(node, LinkNumber::Zero)?;
    let third = receive(node, LinkNumber::Zero)?;
    let fourth = receive(node, LinkNumber::Zero)?;
    Some(word_of([first, second, third, fourth]))
}

/// A host stores a word at an address by link 0.
pub fn poke(node: &mut Node, address: u32, word: u32) {
    send(node, LinkNumber::Zero, &poke_message(address, word));
}
