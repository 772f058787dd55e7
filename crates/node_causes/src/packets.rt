//! What is said of packets: where one is, and what comes to a link.

use crate::cause::InputWait;
use crate::passage::{Arrival, SentByte, Supply, arrival_at, end_at, sent_byte, supply_of};
use crate::telling::CauseWriter;
use crate::words::{push_count, push_device, push_link, push_lost, push_move, push_number};
use domain_core::{Device, Moved};
use link_channels::LinkNumber;
use os_link::Packet;
use record_following::{OutputNotes, is_in_mask};
use script_text::TextWriter;

impl CauseWriter<'_> {
    /// Says where the byte is that a device sent last.
    pub(crate) fn write_sent(&mut self, device: Device, text: &mut TextWriter) {
        match sent_byte(&mut self.moment, device) {
            SentByte::Unwired => {
                text.push("The byte stays: no port of the switch is joined to that link.\n");
            }
            SentByte::Waits { port, moved } => {
                push_number(text, "The byte waits at port ", u64::from(port), "");
                push_move(text, port, moved);
            }
            SentByte::Left { port, drives } => self.write_left(port, drives, text),
        }
    }

    // Says what became of a byte that left a port.
    fn write_left(&mut self, port: u8, drives: u32, text: &mut TextWriter) {
        match self.notes.port(port).byte {
            Some(event) => {
                text.push("The byte");
                push_lost(text, port, event);
            }
            None => self.write_arrivals(port, drives, text),
        }
    }

    // Says what became of a byte that left a port, at each output that this drives.
    fn write_arrivals(&mut self, port: u8, drives: u32, text: &mut TextWriter) {
        if drives == 0 {
            let before = "The byte left, and input ";
            push_number(text, before, u64::from(port), " drives no output now.\n");
        }
        for output in 0..self.moment.part().count() {
            if is_in_mask(drives, output) {
                self.write_arrival(output, text);
            }
        }
    }

    // Says what became of a byte that came to an output.
    fn write_arrival(&mut self, output: u8, text: &mut TextWriter) {
        if output >= self.moment.part().count() {
            return;
        }
        push_number(text, "At output ", u64::from(output), " ");
        match arrival_at(&mut self.moment, output) {
            Arrival::Nobody => text.push("no device is joined that could take the byte.\n"),
            Arrival::Held(device) => push_held(text, device),
            Arrival::Acknowledged { device, moved } => {
                let behind = " took the byte. Its acknowledge waits at port ";
                push_device(text, "", device, behind);
                push_number(text, "", u64::from(output), "");
                push_move(text, output, moved);
            }
            Arrival::Gone(device) => self.write_gone(output, device, text),
        }
    }

    // Says of a device that it has no byte, and nothing of it waits at its output.
    fn write_gone(&self, output: u8, device: Device, text: &mut TextWriter) {
        match self.notes.port(output).acknowledge {
            Some(event) => {
                push_device(text, "", device, " took the byte, but its acknowledge");
                push_lost(text, output, event);
            }
            None => {
                let behind = " has neither the byte nor an acknowledge of it.\n";
                push_device(text, "", device, behind);
            }
        }
    }

    /// Says from where bytes come to a link, if it is joined to a port.
    pub(crate) fn write_supply_if_wired(
        &mut self,
        node: u8,
        link: LinkNumber,
        text: &mut TextWriter,
    ) {
        match supply_of(&mut self.moment, Device::Link { node, link }) {
            Supply::Unwired => {}
            _ => self.write_supply(node, link, text),
        }
    }

    /// Says from where bytes come to a link.
    pub(crate) fn write_supply(&mut self, node: u8, link: LinkNumber, text: &mut TextWriter) {
        match supply_of(&mut self.moment, Device::Link { node, link }) {
            Supply::Unwired => push_unjoined(text, link),
            Supply::Undriven { port } => {
                push_undriven(text, link, port);
                self.write_own_loss(port, link, text);
            }
            Supply::Driven {
                port,
                input,
                source,
                packet,
                moved,
            } => {
                push_drive(text, input, port, link);
                if self.write_source(input, source, packet, moved, text) {
                    self.write_own_loss(port, link, text);
                }
            }
        }
    }

    // Says what waits at an input, or where the last byte is of the device that is joined there. Whether nothing was said of an
    // acknowledge.
    fn write_source(
        &mut self,
        input: u8,
        source: Option<Device>,
        packet: Option<Packet>,
        moved: Moved,
        text: &mut TextWriter,
    ) -> bool {
        let Some(source) = source else {
            text.push("No device is joined there.\n");
            return true;
        };
        match packet {
            Some(packet) => {
                push_waiting(text, source, packet);
                push_move(text, input, moved);
                true
            }
            None if end_at(&self.moment, source).output.awaits => {
                push_device(text, "Of ", source, " a byte isn't acknowledged yet.\n");
                self.write_sent(source, text);
                false
            }
            None => {
                push_device(text, "Of ", source, " nothing waits there.\n");
                true
            }
        }
    }

    // The output whose byte was the last to come to a link, and the device that sent it, if all its bytes came.
    fn output_done(&mut self, node: u8, link: LinkNumber) -> Option<(Device, OutputNotes)> {
        let supply = supply_of(&mut self.moment, Device::Link { node, link });
        let Supply::Driven {
            source: Some(source),
            packet: None,
            ..
        } = supply
        else {
            return None;
        };
        let Device::Link { node, link } = source else {
            return None;
        };
        let output = self.notes.node(node).output(link)?;
        if output.behind > 0 || end_at(&self.moment, source).output.awaits {
            return None;
        }
        Some((source, output))
    }

    /// Says so if a part of what a process waits for at a link came, and the last output from there has another count and
    /// is done.
    pub(crate) fn write_counts(
        &mut self,
        node: u8,
        link: LinkNumber,
        wait: InputWait,
        text: &mut TextWriter,
    ) {
        let Some(whole) = wait.whole else {
            return;
        };
        if whole <= wait.left {
            return;
        }
        if let Some((source, output)) = self.output_done(node, link)
            && output.whole != whole
        {
            push_device(text, "The counts differ: the last output of ", source, "");
            push_count(text, " has ", output.whole, ", all of which came, and this");
            push_count(text, " `in` has ", whole, ", of which ");
            push_number(text, "", u64::from(wait.left), " are still to come.\n");
        }
    }

    // Says so if an acknowledge of a link was lost at its port.
    fn write_own_loss(&self, port: u8, link: LinkNumber, text: &mut TextWriter) {
        if let Some(event) = self.notes.port(port).acknowledge {
            push_link(text, "An acknowledge of ", link, "");
            push_lost(text, port, event);
        }
    }
}

// That a device holds a byte.
fn push_held(text: &mut TextWriter, device: Device) {
    let behind = match device {
        Device::Host(_) => " holds a byte, as its queue is full: it is to be read.\n",
        Device::Link { .. } => " holds a byte that nobody has taken.\n",
    };
    push_device(text, "", device, behind);
}

// That a link is joined to no port.
fn push_unjoined(text: &mut TextWriter, link: LinkNumber) {
    let before = "No byte comes: no port of the switch is joined to ";
    push_link(text, before, link, ".\n");
}

// That no input drives the output to which a link is joined.
fn push_undriven(text: &mut TextWriter, link: LinkNumber, port: u8) {
    push_link(text, "No byte comes by ", link, ": no input drives output ");
    push_number(text, "", u64::from(port), ".\n");
}

// Which input drives the output to which a link is joined.
fn push_drive(text: &mut TextWriter, input: u8, port: u8, link: LinkNumber) {
    push_number(text, "Input ", u64::from(input), " drives output ");
    push_number(text, "", u64::from(port), " of ");
    push_link(text, "", link, ". ");
}

// Begins a sentence about a packet that waits at a device's port.
fn push_waiting(text: &mut TextWriter, source: Device, packet: Packet) {
    match packet {
        Packet::Byte(byte) => {
            text.push("Byte ");
            text.push_hex_byte(byte);
        }
        Packet::Ack => text.push("An acknowledge"),
    }
    push_device(text, " of ", source, " waits there");
}
