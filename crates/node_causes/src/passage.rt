//! Where a packet is that was sent at a link, and what comes to a link.

ghost use Rattle.std.specs.Prelude.{◌≡◌, ◌<◌};
ghost use Rattle.domain_core.specs.MachineValue.{machine_of};
ghost use Rattle.node_causes.specs.Passage.{IsPortOf, IsInputOf, end_at, IsSent, IsArrival, IsSupply};

use domain_core::{Device, Moment, Moved, PortState, device_at};
use os_link::{LinkEnd, Packet};
use plan_rules::Part;
use record_following::is_in_mask;

/// Where the byte is that a device sent last.
#[derive(Clone, Copy)]
pub enum SentByte {
    /// The device has no port, so that nothing leaves it.
    Unwired,
    /// It waits at its virtual port, and a Move of that would come to this.
    Waits { port: u8, moved: Moved },
    /// It left the port, which drives these outputs now: bit q is virtual output q.
    Left { port: u8, drives: u32 },
}

/// What became of a byte that came to an output.
#[derive(Clone, Copy)]
pub enum Arrival {
    /// No device is joined there.
    Nobody,
    /// It is in the buffer of the device.
    Held(Device),
    /// The device took it. The acknowledge waits at the port, and a Move of that would come to this.
    Acknowledged { device: Device, moved: Moved },
    /// Neither the byte nor an acknowledge is there.
    Gone(Device),
}

/// From where bytes come to a device.
#[derive(Clone, Copy)]
pub enum Supply {
    /// The device has no port, so that nothing comes to it.
    Unwired,
    /// No input drives the output of its virtual port.
    Undriven {
        port: u8,
    },
    /// This virtual input does.
    Driven {
        port: u8,
        input: u8,
        /// What is joined to that input.
        source: Option<Device>,
        /// What waits there, and what a Move of it would come to.
        packet: Option<Packet>,
        moved: Moved,
    },
}

// A virtual port to which a device is joined.
fn port_of(part: &Part, device: Device) -> Option<u8>
    ensures { IsPortOf part.now device result }
{
    for port in 0..part.count() {
        if device_at(part, port) == Some(device) {
            return Some(port);
        }
    }
    None
}

// A virtual input that drives an output.
fn input_of(moment: &mut Moment, output: u8) -> Option<u8>
    requires { output < moment.old.machine.part.count }
    ensures input { IsInputOf moment.old.machine.part (machine_of moment.old.machine) output result }
    ensures unchanged { moment.new ≡ moment.old }
{
    for input in 0..moment.part().count() {
        if is_in_mask(moment.port_state(input).drives, output) {
            return Some(input);
        }
    }
    None
}

// The link end of a device.
pub(crate) fn end_at(moment: &Moment, device: Device) -> LinkEnd
    ensures { result ≡ end_at moment.now.machine.devices device }
{
    match device {
        Device::Host(number) => match moment.host(number) {
            Some(host) => host.end(),
            None => LinkEnd::new(),
        },
        Device::Link { node, link } => match moment.node(node) {
            Some(home) => home.links().at(link).end,
            None => LinkEnd::new(),
        },
    }
}

/// Where the byte is that a device sent last. Nothing changes.
pub fn sent_byte(moment: &mut Moment, device: Device) -> SentByte
    ensures sent { IsSent moment.old.machine.part (machine_of moment.old.machine) device result }
    ensures unchanged { moment.new ≡ moment.old }
{
    let Some(port) = port_of(moment.part(), device) else {
        return SentByte::Unwired;
    };
    let end = end_at(moment, device);
    let PortState {
        packet: _,
        drives,
        moved,
    } = moment.port_state(port);
    if end.latch.byte.is_some() {
        SentByte::Waits { port, moved }
    } else {
        SentByte::Left { port, drives }
    }
}

/// What became of a byte that came to a virtual output below the domain's count. Nothing changes.
pub fn arrival_at(moment: &mut Moment, output: u8) -> Arrival
    requires { output < moment.old.machine.part.count }
    ensures arrival { IsArrival moment.old.machine.part (machine_of moment.old.machine) output result }
    ensures unchanged { moment.new ≡ moment.old }
{
    let Some(device) = device_at(moment.part(), output) else {
        return Arrival::Nobody;
    };
    let end = end_at(moment, device);
    if end.input.buffer.is_some() {
        return Arrival::Held(device);
    }
    if end.latch.acknowledge {
        let moved = moment.port_state(output).moved;
        Arrival::Acknowledged { device, moved }
    } else {
        Arrival::Gone(device)
    }
}

/// From where bytes come to a device. Nothing changes.
pub fn supply_of(moment: &mut Moment, device: Device) -> Supply
    ensures supply { IsSupply moment.old.machine.part (machine_of moment.old.machine) device result }
    ensures unchanged { moment.new ≡ moment.old }
{
    let Some(port) = port_of(moment.part(), device) else {
        return Supply::Unwired;
    };
    let Some(input) = input_of(moment, port) else {
        return Supply::Undriven { port };
    };
    let source = device_at(moment.part(), input);
    let PortState {
        packet,
        drives: _,
        moved,
    } = moment.port_state(input);
    Supply::Driven {
        port,
        input,
        source,
        packet,
        moved,
    }
}
