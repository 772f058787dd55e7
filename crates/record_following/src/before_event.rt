//! What is looked at before an event, since it can't be seen after it.

ghost use Rattle.std.specs.Prelude.{◌≡◌, ◌<◌, ◌==◌};
ghost use Rattle.std.specs.Int.{bit_at};

use crate::notes::{EventNotes, FaultNotes, ZerosNotes};
use crate::trail::Trail;
use bootstrap::{Node, NodeState, Task};
use domain_core::{Device, Event, Moment, Moved, NoMemory, PortState, Reply, device_at};
use link_channels::{LinkNumber, Links};
use node_memory::Memory;
use os_link::Packet;
use process_queue::NOT_PROCESS;
use std::alloc::Global;
use t414_step::{Cpu, Stepped};

/// A link of a node that runs, and how many bytes of an output come after the one that waits there.
#[derive(Clone, Copy)]
pub struct Sender {
    node: u8,
    link: LinkNumber,
    behind: u32,
}

/// What was seen before an event.
#[derive(Clone, Copy)]
pub enum BeforeEvent {
    /// Before a Move: what waited at its port, and the node's link that sends there.
    Move {
        port: u8,
        state: PortState,
        sender: Option<Sender>,
    },
    /// Before a Step.
    Step {
        node: u8,
        code_end: Option<u32>,
        registers: Option<Cpu>,
        byte: Option<u8>,
    },
    /// Before any other event.
    Else,
}

impl BeforeEvent {
    /// What waited at the port of a Move.
    pub fn port(self) -> Option<PortState> {
        match self {
            BeforeEvent::Move { state, .. } => Some(state),
            _ => None,
        }
    }
}

/// Whether bit `output` of a mask of virtual outputs is set.
pub fn is_in_mask(mask: u32, output: u8) -> bool
    requires { output < 32 }
    ensures { result ≡ (bit_at mask output == 1) }
{
    mask >> output & 1 == 1
}

// The registers of the process that memory has first in the queue.
fn resume_process(memory: &Memory, cpu: Cpu) -> Option<Cpu> {
    if cpu.queue.front == NOT_PROCESS {
        return None;
    }
    let workspace = cpu.queue.front - cpu.queue.front % 4;
    match memory.word(workspace.wrapping_sub(4)) {
        Ok(instruction) => Some(Cpu::new(instruction, workspace)),
        Err(_) => None,
    }
}

// The registers of a process that goes on once the links are served.
fn serve_links(memory: &Memory, links: &Links, cpu: Cpu) -> Result<Option<Cpu>, NoMemory> {
    let mut memory = memory.copy(memory.allocator())?;
    let mut links = links.copy();
    let mut cpu = cpu;
    Ok(match links.serve_all(&mut memory, &mut cpu.queue) {
        Ok(_) => resume_process(&memory, cpu),
        Err(_) => None,
    })
}

/// The registers with which a node's next instruction byte is done, if its next Step does one.
pub fn next_registers(node: &Node) -> Result<Option<Cpu>, NoMemory> {
    match node.registers() {
        Some(cpu) if cpu.running => Ok(Some(cpu)),
        Some(cpu) if cpu.queue.front != NOT_PROCESS => Ok(resume_process(node.memory(), cpu)),
        Some(cpu) => serve_links(node.memory(), node.links(), cpu),
        None => Ok(None),
    }
}

/// The address after the last byte of the code that a node loads.
pub fn code_end_of(node: &Node) -> Option<u32> {
    match node.state() {
        NodeState::Takes {
            task: Task::Load { left, address },
            ..
        } => Some(address.wrapping_add(u32::from(left))),
        _ => None,
    }
}

// What is seen of a node before a Step.
fn seen_of_node(number: u8, node: &Node) -> Result<BeforeEvent, NoMemory> {
    let registers = next_registers(node)?;
    let byte = match registers {
        Some(cpu) => node.memory().byte(cpu.instruction).ok(),
        None => None,
    };
    Ok(BeforeEvent::Step {
        node: number,
        code_end: code_end_of(node),
        registers,
        byte,
    })
}

// The link of a node that runs which sends at a port.
fn sender_at(moment: &Moment, port: u8) -> Option<Sender> {
    let Some(Device::Link { node, link }) = device_at(moment.part(), port) else {
        return None;
    };
    let home = moment.node(node)?;
    home.registers()?;
    Some(Sender {
        node,
        link,
        behind: home.links().at(link).output_count,
    })
}

/// What is seen before an event. Nothing changes.
pub fn seen_before(moment: &mut Moment, event: Event) -> Result<BeforeEvent, NoMemory>
    ensures unchanged { moment.new ≡ moment.old }
{
    match event {
        Event::Move(port) if port < moment.part().count() => {
            Ok(BeforeEvent::Move {
                port,
                state: moment.port_state(port),
                sender: sender_at(moment, port),
            })
        }
        Event::Step(number) => match moment.node(number) {
            Some(node) => seen_of_node(number, node),
            None => Ok(BeforeEvent::Else),
        },
        _ => Ok(BeforeEvent::Else),
    }
}

/// What was seen before an event, and how a node that met its fault in it came to zeros.
#[derive(Clone, Copy)]
pub struct Observed {
    pub before_event: BeforeEvent,
    pub zeros: Option<ZerosNotes>,
}

/// How a node came to zeros that met its fault in an event before which this was seen, if it ran through zeros.
pub fn zeros_behind(
    alloc: Global,
    moment: &Moment,
    trail: &Trail,
    before_event: BeforeEvent,
    reply: Reply,
) -> Result<Option<ZerosNotes>, NoMemory> {
    let (
        BeforeEvent::Step {
            node: number,
            registers: Some(registers),
            ..
        },
        Reply::Stepped(Stepped::Fault(_)),
    ) = (before_event, reply)
    else {
        return Ok(None);
    };
    match moment.node(number) {
        Some(node) => trail.zeros_before(alloc, number, node, registers),
        None => Ok(None),
    }
}

/// Notes what an event came to before which this was seen. It has this number.
pub fn note_event(
    notes: &mut EventNotes,
    moment: &Moment,
    seen: Observed,
    event: Event,
    reply: Reply,
    number: u64,
) {
    match seen.before_event {
        BeforeEvent::Move {
            port,
            state,
            sender,
        } => {
            if let Reply::Moved(moved) = reply {
                note_packet(notes, port, state.packet, moved, number);
                note_sender(notes, sender, state.packet, moved);
                note_move(notes, moment, port, state.drives, moved, number);
            }
        }
        BeforeEvent::Step {
            node,
            code_end,
            registers,
            byte,
        } => {
            notes.note_steps(node, 1, code_end);
            if let Reply::Stepped(Stepped::Fault(_)) = reply {
                let event = number;
                let fault = FaultNotes {
                    event,
                    registers,
                    byte,
                    zeros: seen.zeros,
                };
                notes.note_fault(node, fault);
            }
        }
        BeforeEvent::Else => note_command(notes, event, number),
    }
}

// Notes what a user asked for.
fn note_command(notes: &mut EventNotes, event: Event, number: u64) {
    match event {
        Event::Look(_) => {}
        Event::Reset(node) => {
            notes.note_reset(node);
            notes.note_user(number);
        }
        _ => notes.note_user(number),
    }
}

// Notes the packet that left a port.
fn note_packet(
    notes: &mut EventNotes,
    port: u8,
    packet: Option<Packet>,
    moved: Moved,
    number: u64,
) {
    if let Some(packet) = packet {
        notes.note_packet(port, packet, moved, number);
    }
}

// Notes the output whose byte left.
fn note_sender(
    notes: &mut EventNotes,
    sender: Option<Sender>,
    packet: Option<Packet>,
    moved: Moved,
) {
    if let (Some(Packet::Byte(_)), Some(Sender { node, link, behind })) = (packet, sender)
        && moved != Moved::Stayed
    {
        notes.note_output(node, link, behind);
    }
}

// Notes whose packet went from a port to the outputs that it drove.
fn note_move(
    notes: &mut EventNotes,
    moment: &Moment,
    port: u8,
    drives: u32,
    moved: Moved,
    number: u64,
) {
    let part = moment.part();
    let mut is_among_nodes = notes.note_traffic(device_at(part, port));
    if moved == Moved::Passed {
        for output in 0..part.count() {
            if is_in_mask(drives, output) {
                is_among_nodes &= notes.note_traffic(device_at(part, output));
            }
        }
    }
    notes.note_exchange(is_among_nodes, number);
}
