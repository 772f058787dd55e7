//! What the next event of a record does: a Step, or a packet that moves.

use crate::showing::write_port;
use bootstrap::Node;
use domain_core::{Device, Event, Moved, NoMemory, device_at};
use lab_timeline::Timeline;
use node_trace::{ProgramLine, trace_step, write_packet};
use script_text::TextWriter;

// Whether a port is that of a link of a node.
fn is_of_node(timeline: &Timeline, port: u8, number: u8) -> bool {
    match device_at(timeline.here().part(), port) {
        Some(Device::Link { node, .. }) => node == number,
        _ => false,
    }
}

// Whether an output is among those of a mask.
fn is_among(outputs: u32, output: u8) -> bool {
    output < 32 && outputs >> output & 1 == 1
}

// Whether one of the outputs of a mask is that of a link of a node.
fn is_any_of_node(timeline: &Timeline, outputs: u32, number: u8) -> bool {
    for output in 0..32u8 {
        if is_among(outputs, output) && is_of_node(timeline, output, number) {
            return true;
        }
    }
    false
}

/// Whether the next event, which is this one, is a Step of a node, or moves a packet from a link of it or to one.
pub fn concerns(timeline: &mut Timeline, event: Event, number: u8) -> bool {
    match event {
        Event::Step(node) => node == number,
        Event::Move(port) => {
            let outputs = match timeline.port_state(port) {
                Some(state) => state.drives,
                None => 0,
            };
            is_of_node(timeline, port, number) || is_any_of_node(timeline, outputs, number)
        }
        _ => false,
    }
}

/// Writes what the next Step of a node does, with its place in the lines of a program: on a copy of it.
pub fn write_next_step(
    node: &Node,
    number: u8,
    lines: &[ProgramLine],
    text: &mut TextWriter,
) -> Result<(), NoMemory> {
    let mut copy = node.copy(node.memory().allocator())?;
    text.push("node ");
    text.push_decimal(u64::from(number));
    text.push(" ");
    let _ = trace_step(&mut copy, lines, text)?;
    Ok(())
}

/// Writes which packet the next Move of a port takes, and where it goes.
pub fn write_next_move(timeline: &mut Timeline, port: u8, text: &mut TextWriter) {
    let Some(state) = timeline.port_state(port) else {
        return;
    };
    text.push("port ");
    write_port(timeline, port, text);
    text.push(" ");
    write_packet(text, state.packet);
    match state.moved {
        Moved::Passed => text.push(" goes to"),
        Moved::Lost => text.push(" is lost"),
        Moved::Stayed | Moved::Nothing => text.push(" stays"),
    }
    if state.moved == Moved::Passed {
        for output in 0..32u8 {
            if is_among(state.drives, output) {
                text.push(" ");
                write_port(timeline, output, text);
            }
        }
    }
    text.push("\n");
}
