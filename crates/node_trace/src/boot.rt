//! A node that is booted with code, and traced Step by Step.

use crate::hosts::{LinkHost, LinkInput, hosts_of};
use crate::instruction::InstructionByte;
use crate::packets::send;
use crate::performing::{ProgramColumn, write_step};
use crate::program::{ProgramLine, width_of};
use bootstrap::{BootFault, LinkNumber, Node, Stepped, boot_message};
use script_text::TextWriter;
use std::alloc::{AllocError, Global};
use step_meter::StepMeter;

/// How wide the column of a program's lines is at most.
const MOST_WIDTH: usize = 40;

/// What is traced of a node that is booted with code.
#[derive(Clone, Copy)]
pub struct BootTrace<'a> {
    /// The code, 2 to 255 bytes.
    pub code: &'a [u8],
    /// How many Steps are traced at most.
    pub steps: u64,
    /// The address before whose instruction the trace stops.
    pub until: Option<u32>,
    /// What hosts at the links send to the program.
    pub inputs: &'a [LinkInput],
    /// The lines of the program that the code is, or none.
    pub lines: &'a [ProgramLine<'a>],
}

/// Why a trace ends.
#[derive(Clone, Copy)]
enum TraceEnd {
    /// A Step was idle, or brought a fault, as its line says.
    Stopped,
    /// The instruction at this address is next.
    Before(u32),
    /// This number of Steps was traced.
    Counted(u64),
}

/// Boots a node of 4,096 bytes with code by link 0, and gives a line for each Step that follows: the address of the
/// instruction, the instruction, and what changed. If the lines of a program are given, the nearest label and the line come
/// after an instruction of it. The trace stops after `trace.steps` Steps, at the first that is idle, at a fault, or at an
/// address.
///
/// Packets have lines of their own. A host at each link takes those that leave, acknowledges each byte, and sends the bytes
/// of its inputs, each as soon as the one before it is acknowledged. The last lines say why the trace stops, if no Step
/// does, and which bytes weren't taken. Each Step is noted by the meter.
///
/// # Errors
///
/// `TooShort` and `TooLong` if a boot doesn't take the code; `NoMemory`.
pub fn trace_boot<M: StepMeter>(
    alloc: Global,
    trace: &BootTrace,
    meter: &mut M,
) -> Result<String, BootFault> {
    let message = boot_message(alloc, trace.code)?;
    trace_message(alloc, message.as_slice(), trace, meter).map_err(|_| BootFault::NoMemory)
}

// Traces a node that a boot message boots.
fn trace_message<M: StepMeter>(
    alloc: Global,
    message: &[u8],
    trace: &BootTrace,
    meter: &mut M,
) -> Result<String, AllocError> {
    let mut node = Node::open(alloc, 4096)?;
    send(&mut node, LinkNumber::Zero, message);
    let mut hosts = hosts_of(alloc, trace.inputs)?;
    let mut text = TextWriter::new(alloc);
    let end = write_lines(&mut node, hosts.as_mut_slice(), trace, meter, &mut text)?;
    write_end(end, &mut text);
    for host in &hosts {
        host.write_rest(&mut text);
    }
    text.finish()
}

// Writes the lines of Steps and packets.
fn write_lines<M: StepMeter>(
    node: &mut Node,
    hosts: &mut [LinkHost],
    trace: &BootTrace,
    meter: &mut M,
    text: &mut TextWriter,
) -> Result<TraceEnd, AllocError> {
    let source = column_of(trace.lines);
    for _ in 0..trace.steps {
        for host in hosts.iter_mut() {
            host.send_next(node, text);
        }
        let next = InstructionByte::next(node)?;
        if let Some(address) = met_address(next, trace.until) {
            return Ok(TraceEnd::Before(address));
        }
        let stepped = write_line(node, next, source, text)?;
        meter.note(1);
        for host in hosts.iter_mut() {
            host.take_packets(node, text);
        }
        if stepped != Stepped::Ran {
            return Ok(TraceEnd::Stopped);
        }
    }
    Ok(TraceEnd::Counted(trace.steps))
}

// The address at which the trace stops, if the next instruction byte is there.
fn met_address(next: Option<InstructionByte>, until: Option<u32>) -> Option<u32> {
    match (next, until) {
        (Some(next), Some(address)) if next.address == address => Some(address),
        _ => None,
    }
}

// The lines of a program as a column.
fn column_of<'a>(lines: &'a [ProgramLine<'a>]) -> ProgramColumn<'a> {
    ProgramColumn {
        lines,
        width: width_of(lines, MOST_WIDTH),
    }
}

/// Does one Step, and writes its line, as `trace_boot` does.
pub fn trace_step(
    node: &mut Node,
    lines: &[ProgramLine],
    text: &mut TextWriter,
) -> Result<Stepped, AllocError> {
    let next = InstructionByte::next(node)?;
    write_line(node, next, column_of(lines), text)
}

// Does a Step, and writes its line.
fn write_line(
    node: &mut Node,
    next: Option<InstructionByte>,
    source: ProgramColumn,
    text: &mut TextWriter,
) -> Result<Stepped, AllocError> {
    if let Some(instruction) = next {
        text.push_word(instruction.address);
        text.push(" ");
    }
    let stepped = write_step(node, next, source, text)?;
    text.push("\n");
    Ok(stepped)
}

// Says why the trace stops, if its last Step doesn't.
fn write_end(end: TraceEnd, text: &mut TextWriter) {
    match end {
        TraceEnd::Stopped => {}
        TraceEnd::Before(address) => {
            text.push("stopped before ");
            text.push_word(address);
            text.push("\n");
        }
        TraceEnd::Counted(steps) => write_stopped(steps, text),
    }
}

/// Writes that a trace ends after `steps` Steps, the most that it may have.
pub fn write_stopped(steps: u64, text: &mut TextWriter) {
    text.push("stopped after ");
    text.push_decimal(steps);
    text.push(" Steps. --steps N traces more\n");
}
