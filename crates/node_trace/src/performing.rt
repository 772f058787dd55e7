//! What the lines do, and how they are answered.

use crate::changes::{write_all_registers, write_changes};
use crate::commands::{NodeChange, Query, TraceCommand};
use crate::fault::TraceFault;
use crate::instruction::InstructionByte;
use crate::packets::{peek, poke, receive, send, write_packet};
use crate::program::{ProgramLine, write_source};
use crate::settings::NodeSettings;
use crate::sizes::memory_size;
use crate::snapshot::Snapshot;
use crate::trial::write_trial;
use answer_text::{write_seen, write_stepped};
use bootstrap::{
    BootFault, CODE_START, Cpu, LEAST_BOOTED, Links, MOST_BOOTED, Memory, NoMemory, Node, Stepped,
    boot_message,
};
use script_text::TextWriter;
use std::alloc::Global;
use step_meter::{OutOfSteps, StepMeter};
use t414_assembly::{Instruction, write_instruction};
use t414_decode::{Function, accumulate, decode};

/// The workspace of the process on a fresh node.
const WORKSPACE: u32 = 0x8000_0200;

/// A fresh node that runs: its memory is zero, its links have done nothing, A, B and C are 0, W is 80000200, Iptr 80000048
/// where code begins, and the queue is empty.
pub fn open_running(alloc: Global, size: usize) -> Result<Node, NoMemory> {
    let registers = Cpu::new(CODE_START, WORKSPACE);
    let memory = Memory::new(alloc, memory_size(size))?;
    Ok(Node::running(memory, Links::new(), registers))
}

/// A text without the blanks before and after it, or `-` if it is empty.
pub fn or_dash(alloc: Global, text: &str) -> Result<String, NoMemory> {
    let text = text.trim();
    String::from_str(alloc, if text.is_empty() { "-" } else { text })
}

/// Does what a line asks for on a node, and writes the answer. Returns the node as it is then.
pub fn perform<M: StepMeter>(
    alloc: Global,
    node: Node,
    command: &TraceCommand,
    meter: &mut M,
    text: &mut TextWriter,
) -> Result<Node, TraceFault> {
    let mut node = node;
    match command {
        TraceCommand::Node(size, settings) => {
            return Ok(put(open_running(alloc, *size)?, settings, text));
        }
        TraceCommand::Open(size) => return Ok(Node::open(alloc, memory_size(*size))?),
        TraceCommand::Set(settings) => return Ok(put(node, settings, text)),
        TraceCommand::Try(settings) => write_trial(alloc, settings, text)?,
        TraceCommand::Decode(bytes) => write_decoded(bytes.as_slice(), text),
        TraceCommand::Ask(query) => write_answer(&node, *query, text),
        TraceCommand::Step(count) => write_steps(&mut node, *count, meter, text)?,
        TraceCommand::Take(link) => write_packet(text, node.take(*link)),
        TraceCommand::Peek(address) => match peek(&mut node, *address) {
            Some(word) => text.push_word(word),
            None => text.push("none"),
        },
        TraceCommand::NodeChange(change) => {
            let before = Snapshot::of(&node)?;
            make_change(alloc, &mut node, change, meter, text)?;
            write_changes(text, &before, &node, 0);
        }
    }
    Ok(node)
}

/// Writes what a Step answered.
pub fn push_stepped(text: &mut TextWriter, stepped: Stepped) {
    let written = write_stepped(text.as_mut_string(), stepped);
    text.keep_failure(written);
}

// Puts settings into a node.
fn put(node: Node, settings: &NodeSettings, text: &mut TextWriter) -> Node {
    let (node, stored) = settings.put(node);
    match stored {
        None => text.push("no registers"),
        Some(Ok(())) => {}
        Some(Err(fault)) => push_stepped(text, Stepped::Fault(fault)),
    }
    node
}

// Answers what changes nothing.
fn write_answer(node: &Node, query: Query, text: &mut TextWriter) {
    match query {
        Query::Look => {
            let written = write_seen(text.as_mut_string(), node.look());
            text.keep_failure(written);
        }
        Query::Quiet => text.push(if node.quiet() { "quiet" } else { "not quiet" }),
        Query::Registers => match node.registers() {
            Some(registers) => write_all_registers(text, &registers),
            None => text.push("no registers"),
        },
        Query::Word(address) => match node.memory().word(address) {
            Ok(word) => text.push_word(word),
            Err(fault) => push_stepped(text, Stepped::Fault(fault)),
        },
    }
}

// Changes a node, and writes what was answered beside the changes.
fn make_change<M: StepMeter>(
    alloc: Global,
    node: &mut Node,
    change: &NodeChange,
    meter: &mut M,
    text: &mut TextWriter,
) -> Result<(), TraceFault> {
    match change {
        NodeChange::Run(count) => run(node, *count, meter, text)?,
        NodeChange::Deliver(link, packet) => node.deliver(*link, *packet),
        NodeChange::Reset => node.reset(),
        NodeChange::Clear => node.clear(),
        NodeChange::Send(link, bytes) => send(node, *link, bytes.as_slice()),
        NodeChange::Boot(link, code) => match boot_message(alloc, code.as_slice()) {
            Ok(message) => send(node, *link, message.as_slice()),
            Err(BootFault::NoMemory) => return Err(TraceFault::Memory(NoMemory)),
            Err(fault) => write_refused(text, fault, code.len()),
        },
        NodeChange::Receive(link) => match receive(node, *link) {
            Some(byte) => text.push_hex_byte(byte),
            None => text.push("none"),
        },
        NodeChange::Poke(address, word) => poke(node, *address, *word),
    }
    Ok(())
}

// Writes that a boot doesn't take `count` bytes of code.
fn write_refused(text: &mut TextWriter, fault: BootFault, count: usize) {
    text.push("refused ");
    text.push_decimal(u64::from(fault.number()));
    text.push(": a boot takes ");
    text.push_decimal(LEAST_BOOTED as u64);
    text.push(" to ");
    text.push_decimal(MOST_BOOTED as u64);
    text.push(" bytes of code, and this has ");
    text.push_decimal(count as u64);
    if let BootFault::TooLong = fault {
        text.push(" (`lab assemble --pokes` prints the lines of a script that load more)");
    }
}

// Does Steps up to one that would not be recorded, and writes how many, and what the last answered.
fn run<M: StepMeter>(
    node: &mut Node,
    count: u64,
    meter: &mut M,
    text: &mut TextWriter,
) -> Result<(), OutOfSteps> {
    let mut done: u64 = 0;
    let mut last = None;
    for _ in 0..count {
        if done >= count {
            break;
        }
        let some = meter.allow(count - done)?;
        let burst = node.burst(some);
        meter.note(burst.steps);
        done = done.saturating_add(burst.steps);
        last = burst.last.or(last);
        if burst.steps < some {
            break;
        }
    }
    text.push_decimal(done);
    if let Some(last) = last {
        text.push(" ");
        push_stepped(text, last);
    }
    Ok(())
}

// Does Steps up to one that doesn't run, and writes a line for each: its instruction, what it answered, what changed.
fn write_steps<M: StepMeter>(
    node: &mut Node,
    count: u64,
    meter: &mut M,
    text: &mut TextWriter,
) -> Result<(), TraceFault> {
    for number in 0..count {
        let _ = meter.allow(1)?;
        meter.note(1);
        if number != 0 {
            text.push("\n");
        }
        let next = InstructionByte::next(node)?;
        if write_step(node, next, ProgramColumn::NONE, text)? != Stepped::Ran {
            break;
        }
    }
    Ok(())
}

/// The lines of a program, as a column of `width` letters.
#[derive(Clone, Copy)]
pub struct ProgramColumn<'a> {
    pub lines: &'a [ProgramLine<'a>],
    pub width: usize,
}

impl ProgramColumn<'_> {
    // No program is known.
    const NONE: ProgramColumn<'static> = ProgramColumn {
        lines: &[],
        width: 0,
    };
}

/// Does one Step, which does this instruction byte, and writes the instruction, its place and line in a program if it has
/// one, what it answered and what changed.
pub fn write_step(
    node: &mut Node,
    next: Option<InstructionByte>,
    source: ProgramColumn,
    text: &mut TextWriter,
) -> Result<Stepped, NoMemory> {
    let before = Snapshot::of(node)?;
    let stepped = node.step();
    if let Some(instruction) = next {
        let begin = text.as_mut_string().len();
        instruction.write(text);
        if write_source(text, begin, source.lines, instruction.address, source.width) {
            text.push(" ");
        }
        text.push(" ");
    }
    push_stepped(text, stepped);
    write_changes(text, &before, node, u32::from(next.is_some()));
    Ok(stepped)
}

// Writes the instructions that bytes spell, each with its whole operand, and what a last prefix leaves in O.
fn write_decoded(bytes: &[u8], text: &mut TextWriter) {
    let mut operand = 0;
    for byte in bytes {
        let (function, _) = decode(*byte);
        operand = accumulate(operand, *byte);
        if !matches!(function, Function::Prefix | Function::NegativePrefix) {
            write_instruction(text, Instruction { function, operand });
            text.push(" ");
            operand = 0;
        }
    }
    if operand != 0 {
        text.push("O ");
        text.push_word(operand);
    }
}
