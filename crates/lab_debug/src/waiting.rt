//! In which lines of its program a node waits, halted or goes on.

use crate::code::next_address;
use bootstrap::{Memory, Node};
use domain_core::NoMemory;
use link_channels::Process;
use node_causes::{Cause, LinkWaits, cause_of, inside_waits};
use node_trace::{Program, ProgramLine, line_with, write_line_number};
use record_following::ReplayedDomain;
use script_text::TextWriter;
use std::alloc::Global;

/// The lines of a node's program, and the memory in which it is.
#[derive(Clone, Copy)]
struct NodeLines<'a> {
    node: u8,
    memory: &'a Memory,
    program: &'a Program,
    lines: &'a [ProgramLine<'a>],
}

impl NodeLines<'_> {
    // Writes what the node does at the instruction byte at an address, with the line of that.
    fn write(self, does: &str, address: u32, text: &mut TextWriter) {
        text.push("node ");
        text.push_decimal(u64::from(self.node));
        text.push(" at ");
        text.push_word(address);
        text.push(" ");
        text.push(does);
        match line_with(self.lines, address) {
            Some(line) if !self.is_there(&line) => {
                text.push(" where memory has other code than its program");
            }
            _ => write_line_at(self.lines, address, text),
        }
        text.push("\n");
    }

    // Whether the bytes of a line of the program are in memory.
    fn is_there(self, line: &ProgramLine) -> bool {
        for offset in 0..line.length {
            let address = line.address.wrapping_add(offset);
            if self.memory.byte(address).ok() != self.program.byte_at(address) {
                return false;
            }
        }
        true
    }

    // Writes where a process waits, whose last instruction is before the one at which it goes on.
    fn write_process(self, process: Process, text: &mut TextWriter) {
        self.write("waits", process.instruction.wrapping_sub(1), text);
    }
}

/// Writes the line that has the byte at an address: ` in line 6 (20): c ! letter`.
pub fn write_line_at(lines: &[ProgramLine], address: u32, text: &mut TextWriter) {
    match line_with(lines, address) {
        Some(line) => {
            text.push(" in ");
            write_line_number(&line, text);
            text.push(": ");
            text.push(line.text.trim());
        }
        None => text.push(" in no line of its program"),
    }
}

// Adds a process, unless it is there.
fn add_process(found: &mut Vec<Process>, process: Option<Process>) -> Result<(), NoMemory> {
    if let Some(process) = process
        && !found.contains(&process)
    {
        found.push(process)?;
    }
    Ok(())
}

// Adds the processes that wait at a link.
fn add_at_link(found: &mut Vec<Process>, waits: &LinkWaits) -> Result<(), NoMemory> {
    if let Some(wait) = waits.output {
        add_process(found, wait.process)?;
    }
    if let Some(wait) = waits.input {
        add_process(found, wait.process)?;
    }
    add_process(found, waits.watch)
}

// The processes of a node that wait at links and at channels in its memory.
fn waiting_processes(
    alloc: Global,
    node: &Node,
    waits: &[LinkWaits; 4],
) -> Result<Vec<Process>, NoMemory> {
    let mut found = Vec::new(alloc);
    for link in waits {
        add_at_link(&mut found, link)?;
    }
    for wait in &inside_waits(alloc, node.memory())? {
        add_process(&mut found, Some(wait.process))?;
    }
    Ok(found)
}

/// Writes in which line of its program each process of a node waits, or in which it halted or goes on.
pub fn write_waits(
    alloc: Global,
    replayed: &ReplayedDomain,
    number: u8,
    program: &Program,
    text: &mut TextWriter,
) -> Result<(), NoMemory> {
    let Some(node) = replayed.node(number) else {
        return Ok(());
    };
    let lines = program.lines(alloc)?;
    let its = NodeLines {
        node: number,
        memory: node.memory(),
        program,
        lines: lines.as_slice(),
    };
    match cause_of(replayed, number) {
        Some(Cause::Rests(waits)) => {
            for process in &waiting_processes(alloc, node, &waits)? {
                its.write_process(*process, text);
            }
        }
        Some(Cause::Runs) => {
            if let Some(address) = next_address(node)? {
                its.write("goes on", address, text);
            }
        }
        Some(Cause::Halted(_)) => {
            if let Some(fault) = replayed.notes().node(number).fault
                && let Some(registers) = fault.registers
            {
                its.write("erred", registers.instruction, text);
            }
        }
        _ => {}
    }
    Ok(())
}
