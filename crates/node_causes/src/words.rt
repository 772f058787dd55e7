//! Pieces of sentences.

use bootstrap::link_number_of;
use domain_core::{Device, Moved};
use link_channels::{LinkNumber, Process};
use script_text::TextWriter;
use t414_assembly::{Instruction, write_instruction};
use t414_decode::{Function, decode};
use t414_step::Cpu;

/// Writes a number between two texts.
pub fn push_number(text: &mut TextWriter, before: &str, number: u64, behind: &str) {
    text.push(before);
    text.push_decimal(number);
    text.push(behind);
}

/// Writes `1 byte` or `2 bytes` between two texts.
pub fn push_count(text: &mut TextWriter, before: &str, count: u32, behind: &str) {
    let what = if count == 1 { " byte" } else { " bytes" };
    push_number(text, before, u64::from(count), what);
    text.push(behind);
}

/// Writes `link 1` between two texts.
pub fn push_link(text: &mut TextWriter, before: &str, link: LinkNumber, behind: &str) {
    text.push(before);
    push_number(text, "link ", u64::from(link_number_of(link)), behind);
}

/// Writes `host 0` or `link 1 of node 2` between two texts.
pub fn push_device(text: &mut TextWriter, before: &str, device: Device, behind: &str) {
    text.push(before);
    match device {
        Device::Host(number) => push_number(text, "host ", u64::from(number), behind),
        Device::Link { node, link } => {
            push_link(text, "", link, " of node ");
            push_number(text, "", u64::from(node), behind);
        }
    }
}

/// Begins a sentence about a process, by the last byte of the instruction in which it waits.
pub fn push_at(text: &mut TextWriter, process: Option<Process>) {
    match process {
        Some(process) => {
            text.push("The process at ");
            text.push_word(process.instruction.wrapping_sub(1));
        }
        None => text.push("A process"),
    }
}

/// Writes an address, and the instruction whose byte is there.
pub fn push_instruction(text: &mut TextWriter, cpu: Cpu, byte: Option<u8>) {
    text.push_word(cpu.instruction);
    if let Some(byte) = byte {
        let (function, nibble) = decode(byte);
        let operand = match function {
            Function::Prefix | Function::NegativePrefix => u32::from(nibble),
            _ => cpu.operand | u32::from(nibble),
        };
        text.push(" in `");
        write_instruction(text, Instruction { function, operand });
        text.push("`");
    }
}

/// Ends a sentence about a packet that waits at a port by what a Move of it would come to.
pub fn push_move(text: &mut TextWriter, port: u8, moved: Moved) {
    match moved {
        Moved::Nothing => text.push("."),
        Moved::Passed => text.push(", and a Move takes it on."),
        Moved::Lost => {
            let before = ", and a Move loses it: input ";
            push_number(text, before, u64::from(port), " drives no output.");
        }
        Moved::Stayed => {
            let before = ", and stays there: an output that input ";
            let behind = " drives isn't ready. Message 03 makes it ready.";
            push_number(text, before, u64::from(port), behind);
        }
    }
    text.push("\n");
}

/// Ends a sentence about a packet that was lost at a port in an event.
pub fn push_lost(text: &mut TextWriter, port: u8, event: u64) {
    push_number(text, " was lost in event ", event, ", as input ");
    push_number(text, "", u64::from(port), " drove no output.\n");
}
