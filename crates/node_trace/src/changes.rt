//! What has changed in a node, in words: registers, flags, words of memory, links, always in this order. What isn't named
//! is as it was.

use crate::snapshot::Snapshot;
use bootstrap::Node;
use link_channels::{FourLinks, Link};
use node_memory::{MEMORY_START, Memory};
use script_text::TextWriter;
use t414_step::Cpu;

/// The most words that a memory has.
const MOST_WORDS: u32 = 16_384;

/// A value of a node.
#[derive(Clone, Copy, PartialEq, Eq)]
enum Value {
    Word(u32),
    Count(u32),
    Flag(bool),
    Byte(Option<u8>),
    /// Where a message goes on, and how many bytes are left.
    Message(u32, u32),
}

/// A value with its name.
#[derive(Clone, Copy)]
struct ChangedField {
    name: &'static str,
    value: Value,
}

impl ChangedField {
    fn new(name: &'static str, value: Value) -> ChangedField {
        ChangedField { name, value }
    }
}

/// Writes a blank, a name and a value for each thing that changed. After `bytes` bytes of instructions Iptr is expected to be
/// greater by that number, the count of bytes too, up to 1,024, and O to be 0: what is as expected is left out.
pub fn write_changes(text: &mut TextWriter, before: &Snapshot, node: &Node, bytes: u32) {
    if let Some(new) = node.registers() {
        match before.registers {
            Some(old) => write_differing(
                text,
                &register_fields(&after_bytes(old, bytes)),
                &register_fields(&new),
            ),
            None => write_all_registers(text, &new),
        }
    }
    write_memory(text, &before.memory, node.memory());
    write_links(text, &before.links, &node.links().four());
}

// The registers after `bytes` bytes of instructions that change no others.
fn after_bytes(registers: Cpu, bytes: u32) -> Cpu {
    if bytes == 0 {
        return registers;
    }
    Cpu {
        instruction: registers.instruction.wrapping_add(bytes),
        bytes: registers.bytes.saturating_add(bytes).min(1024),
        operand: 0,
        ..registers
    }
}

/// Writes all registers.
pub fn write_all_registers(text: &mut TextWriter, registers: &Cpu) {
    for field in &register_fields(registers) {
        write_field(text, *field);
    }
}

fn register_fields(registers: &Cpu) -> [ChangedField; 12] {
    [
        ChangedField::new("Iptr", Value::Word(registers.instruction)),
        ChangedField::new("W", Value::Word(registers.workspace)),
        ChangedField::new("A", Value::Word(registers.a)),
        ChangedField::new("B", Value::Word(registers.b)),
        ChangedField::new("C", Value::Word(registers.c)),
        ChangedField::new("O", Value::Word(registers.operand)),
        ChangedField::new("bytes", Value::Count(registers.bytes)),
        ChangedField::new("Front", Value::Word(registers.queue.front)),
        ChangedField::new("Back", Value::Word(registers.queue.back)),
        ChangedField::new("Error", Value::Flag(registers.error)),
        ChangedField::new("HaltOnError", Value::Flag(registers.halt_on_error)),
        ChangedField::new("running", Value::Flag(registers.running)),
    ]
}

fn link_fields(link: &Link) -> [ChangedField; 9] {
    let (input, output) = (&link.end.input, &link.end.output);
    [
        ChangedField::new("sends", Value::Byte(link.end.latch.byte)),
        ChangedField::new("acknowledges", Value::Flag(link.end.latch.acknowledge)),
        ChangedField::new("holds", Value::Byte(input.buffer)),
        ChangedField::new("overruns", Value::Count(input.overruns)),
        ChangedField::new("awaits", Value::Flag(output.awaits)),
        ChangedField::new("acknowledged", Value::Flag(output.acknowledged)),
        ChangedField::new(
            "input",
            Value::Message(link.input_pointer, link.input_count),
        ),
        ChangedField::new(
            "output",
            Value::Message(link.output_pointer, link.output_count),
        ),
        ChangedField::new("watched", Value::Flag(link.watched)),
    ]
}

/// Writes a blank, a name and a value for each field of a link.
pub fn write_link_fields(text: &mut TextWriter, link: &Link) {
    for field in &link_fields(link) {
        write_field(text, *field);
    }
}

// Writes the new fields whose values differ from the old.
fn write_differing(text: &mut TextWriter, old: &[ChangedField], new: &[ChangedField]) {
    for (old, new) in old.iter().zip(new.iter()) {
        if old.value != new.value {
            write_field(text, *new);
        }
    }
}

fn write_field(text: &mut TextWriter, field: ChangedField) {
    text.push(" ");
    text.push(field.name);
    text.push(" ");
    match field.value {
        Value::Word(word) => text.push_word(word),
        Value::Count(count) => text.push_decimal(u64::from(count)),
        Value::Flag(flag) => text.push(if flag { "1" } else { "0" }),
        Value::Byte(Some(byte)) => text.push_hex_byte(byte),
        Value::Byte(None) => text.push("-"),
        Value::Message(pointer, count) => {
            text.push_word(pointer);
            text.push(" ");
            text.push_decimal(u64::from(count));
        }
    }
}

fn write_memory(text: &mut TextWriter, old: &Memory, new: &Memory) {
    for index in 0..MOST_WORDS {
        let address = MEMORY_START.wrapping_add(index.wrapping_mul(4));
        let Ok(word) = new.word(address) else {
            break;
        };
        if old.word(address) != Ok(word) {
            text.push(" word ");
            text.push_word(address);
            text.push(" ");
            text.push_word(word);
        }
    }
}

fn write_links(text: &mut TextWriter, old: &FourLinks, new: &FourLinks) {
    write_link(text, " link 0", &old.zero, &new.zero);
    write_link(text, " link 1", &old.one, &new.one);
    write_link(text, " link 2", &old.two, &new.two);
    write_link(text, " link 3", &old.three, &new.three);
}

fn write_link(text: &mut TextWriter, name: &str, old: &Link, new: &Link) {
    if !new.equals(old) {
        text.push(name);
        write_differing(text, &link_fields(old), &link_fields(new));
    }
}
