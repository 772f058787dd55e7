//! What a frame tells, each fact under a name.

use crate::NoMemory;
use crate::frame::{Frame, NodeFrame, registers_in};
use answer_text::write_seen;
use bootstrap::Seen;
use crossbar::Word;
use link_channels::{Link, Process};
use script_text::TextWriter;
use serde_json::Value;
use std::alloc::Global;

/// The handbook's names of the registers.
const REGISTERS: [&str; 7] = ["Iptr", "W", "A", "B", "C", "O", "Error"];

/// The names of the words from the workspace on.
const WORKSPACE: [&str; 8] = ["W+0", "W+4", "W+8", "W+12", "W+16", "W+20", "W+24", "W+28"];

/// The names of the processes that wait for the processor.
const WAITING: [&str; 4] = ["waiting 0", "waiting 1", "waiting 2", "waiting 3"];

/// What a leaf speaks of, by its numbers.
#[derive(Clone, Copy)]
enum Subject {
    /// A virtual output of the switch.
    Output(u8),
    Node(u8),
    /// A link of a node.
    Link { node: u8, link: u8 },
}

/// The value of a leaf.
#[derive(Clone, Copy, PartialEq, Eq)]
enum Told {
    Nothing,
    Number(u32),
    /// That it is so.
    Truth,
    Word(Word),
    Look(Seen),
    Process(Process),
}

/// One fact of a frame, with its name.
#[derive(Clone, Copy)]
pub struct Leaf {
    subject: Subject,
    name: &'static str,
    told: Told,
}

fn word_told(word: Option<u32>) -> Told {
    match word {
        Some(word) => Told::Number(word),
        None => Told::Nothing,
    }
}

fn byte_told(byte: Option<u8>) -> Told {
    match byte {
        Some(byte) => Told::Number(u32::from(byte)),
        None => Told::Nothing,
    }
}

fn process_told(process: Option<Process>) -> Told {
    match process {
        Some(process) => Told::Process(process),
        None => Told::Nothing,
    }
}

// How many there are, if there are some.
fn count_told(count: u32) -> Told {
    if count > 0 {
        Told::Number(count)
    } else {
        Told::Nothing
    }
}

fn truth_told(is_so: bool) -> Told {
    if is_so { Told::Truth } else { Told::Nothing }
}

// The registers of a node that runs, in the order of their names. Error is 0 or 1.
fn registers_told(node: &NodeFrame) -> [Told; 7] {
    let Some(cpu) = registers_in(node.state) else {
        return [Told::Nothing; 7];
    };
    [
        Told::Number(cpu.instruction),
        Told::Number(cpu.workspace),
        Told::Number(cpu.a),
        Told::Number(cpu.b),
        Told::Number(cpu.c),
        Told::Number(cpu.operand),
        Told::Number(u32::from(cpu.error)),
    ]
}

// What is under way at a link.
fn link_told(link: &Link) -> [(&'static str, Told); 8] {
    [
        ("sends", byte_told(link.end.latch.byte)),
        ("acknowledges", truth_told(link.end.latch.acknowledge)),
        ("holds", byte_told(link.end.input.buffer)),
        ("awaits", truth_told(link.end.output.awaits)),
        ("acknowledged", truth_told(link.end.output.acknowledged)),
        ("watched", truth_told(link.watched)),
        ("wanted", count_told(link.input_count)),
        ("left", count_told(link.output_count)),
    ]
}

fn add(
    leaves: &mut Vec<Leaf>,
    subject: Subject,
    name: &'static str,
    told: Told,
) -> Result<(), NoMemory> {
    leaves.push(Leaf {
        subject,
        name,
        told,
    })?;
    Ok(())
}

fn add_node(leaves: &mut Vec<Leaf>, number: u8, node: &NodeFrame) -> Result<(), NoMemory> {
    let subject = Subject::Node(number);
    add(leaves, subject, "look", Told::Look(node.seen))?;
    for (name, told) in REGISTERS.into_iter().zip(registers_told(node)) {
        add(leaves, subject, name, told)?;
    }
    for (name, word) in WORKSPACE.into_iter().zip(node.workspace) {
        add(leaves, subject, name, word_told(word))?;
    }
    for (name, process) in WAITING.into_iter().zip(node.waiting) {
        add(leaves, subject, name, process_told(process))?;
    }
    for (link, at) in (0u8..4).zip(node.links.iter()) {
        let subject = Subject::Link { node: number, link };
        for (name, told) in link_told(at) {
            add(leaves, subject, name, told)?;
        }
    }
    Ok(())
}

/// What a frame tells of the switch and the nodes. Frames of one domain have the same names at the same places.
pub fn leaves_of(alloc: Global, frame: &Frame) -> Result<Vec<Leaf>, NoMemory> {
    let mut leaves = Vec::new(alloc);
    for (output, word) in (0u8..32).zip(frame.words.iter()) {
        add(
            &mut leaves,
            Subject::Output(output),
            "word",
            Told::Word(*word),
        )?;
    }
    for (number, node) in (0u8..8).zip(frame.nodes.iter()) {
        if let Some(node) = node {
            add_node(&mut leaves, number, node)?;
        }
    }
    Ok(leaves)
}

impl Leaf {
    /// Whether another leaf of the same name has the same value. Where there is none, that is no value.
    pub fn is_told_by(&self, other: Option<&Leaf>) -> bool {
        match other {
            Some(other) => self.told == other.told,
            None => self.told == Told::Nothing,
        }
    }

    /// Its name, as `node 0 Iptr`.
    pub fn name(&self, alloc: Global) -> Result<String, NoMemory> {
        let name = self.name;
        match self.subject {
            Subject::Output(output) => format!(in alloc; "output {output} {name}"),
            Subject::Node(node) => format!(in alloc; "node {node} {name}"),
            Subject::Link { node, link } => format!(in alloc; "node {node} link {link} {name}"),
        }
    }

    /// Its value in JSON.
    pub fn value(&self, alloc: Global) -> Result<Value, NoMemory> {
        let mut text = TextWriter::new(alloc);
        match self.told {
            Told::Nothing => return Ok(Value::Null),
            Told::Number(number) => return Ok(Value::from(number)),
            Told::Truth => return Ok(Value::Bool(true)),
            Told::Word(word) => text.push_hexadecimal(word.bits),
            Told::Look(seen) => {
                let written = write_seen(text.as_mut_string(), seen);
                text.keep_failure(written);
            }
            Told::Process(process) => {
                text.push_word(process.workspace);
                text.push(" ");
                text.push_word(process.instruction);
            }
        }
        Ok(Value::String(text.finish()?))
    }
}
