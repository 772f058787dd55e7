//! The lines of a text, each read as what it asks for.

use crate::codes::{INSTRUCTION, read_instruction};
use crate::settings::{NodeSettings, read_link};
use bootstrap::{LinkNumber, Packet, is_memory_size};
use lab_words::{Wanted, WordFault, WordForm, Words};
use script_text::decimal_number;
use std::alloc::{AllocError, Global};

/// What a line asks for.
#[derive(Drop)]
pub enum TraceCommand {
    /// A fresh node that runs: how many bytes of memory it has, and what is put into it.
    Node(usize, NodeSettings),
    /// A fresh node that boots.
    Open(usize),
    /// Something is put into the node.
    Set(NodeSettings),
    /// Instructions on a node of their own.
    Try(NodeSettings),
    /// The instructions that bytes spell.
    Decode(Vec<u8>),
    /// Something that is seen of the node.
    Ask(Query),
    /// Steps, each shown.
    Step(u64),
    /// Takes the packet that leaves a link next.
    Take(LinkNumber),
    /// A host asks by link 0 for a word of memory.
    Peek(u32),
    /// Something whose changes are shown.
    NodeChange(NodeChange),
}

/// What is asked of a node and changes nothing.
#[derive(Clone, Copy)]
pub enum Query {
    /// What is seen of the node.
    Look,
    /// Whether the next Step would not be recorded.
    Quiet,
    /// All registers.
    Registers,
    /// A word of memory.
    Word(u32),
}

/// What is done to a node.
#[derive(Drop)]
pub enum NodeChange {
    /// Steps up to one that would not be recorded, shown together.
    Run(u64),
    /// A packet arrives at a link.
    Deliver(LinkNumber, Packet),
    /// The node is reset, and its memory stays.
    Reset,
    /// The node is reset, and its memory is zero.
    Clear,
    /// A host sends bytes by a link.
    Send(LinkNumber, Vec<u8>),
    /// A host sends code by a link, as a boot message.
    Boot(LinkNumber, Vec<u8>),
    /// A host takes a byte from a link.
    Receive(LinkNumber),
    /// A host stores a word of memory by link 0.
    Poke(u32, u32),
}

// The first word of a line.
#[derive(Clone, Copy)]
enum TraceVerb {
    Node,
    Open,
    Set,
    Try,
    Decode,
    Look,
    Quiet,
    Registers,
    Word,
    Step,
    Take,
    Peek,
    Run,
    Deliver,
    Reset,
    Clear,
    Send,
    Boot,
    Receive,
    Poke,
}

const VERBS: [(&str, TraceVerb); 20] = [
    ("node", TraceVerb::Node),
    ("open", TraceVerb::Open),
    ("set", TraceVerb::Set),
    ("try", TraceVerb::Try),
    ("decode", TraceVerb::Decode),
    ("look", TraceVerb::Look),
    ("quiet", TraceVerb::Quiet),
    ("registers", TraceVerb::Registers),
    ("word", TraceVerb::Word),
    ("step", TraceVerb::Step),
    ("take", TraceVerb::Take),
    ("peek", TraceVerb::Peek),
    ("run", TraceVerb::Run),
    ("deliver", TraceVerb::Deliver),
    ("reset", TraceVerb::Reset),
    ("clear", TraceVerb::Clear),
    ("send", TraceVerb::Send),
    ("boot", TraceVerb::Boot),
    ("receive", TraceVerb::Receive),
    ("poke", TraceVerb::Poke),
];

// What the kind of a packet is called.
#[derive(Clone, Copy)]
enum PacketKind {
    Byte,
    Acknowledge,
}

const PACKET_NAMES: [&str; 2] = ["byte", "acknowledge"];

const PACKET_KINDS: [(&str, PacketKind); 2] = [
    ("byte", PacketKind::Byte),
    ("acknowledge", PacketKind::Acknowledge),
];

// The names of the verbs, as messages list them.
const VERB_NAMES: [&str; 20] = [
    "node",
    "open",
    "set",
    "reset",
    "clear",
    "try",
    "step",
    "run",
    "deliver",
    "take",
    "send",
    "boot",
    "receive",
    "peek",
    "poke",
    "look",
    "quiet",
    "registers",
    "word",
    "decode",
];

/// What a line asks for. `Wrong` with the first word that is wrong or missing, or that comes after the end.
pub fn read_command(alloc: Global, line: &str) -> Result<TraceCommand, WordFault> {
    let mut words = Words::of(line);
    let wanted = Wanted::Word("a verb of a node", WordForm::OneOf(&VERB_NAMES));
    let verb = words.value_in(&VERBS, TraceVerb::Look, wanted);
    let command = read_behind(alloc, verb, &mut words)?;
    words.finish(command)
}

// What a line asks for whose first word was read.
fn read_behind(
    alloc: Global,
    verb: TraceVerb,
    words: &mut Words,
) -> Result<TraceCommand, AllocError> {
    Ok(match verb {
        TraceVerb::Node => TraceCommand::Node(
            read_size(words),
            NodeSettings::read(alloc, words, false)?,
        ),
        TraceVerb::Open => TraceCommand::Open(read_size(words)),
        TraceVerb::Set => TraceCommand::Set(NodeSettings::read(alloc, words, false)?),
        TraceVerb::Try => TraceCommand::Try(read_trial(alloc, words)?),
        TraceVerb::Decode => TraceCommand::Decode(words.bytes(alloc)?),
        TraceVerb::Look => TraceCommand::Ask(Query::Look),
        TraceVerb::Quiet => TraceCommand::Ask(Query::Quiet),
        TraceVerb::Registers => TraceCommand::Ask(Query::Registers),
        TraceVerb::Word => TraceCommand::Ask(Query::Word(words.hexadecimal("an address"))),
        TraceVerb::Step => TraceCommand::Step(read_steps_or_one(words)),
        TraceVerb::Take => TraceCommand::Take(read_link(words)),
        TraceVerb::Peek => TraceCommand::Peek(words.hexadecimal("an address")),
        TraceVerb::Run => TraceCommand::NodeChange(NodeChange::Run(read_steps(words))),
        TraceVerb::Deliver => TraceCommand::NodeChange(NodeChange::Deliver(
            read_link(words),
            read_packet(words),
        )),
        TraceVerb::Reset => TraceCommand::NodeChange(NodeChange::Reset),
        TraceVerb::Clear => TraceCommand::NodeChange(NodeChange::Clear),
        TraceVerb::Send => TraceCommand::NodeChange(NodeChange::Send(
            read_link(words),
            words.bytes(alloc)?,
        )),
        TraceVerb::Boot => TraceCommand::NodeChange(NodeChange::Boot(
            read_link(words),
            read_code(alloc, words)?,
        )),
        TraceVerb::Receive => TraceCommand::NodeChange(NodeChange::Receive(read_link(words))),
        TraceVerb::Poke => TraceCommand::NodeChange(NodeChange::Poke(
            words.hexadecimal("an address"),
            words.hexadecimal("a word"),
        )),
    })
}

// How many bytes of memory a node has: a multiple of 4 from 2,048 to 65,536, or 4,096 if no number is here.
fn read_size(words: &mut Words) -> usize {
    let [b'0'..=b'9', ..] = words.peek().as_bytes() else {
        return 4096;
    };
    let (least, most) = (2048, 65_536);
    let wanted = Wanted::Word("a size of memory", WordForm::MultipleOfFour { least, most });
    let place = words.place();
    let size = match decimal_number(words.take(wanted)) {
        Some(size) if size <= most => size as usize,
        _ => {
            words.reject(place, wanted);
            least as usize
        }
    };
    if !is_memory_size(size) {
        words.reject(place, wanted);
    }
    size
}

// Instructions, one at least, and what the node has besides.
fn read_trial(alloc: Global, words: &mut Words) -> Result<NodeSettings, AllocError> {
    let place = words.place();
    let settings = NodeSettings::read(alloc, words, true)?;
    if settings.code.is_empty() {
        words.reject(place, INSTRUCTION);
    }
    Ok(settings)
}

// Instructions up to the end of the line.
fn read_code(alloc: Global, words: &mut Words) -> Result<Vec<u8>, AllocError> {
    let mut code = Vec::new(alloc);
    for _ in 0..words.count() {
        if words.is_empty() {
            break;
        }
        if !read_instruction(alloc, words, &mut code)? {
            let place = words.place();
            words.reject(place, INSTRUCTION);
            break;
        }
    }
    Ok(code)
}

fn read_steps(words: &mut Words) -> u64 {
    words.decimal("a number of Steps", u64::MAX)
}

fn read_steps_or_one(words: &mut Words) -> u64 {
    if words.is_empty() {
        1
    } else {
        read_steps(words)
    }
}

fn read_packet(words: &mut Words) -> Packet {
    let wanted = Wanted::Word("a packet", WordForm::OneOf(&PACKET_NAMES));
    match words.value_in(&PACKET_KINDS, PacketKind::Acknowledge, wanted) {
        PacketKind::Byte => Packet::Byte(words.byte(WordForm::TwoDigits)),
        PacketKind::Acknowledge => Packet::Ack,
    }
}
