//! What a line puts into a node: registers, flags, words of memory, code, and what is at links.

use crate::codes::read_instruction;
use bootstrap::{Cpu, Fault, LinkNumber, Links, Memory, Node, link_of};
use lab_words::{Wanted, WordForm, Words};
use link_channels::Link;
use script_text::value_named;
use std::alloc::{AllocError, Global};

/// One thing that is put into a node.
#[derive(Clone, Copy)]
pub enum Setting {
    Register(Register, u32),
    Flag(Flag, bool),
    /// How many bytes of instructions were done.
    Bytes(u32),
    /// A word of memory: its address, and the word.
    Word(u32, u32),
    AtLink(LinkNumber, LinkSetting),
}

/// A register of a word.
#[derive(Clone, Copy)]
pub enum Register {
    Instruction,
    Workspace,
    A,
    B,
    C,
    Operand,
    Front,
    Back,
}

/// A flag of the processor.
#[derive(Clone, Copy)]
pub enum Flag {
    Error,
    HaltOnError,
    Running,
}

/// One thing that is put at a link.
#[derive(Clone, Copy)]
pub enum LinkSetting {
    /// The byte that waits to leave.
    Sends(Option<u8>),
    /// The byte in the buffer.
    Holds(Option<u8>),
    Overruns(u32),
    Flag(LinkFlag, bool),
    /// Where the next byte that arrives is stored, and how many are still awaited.
    Input(u32, u32),
    /// Where the byte is that is sent next, and how many are still to be sent.
    Output(u32, u32),
}

/// What is true of a link or isn't.
#[derive(Clone, Copy)]
pub enum LinkFlag {
    /// An acknowledge waits to leave.
    Acknowledges,
    Awaits,
    Acknowledged,
    Watched,
}

/// What a line puts into a node, and the code that it puts where Iptr points then.
pub struct NodeSettings {
    pub settings: Vec<Setting>,
    pub code: Vec<u8>,
}

// Dropped by hand, since a derived `Drop` makes callers prove the drop of each field.
impl Drop for NodeSettings {
    fn drop(self) {
        let NodeSettings {
            settings: _,
            code: _,
        } = self;
    }
}

impl NodeSettings {
    /// Nothing.
    pub fn none(alloc: Global) -> NodeSettings {
        NodeSettings {
            settings: Vec::new(alloc),
            code: Vec::new(alloc),
        }
    }

    /// Reads settings to the end of a line. Instructions come after `code`, or from the beginning if `begins_with_code`.
    pub fn read(
        alloc: Global,
        words: &mut Words,
        begins_with_code: bool,
    ) -> Result<NodeSettings, AllocError> {
        let mut read = NodeSettings::none(alloc);
        let mut is_code = begins_with_code;
        let mut link = None;
        for _ in 0..words.count() {
            if words.is_empty() {
                break;
            }
            if is_code && read_instruction(alloc, words, &mut read.code)? {
                continue;
            }
            if words.take_if("code") {
                is_code = true;
            } else if words.take_if("link") {
                link = Some(read_link(words));
            } else {
                read.settings.push(read_setting(link, is_code, words))?;
            }
        }
        Ok(read)
    }

    /// Puts all of it into a node that runs. `None` where the node has no registers, as it boots or has halted.
    pub fn put(&self, node: Node) -> (Node, Option<Result<(), Fault>>) {
        let Some(mut registers) = node.registers() else {
            return (node, None);
        };
        let (mut memory, mut links) = node.into_parts();
        let stored = self.put_into(&mut registers, &mut memory, &mut links);
        (Node::running(memory, links, registers), Some(stored))
    }

    fn put_into(
        &self,
        registers: &mut Cpu,
        memory: &mut Memory,
        links: &mut Links,
    ) -> Result<(), Fault> {
        for setting in &self.settings {
            match setting {
                Setting::Register(register, word) => put_register(registers, *register, *word),
                Setting::Flag(flag, value) => put_flag(registers, *flag, *value),
                Setting::Bytes(count) => registers.bytes = *count,
                Setting::Word(address, word) => memory.set_word(*address, *word)?,
                Setting::AtLink(number, setting) => {
                    let mut link = links.at(*number);
                    put_at_link(&mut link, setting);
                    links.set(*number, link);
                }
            }
        }
        let mut address = registers.instruction;
        for byte in &self.code {
            memory.set_byte(address, *byte)?;
            address = address.wrapping_add(1);
        }
        Ok(())
    }
}

fn put_register(registers: &mut Cpu, register: Register, word: u32) {
    match register {
        Register::Instruction => registers.instruction = word,
        Register::Workspace => registers.workspace = word,
        Register::A => registers.a = word,
        Register::B => registers.b = word,
        Register::C => registers.c = word,
        Register::Operand => registers.operand = word,
        Register::Front => registers.queue.front = word,
        Register::Back => registers.queue.back = word,
    }
}

fn put_flag(registers: &mut Cpu, flag: Flag, value: bool) {
    match flag {
        Flag::Error => registers.error = value,
        Flag::HaltOnError => registers.halt_on_error = value,
        Flag::Running => registers.running = value,
    }
}

fn put_at_link(link: &mut Link, setting: &LinkSetting) {
    match setting {
        LinkSetting::Sends(byte) => link.end.latch.byte = *byte,
        LinkSetting::Holds(byte) => link.end.input.buffer = *byte,
        LinkSetting::Overruns(count) => link.end.input.overruns = *count,
        LinkSetting::Flag(flag, value) => put_link_flag(link, *flag, *value),
        LinkSetting::Input(pointer, count) => {
            link.input_pointer = *pointer;
            link.input_count = *count;
        }
        LinkSetting::Output(pointer, count) => {
            link.output_pointer = *pointer;
            link.output_count = *count;
        }
    }
}

fn put_link_flag(link: &mut Link, flag: LinkFlag, value: bool) {
    match flag {
        LinkFlag::Acknowledges => link.end.latch.acknowledge = value,
        LinkFlag::Awaits => link.end.output.awaits = value,
        LinkFlag::Acknowledged => link.end.output.acknowledged = value,
        LinkFlag::Watched => link.watched = value,
    }
}

/// The number of a link, 0 to 3.
pub fn read_link(words: &mut Words) -> LinkNumber {
    link_of(words.decimal("a link's number", 3) as u8)
}

// What the name of a setting stands for.
#[derive(Clone, Copy)]
enum SettingField {
    Register(Register),
    Flag(Flag),
    Bytes,
    Word,
    AtLink(LinkField),
}

#[derive(Clone, Copy)]
enum LinkField {
    Sends,
    Holds,
    Overruns,
    Flag(LinkFlag),
    Input,
    Output,
}

const FIELDS: [(&str, SettingField); 22] = [
    ("Iptr", SettingField::Register(Register::Instruction)),
    ("W", SettingField::Register(Register::Workspace)),
    ("A", SettingField::Register(Register::A)),
    ("B", SettingField::Register(Register::B)),
    ("C", SettingField::Register(Register::C)),
    ("O", SettingField::Register(Register::Operand)),
    ("Front", SettingField::Register(Register::Front)),
    ("Back", SettingField::Register(Register::Back)),
    ("Error", SettingField::Flag(Flag::Error)),
    ("HaltOnError", SettingField::Flag(Flag::HaltOnError)),
    ("running", SettingField::Flag(Flag::Running)),
    ("bytes", SettingField::Bytes),
    ("word", SettingField::Word),
    ("sends", SettingField::AtLink(LinkField::Sends)),
    ("holds", SettingField::AtLink(LinkField::Holds)),
    ("overruns", SettingField::AtLink(LinkField::Overruns)),
    (
        "acknowledges",
        SettingField::AtLink(LinkField::Flag(LinkFlag::Acknowledges)),
    ),
    (
        "awaits",
        SettingField::AtLink(LinkField::Flag(LinkFlag::Awaits)),
    ),
    (
        "acknowledged",
        SettingField::AtLink(LinkField::Flag(LinkFlag::Acknowledged)),
    ),
    (
        "watched",
        SettingField::AtLink(LinkField::Flag(LinkFlag::Watched)),
    ),
    ("input", SettingField::AtLink(LinkField::Input)),
    ("output", SettingField::AtLink(LinkField::Output)),
];

// How many of these states aren't those of a link.
const OF_THE_NODE: usize = 15;

// The states of a node, as messages list them: its own, and then those of a link.
const STATES: [&str; 24] = [
    "Iptr",
    "W",
    "A",
    "B",
    "C",
    "O",
    "Front",
    "Back",
    "Error",
    "HaltOnError",
    "running",
    "bytes",
    "word",
    "code",
    "link",
    "sends",
    "holds",
    "overruns",
    "acknowledges",
    "awaits",
    "acknowledged",
    "watched",
    "input",
    "output",
];

// What may come where a setting is read.
fn wanted_setting(has_link: bool, is_code: bool) -> Wanted {
    let names: &'static [&'static str] = if has_link {
        &STATES
    } else {
        &STATES[..OF_THE_NODE]
    };
    if is_code {
        Wanted::Word("an instruction or a state", WordForm::InstructionOr(names))
    } else {
        Wanted::Word("a state", WordForm::OneOf(names))
    }
}

// One setting. A field of a link is wrong before a link is named.
fn read_setting(link: Option<LinkNumber>, is_code: bool, words: &mut Words) -> Setting {
    let wanted = wanted_setting(link.is_some(), is_code);
    let place = words.place();
    match value_named(&FIELDS, words.take(wanted)) {
        Some(SettingField::Register(register)) => {
            Setting::Register(register, words.hexadecimal("a word"))
        }
        Some(SettingField::Flag(flag)) => Setting::Flag(flag, words.flag("a flag")),
        Some(SettingField::Bytes) => Setting::Bytes(read_count(words)),
        Some(SettingField::Word) => Setting::Word(
            words.hexadecimal("an address"),
            words.hexadecimal("a word"),
        ),
        Some(SettingField::AtLink(field)) => {
            if link.is_none() {
                words.reject(place, wanted);
            }
            let number = link.unwrap_or(LinkNumber::Zero);
            Setting::AtLink(number, read_link_setting(field, words))
        }
        None => {
            words.reject(place, wanted);
            Setting::Bytes(0)
        }
    }
}

fn read_link_setting(field: LinkField, words: &mut Words) -> LinkSetting {
    match field {
        LinkField::Sends => LinkSetting::Sends(read_byte_or_none(words)),
        LinkField::Holds => LinkSetting::Holds(read_byte_or_none(words)),
        LinkField::Overruns => LinkSetting::Overruns(read_count(words)),
        LinkField::Flag(flag) => LinkSetting::Flag(flag, words.flag("a flag")),
        LinkField::Input => LinkSetting::Input(read_address(words), read_count(words)),
        LinkField::Output => LinkSetting::Output(read_address(words), read_count(words)),
    }
}

fn read_address(words: &mut Words) -> u32 {
    words.hexadecimal("an address")
}

// A decimal count below 2^32.
fn read_count(words: &mut Words) -> u32 {
    words.decimal("a count", u64::from(u32::MAX)) as u32
}

// A byte, or `-` for none.
fn read_byte_or_none(words: &mut Words) -> Option<u8> {
    if words.take_if("-") {
        None
    } else {
        Some(words.byte(WordForm::TwoDigitsOrNone))
    }
}
