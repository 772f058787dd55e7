//! What a node does with the bytes that it boots from. Transputer Reference Manual, bootstrapping.

ghost use Rattle.std.specs.Prelude.{◌≡◌};
ghost use Rattle.node_memory.specs.Bytes.{with_word, with_byte};
ghost use Rattle.bootstrap.specs.Boot.{or_kept, freed, begun, shifted_down};

use crate::node::Node;
use crate::state::{NodeState, Task};
use link_channels::LinkNumber;
use node_memory::{MEMORY_START, Memory};
use process_queue::NOT_PROCESS;
use t414_step::{Cpu, Stepped};

/// MemStart, where code is loaded: the first word that isn't the processor's own. T414 data sheet, memory map.
pub const CODE_START: u32 = 0x8000_0048;

// How many words at the start of memory are channels: those of four links in two directions, and the event channel.
const CHANNELS: u32 = 9;

// Stores a word, unless it lies outside memory.
fn store_inside(memory: &mut Memory, address: u32, word: u32)
    ensures memory { memory.new ≡ or_kept (with_word memory.old address word) memory.old }
{
    match memory.set_word(address, word) {
        Ok(()) => {}
        Err(_) => {}
    }
}

// Stores a byte, unless it lies outside memory.
fn store_byte_inside(memory: &mut Memory, address: u32, byte: u8)
    ensures memory { memory.new ≡ or_kept (with_byte memory.old address byte) memory.old }
{
    match memory.set_byte(address, byte) {
        Ok(()) => {}
        Err(_) => {}
    }
}

// Makes the nine channel words hold no process.
fn free_channels(memory: &mut Memory)
    ensures memory { memory.new ≡ freed 9 memory.old }
{
    for word in 0..CHANNELS {
        store_inside(memory, MEMORY_START + 4 * word, NOT_PROCESS);
    }
}

// The registers of a node that begins to run code which ends before an address.
fn cpu_at_start(link: LinkNumber, end: u32) -> Cpu
    ensures answer { result ≡ begun link end }
{
    let above = end.wrapping_add(3);
    Cpu {
        c: link.input_channel(),
        ..Cpu::new(CODE_START, above - above % 4)
    }
}

// A word with a byte put in above the others, which move down.
fn shifted_down(byte: u8, word: u32) -> u32
    ensures answer { result ≡ shifted_down byte word }
{
    (word >> 8) + (u32::from(byte) << 24)
}

impl Task {
    ghost use Rattle.bootstrap.specs.Step.{task_of};

    // What a control byte asks for.
    pub(crate) fn of(control: u8) -> Task
        ensures answer { result ≡ task_of control }
    {
        match control {
            0 => Task::Poke {
                left: 8,
                address: 0,
                word: 0,
            },
            1 => Task::Peek {
                left: 4,
                address: 0,
            },
            length => Task::Load {
                left: length,
                address: CODE_START,
            },
        }
    }
}

impl Node {
    ghost use Rattle.bootstrap.specs.Step.{answering, poked, peeked, loaded, given, answer_continued, offered};

    // Posts the lowest byte of a word. `left` bytes of the word are still to be posted after it.
    fn post_next(&mut self, link: LinkNumber, left: u8, word: u32)
        ensures state { self.new ≡ answering link left word self.old }
    {
        self.links.post(link, (word % 0x100) as u8);
        self.state = NodeState::Answers {
            link,
            left,
            word: word >> 8,
        };
    }

    // A poke gets the first of the `left` bytes that are still to come.
    fn poke(&mut self, link: LinkNumber, left: u8, address: u32, word: u32, byte: u8)
        ensures state { self.new ≡ poked left address word byte link self.old }
    {
        if left > 4 {
            let task = Task::Poke {
                left: left - 1,
                address: shifted_down(byte, address),
                word,
            };
            self.state = NodeState::Takes { link, task };
        } else if left > 1 {
            let task = Task::Poke {
                left: left - 1,
                address,
                word: shifted_down(byte, word),
            };
            self.state = NodeState::Takes { link, task };
        } else {
            store_inside(&mut self.memory, address, shifted_down(byte, word));
            self.state = NodeState::WantsControl;
        }
    }

    // A peek gets the first of the `left` bytes of its address that are still to come.
    fn peek(&mut self, link: LinkNumber, left: u8, address: u32, byte: u8)
        ensures state { self.new ≡ peeked left address byte link self.old }
    {
        let address = shifted_down(byte, address);
        if left > 1 {
            let task = Task::Peek {
                left: left - 1,
                address,
            };
            self.state = NodeState::Takes { link, task };
        } else {
            let word = self.memory.word(address).unwrap_or(0);
            self.post_next(link, 3, word);
        }
    }

    // A load gets the first of the `left` bytes that are still to come.
    fn load(&mut self, link: LinkNumber, left: u8, address: u32, byte: u8)
        ensures state { self.new ≡ loaded left address byte link self.old }
    {
        store_byte_inside(&mut self.memory, address, byte);
        let address = address.wrapping_add(1);
        if left > 1 {
            let task = Task::Load {
                left: left - 1,
                address,
            };
            self.state = NodeState::Takes { link, task };
        } else {
            free_channels(&mut self.memory);
            self.state = NodeState::Runs(cpu_at_start(link, address));
        }
    }

    // Does with a byte what the task wants.
    pub(crate) fn give(&mut self, link: LinkNumber, task: Task, byte: u8)
        ensures state { self.new ≡ given task byte link self.old }
    {
        match task {
            Task::Poke {
                left,
                address,
                word,
            } => self.poke(link, left, address, word, byte),
            Task::Peek { left, address } => self.peek(link, left, address, byte),
            Task::Load { left, address } => self.load(link, left, address, byte),
        }
    }

    // Posts the next byte of an answer once the last one was acknowledged.
    pub(crate) fn answer(&mut self, link: LinkNumber, left: u8, word: u32) -> Stepped
        ensures answer { (self.new, result) ≡ answer_continued link left word self.old }
    {
        if !self.links.take_acknowledged(link) {
            return Stepped::Idle;
        }
        if left == 0 {
            self.state = NodeState::WantsControl;
        } else {
            self.post_next(link, left - 1, word);
        }
        Stepped::Ran
    }

    // The lowest link that has a byte.
    pub(crate) fn offering_link(&self) -> Option<LinkNumber>
        ensures answer { result ≡ offered self.now.links }
    {
        let links = self.links.four();
        if links.zero.end.input.buffer.is_some() {
            Some(LinkNumber::Zero)
        } else if links.one.end.input.buffer.is_some() {
            Some(LinkNumber::One)
        } else if links.two.end.input.buffer.is_some() {
            Some(LinkNumber::Two)
        } else if links.three.end.input.buffer.is_some() {
            Some(LinkNumber::Three)
        } else {
            None
        }
    }
}
