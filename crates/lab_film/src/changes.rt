//! What changes from one frame to the next, as it is written in JSON.

use crate::NoMemory;
use crate::code::KnownCode;
use crate::frame::{Frame, registers_in};
use crate::leaves::{Leaf, leaves_of};
use record_following::ReplayedDomain;
use script_text::TextWriter;
use serde_json::{Map, Value, json, put};
use std::alloc::Global;

/// The names of a host's queues.
const QUEUES: [&str; 2] = ["sending", "received"];

/// What changed, each by its name.
pub type FrameChanges = Map<String, Value>;

/// A frame, with what it tells of the switch and the nodes.
pub struct ShownFrame {
    frame: Frame,
    leaves: Vec<Leaf>,
}

// Dropped by hand, since a derived `Drop` makes callers prove the drop of each field.
impl Drop for ShownFrame {
    fn drop(self) {
        let ShownFrame {
            frame: _,
            leaves: _,
        } = self;
    }
}

impl ShownFrame {
    pub fn of(alloc: Global, frame: Frame) -> Result<ShownFrame, NoMemory> {
        let leaves = leaves_of(alloc, &frame)?;
        Ok(ShownFrame { frame, leaves })
    }

    // The queues of the host of a number, or empty ones.
    fn queues(&self, number: usize) -> [&[u8]; 2] {
        match self.frame.hosts.get(number) {
            Some(Some(host)) => [host.sending.as_slice(), host.received.as_slice()],
            _ => [&[], &[]],
        }
    }
}

// How a queue changed: the digits of the bytes that came, after the least number of bytes that can have left.
fn queue_change(alloc: Global, old: &[u8], new: &[u8]) -> Result<Value, NoMemory> {
    let (mut left, mut came) = (old.len(), new);
    for front in 0..old.len() {
        if let Some(rest) = new.strip_prefix(&old[front..]) {
            (left, came) = (front, rest);
            break;
        }
    }
    let mut text = TextWriter::new(alloc);
    text.push_hex_bytes(came);
    let digits = text.finish()?;
    json!(in alloc; [left as u64, digits])
}

// Adds what changed of the hosts' queues.
fn add_queues(
    alloc: Global,
    old: Option<&ShownFrame>,
    new: &ShownFrame,
    changes: &mut FrameChanges,
) -> Result<(), NoMemory> {
    for host in 0..new.frame.hosts.len() {
        let after = new.queues(host);
        let before: [&[u8]; 2] = match old {
            Some(old) => old.queues(host),
            None => [&[], &[]],
        };
        for place in 0..2usize {
            if before[place] != after[place] {
                let name = format!(in alloc; "host {host} {}", QUEUES[place])?;
                let change = queue_change(alloc, before[place], after[place])?;
                put(changes, alloc, name.as_str(), change)?;
            }
        }
    }
    Ok(())
}

// Adds the bytes around the instruction pointer of each node that runs, where they aren't known.
fn add_code(
    alloc: Global,
    known: &mut KnownCode,
    replayed: &ReplayedDomain,
    frame: &Frame,
    changes: &mut FrameChanges,
) -> Result<(), NoMemory> {
    for (number, node) in (0u8..8).zip(frame.nodes.iter()) {
        if let Some(node) = node
            && let Some(cpu) = registers_in(node.state)
            && let Some(node) = replayed.node(number)
        {
            known.tell(alloc, number, node.memory(), cpu.instruction, changes)?;
        }
    }
    Ok(())
}

/// What changed from a frame to that of a moment, which is all that it tells if there was none before. What isn't named is as it
/// was.
pub fn changes_of(
    alloc: Global,
    known: &mut KnownCode,
    replayed: &ReplayedDomain,
    old: Option<&ShownFrame>,
    new: &ShownFrame,
) -> Result<FrameChanges, NoMemory> {
    let mut changes = Map::new(alloc);
    let recorded = Value::from(new.frame.recorded);
    put(&mut changes, alloc, "recorded", recorded)?;
    for (place, leaf) in new.leaves.iter().enumerate() {
        let before = match old {
            Some(old) => old.leaves.get(place),
            None => None,
        };
        if !leaf.is_told_by(before) {
            let name = leaf.name(alloc)?;
            put(&mut changes, alloc, name.as_str(), leaf.value(alloc)?)?;
        }
    }
    add_queues(alloc, old, new, &mut changes)?;
    add_code(alloc, known, replayed, &new.frame, &mut changes)?;
    Ok(changes)
}
