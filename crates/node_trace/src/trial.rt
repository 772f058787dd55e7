//! Instructions on a node of their own, as a row of the handbook has them.

use crate::changes::write_changes;
use crate::performing::{open_running, or_dash, push_stepped};
use crate::settings::{Flag, NodeSettings, Setting};
use crate::snapshot::Snapshot;
use bootstrap::{Node, Stepped};
use script_text::TextWriter;
use std::alloc::{AllocError, Global};

/// Does the instructions of a line on a fresh node, and writes what they changed. They are done once more with HaltOnError
/// set: if that halts by fault 3 a line `halts` follows, and if it differs otherwise a line says how.
pub fn write_trial(
    alloc: Global,
    settings: &NodeSettings,
    text: &mut TextWriter,
) -> Result<(), AllocError> {
    let first = outcome(alloc, settings, false)?;
    text.push(first.as_str());
    if sets_halt_on_error(settings) {
        return Ok(());
    }
    let second = outcome(alloc, settings, true)?;
    write_second(text, first.as_str(), second.as_str());
    Ok(())
}

// Whether a line sets HaltOnError itself.
fn sets_halt_on_error(settings: &NodeSettings) -> bool {
    for setting in &settings.settings {
        if let Setting::Flag(Flag::HaltOnError, true) = setting {
            return true;
        }
    }
    false
}

// Writes what came with HaltOnError set, if it isn't what came first.
fn write_second(text: &mut TextWriter, first: &str, second: &str) {
    if second == "fault 3" {
        text.push("\nhalts");
    } else if second != first {
        text.push("\nwith HaltOnError ");
        text.push(second);
    }
}

// What the instructions come to, with HaltOnError set first if that is asked for.
fn outcome(alloc: Global, settings: &NodeSettings, halts: bool) -> Result<String, AllocError> {
    let mut text = TextWriter::new(alloc);
    write_outcome(&mut text, open_running(alloc, 4096)?, settings, halts)?;
    or_dash(alloc, text.finish()?.as_str())
}

fn write_outcome(
    text: &mut TextWriter,
    node: Node,
    settings: &NodeSettings,
    halts: bool,
) -> Result<(), AllocError> {
    let (node, stored) = settings.put(node);
    if let Some(Err(fault)) = stored {
        push_stepped(text, Stepped::Fault(fault));
        return Ok(());
    }
    let mut node = if halts { halting(node) } else { node };
    write_code_done(text, &mut node, settings.code.as_slice())
}

// Does a Step for each byte of code, to one that doesn't run, and writes what they changed.
fn write_code_done(text: &mut TextWriter, node: &mut Node, code: &[u8]) -> Result<(), AllocError> {
    let before = Snapshot::of(node)?;
    let mut bytes = 0u32;
    for _ in code {
        let stepped = node.step();
        if stepped != Stepped::Ran {
            push_stepped(text, stepped);
            break;
        }
        bytes = bytes.saturating_add(1);
    }
    write_changes(text, &before, node, bytes);
    Ok(())
}

// The node with HaltOnError set.
fn halting(node: Node) -> Node {
    match node.registers() {
        Some(mut registers) => {
            registers.halt_on_error = true;
            let (memory, links) = node.into_parts();
            Node::running(memory, links, registers)
        }
        None => node,
    }
}
