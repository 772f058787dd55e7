//! What a node is doing: the first line of what is said of it.
ghost use Rattle.std.specs.Prelude.{◌≡◌, ◌++◌, codes, IfOk, OnOk, string_bytes};
ghost use Rattle.std.specs.Fmt.{decimal};
ghost use Rattle.std.specs.List.{list_any};
ghost use Rattle.node_memory.specs.Faults.{fault_number};
ghost use Rattle.node_causes.specs.Causes.{IsCause, inside_waits};
ghost use Rattle.node_causes.specs.Explained.{answering_text, count_text, fault_event_text, halted_text, has_ended, in_one_line, IsDoing};
ghost use Rattle.node_causes.specs.Explained.{is_waited, link_text, resting_text, running_text, came_text, task_text, wanting_text};

use crate::cause::{Cause, InsideWait, LinkWaits};
use answer_text::write_byte;
use bootstrap::{CODE_START, Node, Task, link_number_of};
use domain_core::NoMemory;
use link_channels::LinkNumber;
use node_memory::Fault;
use record_following::NodeNotes;
use std::alloc::Global;

// Appends a number of bytes.
fn push_count(text: &mut String, count: u32) -> Result<(), NoMemory>
    ensures { OnOk result (string_bytes text.new ≡ string_bytes text.old ++ count_text count) }
{
    if count == 1 {
        write!(text, "{count} byte")
    } else {
        write!(text, "{count} bytes")
    }
}

// How much of what a node takes has come by a link.
fn came_words(
    alloc: Global,
    what: &str,
    link: LinkNumber,
    came: u32,
    whole: u32,
) -> Result<String, NoMemory>
    ensures { IfOk result (λ text. string_bytes text ≡ came_text what.now link came whole) }
{
    let number = link_number_of(link);
    let mut text = format!(in alloc; "{what}link {number}: {came} of ")?;
    push_count(&mut text, whole)?;
    text.push_str(" have come")?;
    Ok(text)
}

// It takes the bytes of a task.
fn task_words(alloc: Global, link: LinkNumber, task: Task) -> Result<String, NoMemory>
    ensures { IfOk result (λ text. string_bytes text ≡ task_text link task) }
{
    match task {
        Task::Poke { left, .. } => {
            let came = 8 - u32::from(left.min(8));
            let mut text = came_words(alloc, " takes a poke by ", link, came, 8)?;
            text.push_str(".")?;
            Ok(text)
        }
        Task::Peek { left, .. } => {
            let came = 4 - u32::from(left.min(4));
            let mut text = came_words(alloc, " takes a peek by ", link, came, 4)?;
            text.push_str(".")?;
            Ok(text)
        }
        Task::Load { left, address } => {
            let came = address.wrapping_sub(CODE_START);
            let whole = came.wrapping_add(u32::from(left));
            let mut text = came_words(alloc, " takes code by ", link, came, whole)?;
            text.push_str(", as the control byte ")?;
            write_byte(&mut text, (whole % 0x100) as u8)?;
            text.push_str(" asks.")?;
            Ok(text)
        }
    }
}

// It answers a peek.
fn answering_words(alloc: Global, link: LinkNumber, left: u8) -> Result<String, NoMemory>
    ensures { IfOk result (λ text. string_bytes text ≡ answering_text link left) }
{
    let number = link_number_of(link);
    let mut text = format!(in alloc; " answers a peek by link {number}: ")?;
    push_count(&mut text, u32::from(left))?;
    text.push_str(" more are to be sent when the last one is acknowledged.")?;
    Ok(text)
}

// It has something to do.
fn running_words(alloc: Global, steps: u64) -> Result<String, NoMemory>
    ensures { IfOk result (λ text. string_bytes text ≡ running_text steps) }
{
    format!(in alloc; " runs, {steps} Steps since a packet came or went.")
}

// It waits for a control byte.
fn wanting_words(alloc: Global, is_quiet: bool) -> Result<String, NoMemory>
    ensures { IfOk result (λ text. string_bytes text ≡ wanting_text is_quiet) }
{
    String::from_str(
        alloc,
        if is_quiet {
            " waits for a control byte."
        } else {
            " waits for a control byte, and its next Step takes one."
        },
    )
}

// Whether somebody waits at a link.
fn is_waited(waits: &LinkWaits) -> bool
    ensures { result ≡ is_waited waits.now }
{
    waits.input.is_some() || waits.output.is_some() || waits.watch.is_some()
}

/// Whether somebody waits at one of the links.
pub(crate) fn is_waited_for(waits: &[LinkWaits; 4]) -> bool
    ensures { result ≡ list_any is_waited waits.now }
{
    waits.iter().any(is_waited)
}

/// Whether no process of a node is left: nobody waits at a link or in memory.
pub(crate) fn has_ended(waits: &[LinkWaits; 4], inside: &[InsideWait]) -> bool
    ensures { result ≡ has_ended waits.now inside.now }
{
    !is_waited_for(waits) && inside.is_empty()
}

// No process of it can go on, or none is left.
fn resting_words(alloc: Global, has_ended: bool) -> Result<String, NoMemory>
    ensures { IfOk result (λ text. string_bytes text ≡ resting_text has_ended) }
{
    String::from_str(
        alloc,
        if has_ended {
            " has ended: no process is left."
        } else {
            " rests."
        },
    )
}

// Appends the event in which a node met its fault, if it is known.
fn push_event(text: &mut String, event: Option<u64>) -> Result<(), NoMemory>
    ensures { OnOk result (string_bytes text.new ≡ string_bytes text.old ++ fault_event_text event) }
{
    match event {
        Some(event) => write!(text, " in event {event}"),
        None => Ok(()),
    }
}

// Appends words without their line feeds.
fn push_in_one_line(text: &mut String, words: &str) -> Result<(), NoMemory>
    ensures { OnOk result (string_bytes text.new ≡ string_bytes text.old ++ in_one_line words.now) }
{
    for line in words.lines() {
        text.push_str(line)?;
    }
    Ok(())
}

// It met a fault, which has these words.
fn halted_words(
    alloc: Global,
    fault: Fault,
    event: Option<u64>,
    words: &str,
) -> Result<String, NoMemory>
    ensures { IfOk result (λ text. string_bytes text ≡ halted_text fault event words.now) }
{
    let number = fault.number();
    let mut text = format!(in alloc; " halted by fault {number}")?;
    push_event(&mut text, event)?;
    text.push_str(": ")?;
    push_in_one_line(&mut text, words)?;
    text.push_str(".")?;
    Ok(text)
}

/// What a node is doing, by its cause, by who waits in its memory, and by what was noted of it.
pub(crate) fn doing_of(
    alloc: Global,
    node: &Node,
    cause: &Cause,
    inside: &[InsideWait],
    notes: &NodeNotes,
) -> Result<String, NoMemory>
    requires inside { inside.now ≡ inside_waits node.now.memory }
    ensures { IfOk result (λ text. IsDoing node.now cause.now (string_bytes text)) }
{
    match cause {
        Cause::WantsControl => wanting_words(alloc, node.quiet()),
        Cause::Takes { link, task } => task_words(alloc, *link, *task),
        Cause::Answers { link, left } => answering_words(alloc, *link, *left),
        Cause::Runs => running_words(alloc, notes.steps),
        Cause::Rests(waits) => resting_words(alloc, has_ended(waits, inside)),
        Cause::Halted(fault) => {
            let words = format!(in alloc; "{fault}")?;
            let event = match notes.fault {
                Some(fault) => Some(fault.event),
                None => None,
            };
            halted_words(alloc, *fault, event, words.as_str())
        }
    }
}
