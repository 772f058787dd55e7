//! What is said of a domain's nodes: a paragraph of each.
ghost use Rattle.std.specs.Prelude.{◌≡◌, ◌++◌, IfOk, None, OnOk, slice_get, string_bytes};
ghost use Rattle.std.specs.List.{flat_map};
ghost use Rattle.std.specs.Str.Lines.{lines};
ghost use Rattle.node_causes.specs.Explained.{alone_text, found_line, paragraph_text, IsAloneText, IsExplained, IsOfNode};

use crate::doing::doing_of;
use crate::finding::{cause_in, inside_waits};
use crate::telling::CauseWriter;
use domain_core::NoMemory;
use record_following::{EventNotes, ReplayedDomain};
use std::alloc::Global;

/// How many packets among nodes are said to be many.
const MANY_PACKETS: u64 = 256;

/// The most nodes that a domain has.
const MOST_NODES: u8 = 8;

/// What is explained.
#[derive(Clone, Copy)]
pub struct Chosen {
    /// One node, or all of the domain.
    pub node: Option<u8>,
    /// How many processes that wait at channels in a node's memory are listed at most.
    pub most_inside: usize,
}

// Appends lines, each after two blanks.
fn push_found(text: &mut String, found: &str) -> Result<(), NoMemory>
    ensures { OnOk result (string_bytes text.new ≡ string_bytes text.old ++ flat_map found_line (lines found.now)) }
{
    for line in found.lines() {
        write!(text, "  {line}\n")?;
    }
    Ok(())
}

// A paragraph: the number of a node and what it is doing, and then what was found.
fn paragraph(alloc: Global, number: u8, doing: &str, found: &str) -> Result<String, NoMemory>
    ensures { IfOk result (λ text. string_bytes text ≡ paragraph_text number doing.now found.now) }
{
    let mut text = format!(in alloc; "node {number}{doing}\n")?;
    push_found(&mut text, found)?;
    Ok(text)
}

// The paragraph of a node, or nothing if it isn't there.
fn paragraph_of(
    alloc: Global,
    writer: &mut CauseWriter<'_>,
    replayed: &ReplayedDomain,
    number: u8,
) -> Result<String, NoMemory>
    ensures { IfOk result (λ text. IsOfNode number (slice_get replayed.now.machine.devices.nodes number) (string_bytes text)) }
{
    let Some(node) = replayed.node(number) else {
        return Ok(String::new(alloc));
    };
    let cause = cause_in(node);
    let inside = inside_waits(alloc, node.memory())?;
    let notes = replayed.notes().node(number);
    let doing = doing_of(alloc, node, &cause, inside.as_slice(), &notes)?;
    let found = writer.found_lines(number, &cause, inside.as_slice())?;
    paragraph(alloc, number, doing.as_str(), found.as_str())
}

// That the nodes have been alone with one another since an event, and passed that many packets.
fn alone_since(alloc: Global, since: u64, passed: u64) -> Result<String, NoMemory>
    ensures { IfOk result (λ text. string_bytes text ≡ alone_text since passed) }
{
    let mut text = format!(in alloc; "Since event {since}")?;
    text.push_str(" the nodes have passed ")?;
    write!(text, "{passed}")?;
    text.push_str(
        " packets to one another, and no byte came from a host or went to one: it may go on for ever.\n",
    )?;
    Ok(text)
}

// The same if they have passed many, else nothing.
fn alone_words(alloc: Global, notes: &EventNotes) -> Result<String, NoMemory>
    ensures { IfOk result (λ text. IsAloneText (string_bytes text)) }
{
    if notes.exchanges < MANY_PACKETS {
        return Ok(String::new(alloc));
    }
    alone_since(alloc, notes.alone_since, notes.exchanges)
}

// The paragraphs of all nodes, and whether these have long been alone with one another.
fn all_paragraphs(
    alloc: Global,
    writer: &mut CauseWriter<'_>,
    replayed: &ReplayedDomain,
) -> Result<String, NoMemory>
    ensures { IfOk result (λ text. IsExplained replayed.now None (string_bytes text)) }
{
    let mut text = String::new(alloc);
    for number in 0..MOST_NODES {
        let paragraph = paragraph_of(alloc, writer, replayed, number)?;
        text.push_str(paragraph.as_str())?;
    }
    let alone = alone_words(alloc, replayed.notes())?;
    text.push_str(alone.as_str())?;
    Ok(text)
}

/// Says why the chosen nodes do no more than they do, at the moment to which a domain was led.
pub(crate) fn explain(
    alloc: Global,
    replayed: &ReplayedDomain,
    chosen: Chosen,
) -> Result<String, NoMemory>
    ensures { IfOk result (λ text. IsExplained replayed.now chosen.node (string_bytes text)) }
{
    let mut writer = CauseWriter::of(alloc, replayed, chosen.most_inside)?;
    match chosen.node {
        Some(number) => paragraph_of(alloc, &mut writer, replayed, number),
        None => all_paragraphs(alloc, &mut writer, replayed),
    }
}
