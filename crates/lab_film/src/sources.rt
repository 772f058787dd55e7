//! The programs of nodes, as they are written in JSON beside the film.

use crate::NoMemory;
use crate::json::json_text;
use script_text::TextWriter;
use serde::Serialize;
use std::alloc::Global;

/// A line of a node's program, whose bytes lie from an address on.
#[derive(Clone, Copy)]
pub struct SourceLine<'a> {
    /// The number of the node.
    pub node: u8,
    /// The address of its first byte.
    pub address: u32,
    /// How many bytes it has.
    pub length: u32,
    /// The line as it was written.
    pub text: &'a str,
    /// The nearest label, on the line or above it, and its address.
    pub label: Option<(&'a str, u32)>,
    /// The number of the line, if it is one of an occam text.
    pub occam_line: Option<u32>,
    /// The line of the instance, if the line is in the body of a PROC that was put in place.
    pub instance: Option<u32>,
}

/// The same, as it is written.
#[derive(Drop, Serialize)]
struct SourceTold {
    node: u8,
    address: u32,
    length: u32,
    text: String,
    #[serde(skip_serializing_if = "Option::is_none")]
    label: Option<String>,
    /// How many bytes after its label the line begins, and 0 if it has none.
    behind: u32,
    #[serde(skip_serializing_if = "Option::is_none")]
    occam_line: Option<u32>,
    #[serde(skip_serializing_if = "Option::is_none")]
    instance: Option<u32>,
}

fn source_told(alloc: Global, line: SourceLine) -> Result<SourceTold, NoMemory> {
    let (label, behind) = match line.label {
        Some((name, address)) => (
            Some(String::from_str(alloc, name)?),
            line.address.wrapping_sub(address),
        ),
        None => (None, 0),
    };
    Ok(SourceTold {
        node: line.node,
        address: line.address,
        length: line.length,
        text: String::from_str(alloc, line.text)?,
        label,
        behind,
        occam_line: line.occam_line,
        instance: line.instance,
    })
}

/// Writes lines of programs in JSON, those that have bytes.
pub fn write_sources(
    alloc: Global,
    lines: &[SourceLine],
    text: &mut TextWriter,
) -> Result<(), NoMemory> {
    let mut is_first = true;
    for line in lines {
        if line.length > 0 {
            text.push(if is_first { "\n" } else { ",\n" });
            is_first = false;
            let told = source_told(alloc, *line)?;
            text.push(json_text(serde_json::to_string(alloc, &told))?.as_str());
        }
    }
    Ok(())
}
