//! Texts in which blocks of lines are below headings.

use lab_words::{NumberedLineFault, line_as_str};
use script_text::{NumberedLine, TextWriter, numbered_lines};
use std::alloc::{AllocError, Global};

/// What the line of a heading begins with.
pub const HEADING: &str = "=== ";

/// The lines of a text.
///
/// `Wrong` if one isn't UTF-8.
pub fn read_lines(alloc: Global, text: &[u8]) -> Result<Vec<&str>, NumberedLineFault> {
    let numbered = numbered_lines(alloc, text)?;
    let mut lines = Vec::new(alloc);
    for line in &numbered {
        add_line(&mut lines, *line)?;
    }
    Ok(lines)
}

fn add_line<'a>(lines: &mut Vec<&'a str>, line: NumberedLine<'a>) -> Result<(), NumberedLineFault> {
    let text = line_as_str(line)?;
    lines.push(text)?;
    Ok(())
}

/// The number of the line of this index.
pub fn line_number_at(index: usize) -> u64 {
    (index as u64).saturating_add(1)
}

/// The lines below the heading of this index, up to the next heading.
pub fn lines_below<'a>(lines: &'a [&'a str], index: usize) -> &'a [&'a str] {
    let Some(below) = lines.get(index.saturating_add(1)..) else {
        return &[];
    };
    match below.iter().position(|line| line.starts_with(HEADING)) {
        Some(count) => &below[..count],
        None => below,
    }
}

/// Lines as a text.
pub fn lines_as_text(alloc: Global, lines: &[&str]) -> Result<String, AllocError> {
    let mut text = TextWriter::new(alloc);
    for line in lines {
        text.push(line);
        text.push("\n");
    }
    text.finish()
}
