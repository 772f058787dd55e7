//! A text for `farm` with shorthand lines, as one without them.

use crate::form::{Shorthand, shorthand_line};
use crate::spelling::spell_out;
use lab_words::{NumberedLineFault, line_as_str};
use script_lines::Command;
use script_text::{NumberedLine, TextWriter, divide_at_plan_end, is_passed_over, numbered_lines};
use std::alloc::{AllocError, Global};

/// A file that a line loads.
#[derive(Drop)]
pub struct LoadedFile<'a> {
    /// Its name, as it is in the line.
    pub name: &'a str,
    /// Its text, if it can be read.
    pub text: Option<Vec<u8>>,
}

/// What a text is spelled out as.
#[derive(Drop)]
pub struct Expanded {
    /// The plan, `---` and plain lines.
    pub text: String,
    /// A line for each shorthand line that is wrong; empty if there is none.
    pub wrong: String,
}

/// The same, while it is written.
#[derive(Drop)]
pub struct Expansion {
    pub text: TextWriter,
    pub wrong: TextWriter,
}

impl Expansion {
    /// Appends the plain line by which a user asks this.
    pub fn push_command(&mut self, user: &str, command: &Command) {
        self.text.push(user);
        self.text.push(" ");
        self.text.push(command.verb().name());
        if let Some(target) = command.target() {
            self.text.push(" ");
            self.text.push_decimal(u64::from(target));
        }
        match command {
            Command::Config(bytes) | Command::Write { bytes, .. } => {
                self.push_bytes(bytes.as_slice());
            }
            Command::Boot { code, .. } => self.push_bytes(code.as_slice()),
            Command::Poke { address, word, .. } => {
                self.push_word(*address);
                self.push_word(*word);
            }
            Command::Peek { address, .. } => self.push_word(*address),
            Command::Collect { .. } | Command::Reset { .. } | Command::Look { .. } => {}
        }
        self.text.push("\n");
    }

    fn push_bytes(&mut self, bytes: &[u8]) {
        self.text.push(" ");
        self.text.push_hex_bytes(bytes);
    }

    fn push_word(&mut self, word: u32) {
        self.text.push(" ");
        self.text.push_word(word);
    }
}

/// The names of the files that the lines of a text load, in their order.
pub fn files_named(alloc: Global, text: &[u8]) -> Result<Vec<&str>, NumberedLineFault> {
    let mut names = Vec::new(alloc);
    for line in &numbered_lines(alloc, divide_at_plan_end(text).rest)? {
        if let Some(name) = file_named(*line) {
            names.push(name)?;
        }
    }
    Ok(names)
}

fn file_named(line: NumberedLine<'_>) -> Option<&str> {
    match std::str::from_utf8(line.text) {
        Ok(text) if !is_passed_over(line.text) => file_loaded(text),
        _ => None,
    }
}

/// The name of the file that a line loads, if it loads one.
pub fn file_loaded(line: &str) -> Option<&str> {
    match shorthand_line(0, line) {
        Some(line) if matches!(line.shorthand, Shorthand::Load) => Some(line.halves().1),
        _ => None,
    }
}

/// The plain lines into which a shorthand line is spelled out, or why there are none; `None` if it is none.
/// `number` is that of the line in messages.
pub fn expanded_line(
    alloc: Global,
    number: u64,
    line: &str,
    files: &[LoadedFile<'_>],
) -> Result<Option<Expanded>, AllocError> {
    let Some(shorthand) = shorthand_line(number, line) else {
        return Ok(None);
    };
    let mut expansion = Expansion {
        text: TextWriter::new(alloc),
        wrong: TextWriter::new(alloc),
    };
    spell_out(alloc, &mut expansion, shorthand, files);
    let Expansion { text, wrong } = expansion;
    Ok(Some(expanded_of(text, wrong)?))
}

/// Spells out the shorthand lines of a script: the plan and the line `---` before it stay as they are, and so do all other
/// lines of the script. Before the lines into which a line is spelled out comes the line itself as a remark.
///
/// `Wrong` if a line isn't UTF-8.
pub fn expand(
    alloc: Global,
    text: &[u8],
    files: &[LoadedFile<'_>],
) -> Result<Expanded, NumberedLineFault> {
    let script = divide_at_plan_end(text).rest;
    let mut expansion = Expansion {
        text: TextWriter::new(alloc),
        wrong: TextWriter::new(alloc),
    };
    copy_lines(
        alloc,
        &mut expansion,
        &text[..text.len().saturating_sub(script.len())],
    )?;
    expand_lines(alloc, &mut expansion, script, files)?;
    let Expansion { text, wrong } = expansion;
    Ok(expanded_of(text, wrong)?)
}

fn expanded_of(text: TextWriter, wrong: TextWriter) -> Result<Expanded, AllocError> {
    let text = text.finish()?;
    let wrong = wrong.finish()?;
    Ok(Expanded { text, wrong })
}

fn copy_lines(
    alloc: Global,
    expansion: &mut Expansion,
    plan: &[u8],
) -> Result<(), NumberedLineFault> {
    for line in &numbered_lines(alloc, plan)? {
        expansion.text.push(line_as_str(*line)?);
        expansion.text.push("\n");
    }
    Ok(())
}

fn expand_lines(
    alloc: Global,
    expansion: &mut Expansion,
    script: &[u8],
    files: &[LoadedFile<'_>],
) -> Result<(), NumberedLineFault> {
    for line in &numbered_lines(alloc, script)? {
        expand_line(alloc, expansion, line.number, line_as_str(*line)?, files);
    }
    Ok(())
}

fn expand_line(
    alloc: Global,
    expansion: &mut Expansion,
    number: u64,
    line: &str,
    files: &[LoadedFile<'_>],
) {
    let shorthand = if is_passed_over(line.as_bytes()) {
        None
    } else {
        shorthand_line(number, line)
    };
    if shorthand.is_some() {
        expansion.text.push("# ");
    }
    expansion.text.push(line);
    expansion.text.push("\n");
    if let Some(shorthand) = shorthand {
        spell_out(alloc, expansion, shorthand, files);
    }
}
