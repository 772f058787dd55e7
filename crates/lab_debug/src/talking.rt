//! Commands are read and answered.

use crate::command::{DebugCommand, read_command};
use crate::fault::DebugFault;
use crate::moving::Debugger;
use node_trace::Program;
use script_text::{InputLine, TextWriter, next_line, write_whole};
use std::alloc::{AllocError, Global};
use std::io::{BufRead, Write};

/// The most bytes of a command, with its line feed.
const MOST_COMMAND_BYTES: u32 = 4_096;

/// The program of a node, by the file that has its text.
#[derive(Clone, Copy)]
pub struct ProgramOf<'a> {
    pub node: u8,
    pub file: &'a str,
}

/// What is in a file.
#[derive(Drop)]
pub enum FoundProgram {
    Program(Program),
    /// A text that is no program: what is wrong, each mistake a line.
    Wrong(String),
    /// It can't be read.
    Unreadable,
}

/// Where programs are found.
pub trait ProgramFiles {
    /// The program in a file.
    fn program_of(&self, file: &str) -> Result<FoundProgram, AllocError>;
}

// Takes the program of a node from a file.
fn take_program<T: ProgramFiles>(
    debugger: &mut Debugger,
    files: &T,
    of: ProgramOf,
    text: &mut TextWriter,
) -> Result<(), DebugFault> {
    let found = files.program_of(of.file)?;
    if let FoundProgram::Unreadable = found {
        text.push("`");
        text.push(of.file);
        text.push("` can't be read\n");
        return Ok(());
    }
    debugger.take_program(of.node, found, text)
}

// Does what a line says, and tells whether more commands are read.
fn answer_line<T: ProgramFiles>(
    debugger: &mut Debugger,
    files: &T,
    line: &str,
    text: &mut TextWriter,
) -> Result<bool, DebugFault> {
    match read_command(line) {
        Ok(DebugCommand::Quit) => return Ok(false),
        Ok(DebugCommand::Program { node, file }) => {
            take_program(debugger, files, ProgramOf { node, file }, text)?;
        }
        Ok(command) => debugger.obey(command, text)?,
        Err(fault) => fault.write(text),
    }
    Ok(true)
}

// Does what was read says, writes the answer, and tells whether more commands are read.
fn answer<T: ProgramFiles, W: Write>(
    alloc: Global,
    debugger: &mut Debugger,
    files: &T,
    read: &InputLine,
    output: &mut W,
) -> Result<bool, DebugFault> {
    let mut text = TextWriter::new(alloc);
    let goes_on = match read {
        InputLine::End => false,
        InputLine::NoMemory(_) => return Err(DebugFault::Memory(AllocError)),
        InputLine::Long(_) => {
            text.push("a command has at most 4096 bytes\n");
            true
        }
        InputLine::Whole(bytes) => match std::str::from_utf8(bytes.as_slice()) {
            Ok(line) => answer_line(debugger, files, line, &mut text)?,
            Err(_) => {
                text.push("a command is a text in UTF-8\n");
                true
            }
        },
    };
    write_text(text, output)?;
    Ok(goes_on)
}

// Writes a text, so that it is seen immediately.
fn write_text<W: Write>(text: TextWriter, output: &mut W) -> Result<(), DebugFault> {
    let text = text.finish()?;
    write_whole(output, text.as_bytes())?;
    Ok(output.flush()?)
}

// Writes the prompt before a command: how many events were done.
fn prompt<W: Write>(alloc: Global, debugger: &Debugger, output: &mut W) -> Result<(), DebugFault> {
    let mut text = TextWriter::new(alloc);
    text.push_decimal(debugger.recorded_events());
    text.push("> ");
    write_text(text, output)
}

// Takes programs, and says where the debugger is.
fn greet<T: ProgramFiles, W: Write>(
    alloc: Global,
    debugger: &mut Debugger,
    programs: &[ProgramOf],
    files: &T,
    output: &mut W,
) -> Result<(), DebugFault> {
    let mut text = TextWriter::new(alloc);
    for of in programs {
        take_program(debugger, files, *of, &mut text)?;
    }
    debugger.greet(&mut text);
    write_text(text, output)
}

// Reads a command and answers it, and returns whether more commands are read. On a terminal a prompt comes before it.
fn answer_next<R: BufRead, W: Write, T: ProgramFiles>(
    alloc: Global,
    debugger: &mut Debugger,
    files: &T,
    input: &mut R,
    output: &mut W,
    is_terminal: bool,
) -> Result<bool, DebugFault> {
    if is_terminal {
        prompt(alloc, debugger, output)?;
    }
    let read = next_line(alloc, input, MOST_COMMAND_BYTES)?;
    answer(alloc, debugger, files, &read, output)
}

/// Reads commands to the end of the input or to `quit`, and shows what they ask of a record that was opened. On a terminal a
/// prompt comes before each command.
///
/// # Errors
///
/// `Record` if the record isn't what its domain answers; `Io` if commands can't be read or answers can't be written; `Memory`. A
/// wrong command is answered, and ends nothing.
pub fn debug<R: BufRead, W: Write, T: ProgramFiles>(
    alloc: Global,
    debugger: &mut Debugger,
    programs: &[ProgramOf],
    files: &T,
    input: &mut R,
    output: &mut W,
    is_terminal: bool,
) -> Result<(), DebugFault> {
    greet(alloc, debugger, programs, files, output)?;
    for _ in 0..u64::MAX {
        if !answer_next(alloc, debugger, files, input, output, is_terminal)? {
            break;
        }
    }
    Ok(())
}
