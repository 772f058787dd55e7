//! Texts as code, and code as text.

use crate::failure::{wrong_length, wrong_lines, wrong_program};
use lab_command::{AssemblyOptions, LabFailure, WRONG_TEXT};
use node_trace::BootFault;
use script_text::TextWriter;
use std::alloc::Global;
use t414_assembly::{
    Assembly, BOOTED, LOADED, MOST_CODE, TextFault, assemble_or_list, bytes_of_digits,
    code_as_text, listing, loader, pokes,
};

/// The code of a text: a line of digits, a listing or the lines of a script.
///
/// A failure too if a boot can't take the code, and neither a listing nor a script is asked for.
pub fn print_assembled(
    alloc: Global,
    options: AssemblyOptions,
    text: &[u8],
) -> Result<String, LabFailure> {
    let origin = if options.pokes.is_some() {
        LOADED
    } else {
        BOOTED
    };
    match assemble_or_list(alloc, origin, text) {
        Ok(made) if options.listing => print_listing(alloc, origin, &made, text),
        Ok(made) => print_code(alloc, options, made.image.bytes.as_slice()),
        Err(fault) => Err(wrong_lines(alloc, &fault)),
    }
}

// Code beside its text.
fn print_listing(
    alloc: Global,
    origin: u32,
    made: &Assembly,
    text: &[u8],
) -> Result<String, LabFailure> {
    Ok(listing(alloc, origin, made, text)?)
}

/// Code as a line of digits, or as lines of a script. The failure says that it can't be loaded so.
pub fn print_code(
    alloc: Global,
    options: AssemblyOptions,
    code: &[u8],
) -> Result<String, LabFailure> {
    match options.pokes {
        Some((host, user)) => print_pokes(alloc, host, user, code),
        None => print_boot(alloc, code),
    }
}

// The lines of a script that load code.
fn print_pokes(alloc: Global, host: &str, user: &str, code: &[u8]) -> Result<String, LabFailure> {
    let count = code.len();
    if count == 0 || count > (MOST_CODE - (LOADED - BOOTED)) as usize {
        return Err(LabFailure::of_text(
            format!(in alloc; "the code has {count} bytes, and 1 to 65456 can be poked\n"),
            WRONG_TEXT,
        ));
    }
    match loader(alloc, count as u32) {
        Ok(boot) => Ok(pokes(alloc, host, user, boot.as_slice(), code)?),
        Err(_) => Err(LabFailure::Memory),
    }
}

// The line of digits by which a boot takes code.
fn print_boot(alloc: Global, code: &[u8]) -> Result<String, LabFailure> {
    if BootFault::of_length(code.len()).is_some() {
        return Err(wrong_length(alloc, code.len()));
    }
    let mut line = TextWriter::new(alloc);
    line.push_hex_bytes(code);
    line.push("\n");
    Ok(line.finish()?)
}

/// The instructions that hexadecimal digits spell, one a line. The failure says why they spell none.
pub fn print_disassembled(alloc: Global, text: &[u8]) -> Result<String, LabFailure> {
    match disassembly_of(alloc, text) {
        Ok(text) => Ok(text),
        Err(fault) => Err(wrong_program(alloc, &fault)),
    }
}

/// The instructions that hexadecimal digits spell, one a line, or why they spell none.
pub fn disassembly_of(alloc: Global, text: &[u8]) -> Result<String, TextFault> {
    let bytes = bytes_of_digits(alloc, text)?;
    code_as_text(alloc, bytes.as_slice())
}
