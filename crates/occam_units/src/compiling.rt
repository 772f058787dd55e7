//! From a unit to a program, and from a program to its bytes.
ghost use Rattle.std.specs.Prelude.{◌≡◌, ◌≤◌, IfOk, length};
ghost use Rattle.occam_code.specs.Behaves.{ProcessBehaves};
ghost use Rattle.occam_code.specs.Code.{program_code, program_start, program_words as words_of_program};
ghost use Rattle.occam_core.specs.Processes.{IsSequential};
ghost use Rattle.t414_assembly.specs.Program.{IsImage};

use crate::fault::OccamFault;
use crate::unit::CoreUnit;
use node_memory::MEMORY_START;
use occam_code::{Emission, LineMark, emit_program, processes_below, workspace_words};
use std::alloc::{AllocError, Global};
use t414_assembly::{Image, LayoutFault, lay_out};

/// How many bytes of memory the largest node has.
///
/// Source: that a node has at most 64 KB is our choice.
pub const LARGEST_MEMORY: u32 = 65_536;

// How many words below its workspace the processor uses for a process.
const WORDS_BELOW: u32 = 3;

// How many words of its own a process of a PAR has.
const WORDS_EACH: u32 = 4;

/// A program as statements of the assembler.
#[derive(Drop)]
pub struct OccamProgram {
    /// The statements, and at which of them each line of the text begins.
    pub emission: Emission,
    /// How many words after its code it uses.
    pub words: u32,
}

/// How many bytes of memory a program takes.
#[derive(Clone, Copy)]
pub struct CodeSize {
    /// Before the code: the words of the processor, and what boots code that was poked.
    pub before: u32,
    pub code: u32,
    /// After the code.
    pub variables: u32,
}

impl CodeSize {
    /// All bytes from the first address on.
    pub fn whole(self) -> u32 {
        self.before
            .saturating_add(self.code)
            .saturating_add(self.variables)
    }
}

/// The program of a unit.
///
/// # Errors
///
/// If there is no memory for it.
pub fn program_of(alloc: Global, unit: &CoreUnit) -> Result<OccamProgram, AllocError>
    ensures code { IfOk result (λ program. program.emission.statements.items
        ≡ program_code unit.now.words unit.now.tables.items unit.now.process.value) }
    ensures behaves { IsSequential unit.now.process.value → IfOk result (λ program. ProcessBehaves unit.now.process.value
        (length (program_start unit.now.words (length unit.now.tables.items) unit.now.process.value))
        (words_of_program unit.now.words) program.emission.statements.items) }
{
    let emission = emit_program(alloc, &unit.process, unit.words, unit.tables.as_slice())?;
    let below = processes_below(&unit.process).saturating_mul(WORDS_EACH);
    let words = words_after(
        workspace_words(&unit.process, unit.words),
        below.saturating_add(WORDS_BELOW),
        unit.tables.len(),
    );
    Ok(OccamProgram { emission, words })
}

// How many words after its code a program uses that uses this number of words from word 0 up, and of words below it, if its
// tables have this number of words: they are at the end of the code, and all words below them are there too.
fn words_after(words: u32, below: u32, table_words: usize) -> u32 {
    match u32::try_from(table_words) {
        Ok(0) => words.saturating_add(below),
        Ok(count) => words.saturating_sub(count.saturating_add(1)),
        Err(_) => u32::MAX,
    }
}

/// The bytes of a program whose first byte has the address `origin`, and where its places are.
///
/// # Errors
///
/// `Code` if it has more bytes than the largest memory can take, with the line at which it is too long.
pub fn image_at(alloc: Global, origin: u32, program: &OccamProgram) -> Result<Image, OccamFault>
    requires { origin ≤ 0xffff_0000 }
    ensures image { let statements = program.now.emission.statements.items in IfOk result
        (λ image. IsImage origin statements image.starts.items (length statements) image.bytes.items) }
{
    match lay_out(alloc, origin, program.emission.statements.as_slice()) {
        Ok(image) => Ok(image),
        Err(LayoutFault::TooLong(place)) => Err(OccamFault::Code(line_at(
            program.emission.marks.as_slice(),
            place,
        ))),
        Err(LayoutFault::NoMemory) => Err(OccamFault::NoMemory),
    }
}

/// The bytes alone, if a node with `memory` bytes has room for the program.
///
/// # Errors
///
/// As [`image_at`]; and `Memory` if the node has less memory than the program takes.
pub fn bytes_at(
    alloc: Global,
    origin: u32,
    program: &OccamProgram,
    memory: u32,
) -> Result<Vec<u8>, OccamFault>
    requires { origin ≤ 0xffff_0000 }
{
    let Image { bytes, starts: _ } = image_at(alloc, origin, program)?;
    let size = code_size(origin, bytes.len(), program);
    if size.whole() > memory {
        return Err(OccamFault::Memory { size, memory });
    }
    Ok(bytes)
}

/// How much memory a program takes that has this number of bytes of code, the first at the address `origin`.
pub(crate) fn code_size(origin: u32, bytes: usize, program: &OccamProgram) -> CodeSize {
    let code = u32::try_from(bytes).unwrap_or(u32::MAX);
    CodeSize {
        before: origin.saturating_sub(MEMORY_START),
        code: code.saturating_add(3) / 4 * 4,
        variables: program.words.saturating_mul(4),
    }
}

// The line of the last mark at a place or before it.
fn line_at(marks: &[LineMark], place: usize) -> u32 {
    let mut line = 1;
    for mark in marks {
        if mark.place <= place {
            line = mark.line;
        }
    }
    line
}
