//! A text as a program, with its bytes.
ghost use Rattle.std.specs.Prelude.{◌≡◌, ◌≤◌, ◌⊎◌, ℕ, IfOk, IfErr, Some, length, slice_get};
ghost use Rattle.t414_assembly.specs.Faults.{IsProgramFaultOf, IsTextFaultOf};
ghost use Rattle.t414_assembly.specs.Program.{IsImage};

use crate::cursor::Cursor;
use crate::fault::{Expected, Mismatch, TextFault};
use crate::faults::{FaultList, ProgramFault, first_faults};
use crate::layout::{Image, LayoutFault, lay_out};
use crate::parsing::Reader;
use crate::statement::Statement;
use script_text::{NumberedLine, numbered_lines};
use std::alloc::{AllocError, Global};

/// A program that was read from a text, and its bytes.
#[derive(Drop)]
pub struct Assembly {
    /// The statements of all lines.
    pub statements: Vec<Statement>,
    /// How many statements come before each line, and at the end how many there are in all.
    pub lines: Vec<usize>,
    /// The bytes, and where the places are.
    pub image: Image,
}

impl Assembly {
    /// The bytes alone.
    pub fn into_code(self) -> Vec<u8>
        ensures { result ≡ self.image.bytes }
    {
        let Assembly {
            statements: _,
            lines: _,
            image,
        } = self;
        let Image { bytes, starts: _ } = image;
        bytes
    }

    /// The bytes of the statements of the line of this index, from 0.
    pub(crate) fn code_of_line(&self, index: usize) -> &[u8] {
        let first = self.start_of_line(index);
        let last = self.start_of_line(index.saturating_add(1));
        let code = self.image.bytes.as_slice();
        code.get(first as usize..last as usize).unwrap_or(&[])
    }

    /// How many bytes come before the line of this index, from 0. The index after the last line gives all bytes, and
    /// any greater one gives 0.
    pub fn start_of_line(&self, index: usize) -> u32 {
        let place = self.lines.as_slice().get(index).copied().unwrap_or(0);
        self.image
            .starts
            .as_slice()
            .get(place)
            .copied()
            .unwrap_or(0)
    }
}

/// Assembles a text to code whose first byte has the address `origin`.
///
/// # Errors
///
/// The first of the faults of `assemble_or_list`.
pub fn assemble(alloc: Global, origin: u32, text: &[u8]) -> Result<Assembly, TextFault>
    requires { origin ≤ 0xffff_0000 }
    ensures image { IfOk result (λ made. IsImage origin made.statements.items made.image.starts.items (length made.statements.items) made.image.bytes.items) }
    ensures fault { IfErr result (λ fault. IsTextFaultOf text.now fault) }
{
    match assemble_or_list(alloc, origin, text) {
        Ok(made) => Ok(made),
        Err(ProgramFault::Wrong(list)) => {
            let FaultList {
                mut faults,
                has_more: _,
            } = list;
            Err(TextFault::Wrong(faults.remove(0)))
        }
        Err(ProgramFault::NoMemory) => Err(TextFault::Memory(AllocError)),
    }
}

/// The same with the faults of all lines that are wrong, up to `MOST_FAULTS`.
///
/// # Errors
///
/// A fault says where something else is expected in a line: what isn't written as it should be, a name that isn't defined, a
/// label where no label can be. Of a text without such faults the code may be too long: then the one fault is of the line
/// with which it is. A name that a wrong line defines is no fault where it is used.
pub fn assemble_or_list(alloc: Global, origin: u32, text: &[u8]) -> Result<Assembly, ProgramFault>
    requires { origin ≤ 0xffff_0000 }
    ensures image { IfOk result (λ made. IsImage origin made.statements.items made.image.starts.items (length made.statements.items) made.image.bytes.items) }
    ensures faults { IfErr result (λ fault. IsProgramFaultOf text.now fault) }
{
    let source = numbered_lines(alloc, text)?;
    let source = source.as_slice();
    let mut mismatches = Vec::new(alloc);
    let (statements, lines) = read_program(alloc, source, &mut mismatches)?;
    let list = first_faults(alloc, source, mismatches.as_slice())?;
    if !list.faults.as_slice().is_empty() {
        return Err(ProgramFault::Wrong(list));
    }
    match lay_out(alloc, origin, statements.as_slice()) {
        Ok(image) => Ok(Assembly {
            statements,
            lines,
            image,
        }),
        Err(LayoutFault::TooLong(place)) => {
            let line = line_of(source, lines.as_slice(), place);
            let list = first_faults(alloc, &[line], &[Some(too_long(line))])?;
            Err(ProgramFault::Wrong(list))
        }
        Err(LayoutFault::NoMemory) => Err(ProgramFault::NoMemory),
    }
}

// The statements of all lines; how many of them come before each line, and at the end how many there are in all; and, in
// `mismatches`, what is wrong with each line, if anything is.
fn read_program<'a>(
    alloc: Global,
    source: &[NumberedLine<'a>],
    mismatches: &mut Vec<Option<Mismatch<'a>>>,
) -> Result<(Vec<Statement>, Vec<usize>), AllocError> {
    let mut reader = Reader::new(alloc);
    for line in source {
        mismatches.push(reader.read_line(*line))?;
    }
    reader.begin_again();
    for (line, mismatch) in source.iter().zip(mismatches.as_mut_slice()) {
        let again = reader.read_line(*line);
        *mismatch = mismatch.or(again);
    }
    reader.finish()
}

// The line of the statement of this place.
fn line_of<'a>(source: &[NumberedLine<'a>], lines: &[usize], place: usize) -> NumberedLine<'a>
    ensures { (result.number ≡ 1) ⊎ ((k : ℕ) × (slice_get source.now k ≡ Some result)) }
{
    let mut number: usize = 0;
    for count in lines {
        if *count <= place {
            number = number.saturating_add(1);
        }
    }
    let index = number.saturating_sub(1);
    if index < source.len() {
        source[index]
    } else {
        NumberedLine {
            number: 1,
            text: &[],
        }
    }
}

// With a line the code is too long.
fn too_long(line: NumberedLine<'_>) -> Mismatch<'_> {
    let mut cursor = Cursor::of(line.text);
    cursor.skip_blanks();
    Mismatch {
        expected: Expected::Length,
        left: cursor.bytes_left(),
        hint: None,
    }
}
