//! A program with the lines and the names of its text, where they are in a node.
ghost use Rattle.std.specs.Prelude.{◌≤◌};

use crate::compiling::{LARGEST_MEMORY, OccamProgram, bytes_at, image_at};
use crate::fault::OccamFault;
use crate::spans::{LineSpan, spans_of};
use crate::unit::CoreUnit;
use std::alloc::{AllocError, Global};
use t414_assembly::{Image, Operand, Statement};
use t414_decode::Function;

/// A piece of a program's code that belongs to one line of the text.
#[derive(Clone, Copy)]
pub struct PlacedLine {
    /// The address of its first byte.
    pub address: u32,
    /// How many bytes it has. It may have none where a process begins.
    pub length: u32,
    /// The number of the line.
    pub line: u32,
    /// The line of the instance, if the line is in the body of a PROC that was put in place.
    pub instance: Option<u32>,
}

/// A program where it is in a node.
#[derive(Drop)]
pub struct PlacedProgram {
    /// Its bytes.
    pub bytes: Vec<u8>,
    /// The pieces of its code that belong to lines, from the first byte on. No two have a byte in common. What comes before
    /// its first process and after it belongs to no line.
    pub pieces: Vec<PlacedLine>,
    /// The code of each process that begins in a line, with that of all processes below it.
    pub processes: Vec<PlacedLine>,
    /// The workspace of its own process, from the second instruction on. The word after it is the first of the variables.
    pub workspace: u32,
}

/// The program of a unit where its first byte is at an address, in the largest node.
///
/// # Errors
///
/// As `bytes_at`.
pub fn placed_at(
    alloc: Global,
    origin: u32,
    unit: &CoreUnit,
    program: &OccamProgram,
) -> Result<PlacedProgram, OccamFault>
    requires { origin ≤ 0xffff_0000 }
{
    let bytes = bytes_at(alloc, origin, program, LARGEST_MEMORY)?;
    let image = image_at(alloc, origin, program)?;
    Ok(with_image(alloc, origin, unit, program, bytes, &image)?)
}

// The program whose bytes are these, and whose places are those of an image.
fn with_image(
    alloc: Global,
    origin: u32,
    unit: &CoreUnit,
    program: &OccamProgram,
    bytes: Vec<u8>,
    image: &Image,
) -> Result<PlacedProgram, AllocError> {
    let emission = &program.emission;
    let spans = spans_of(alloc, unit, emission.marks.as_slice())?;
    let places = Places {
        origin,
        starts: image.starts.as_slice(),
    };
    let owners = owners_of(alloc, emission.statements.len(), spans.as_slice())?;
    Ok(PlacedProgram {
        workspace: workspace_of(origin, bytes.len(), emission.statements.as_slice()),
        bytes,
        pieces: pieces_of(alloc, places, owners.as_slice(), spans.as_slice())?,
        processes: processes_of(alloc, places, spans.as_slice())?,
    })
}

// Where the statements of a program are.
#[derive(Clone, Copy)]
struct Places<'b> {
    origin: u32,
    // How many bytes come before each place.
    starts: &'b [u32],
}

impl Places<'_> {
    // How many bytes come before a place.
    fn offset(self, place: usize) -> u32 {
        self.starts.get(place).copied().unwrap_or(0)
    }

    // The code of the statements from one place up to another, which belongs to the line of a span.
    fn piece(self, first: usize, end: usize, span: LineSpan) -> PlacedLine {
        let begin = self.offset(first);
        PlacedLine {
            address: self.origin.wrapping_add(begin),
            length: self.offset(end).wrapping_sub(begin),
            line: span.line,
            instance: span.instance,
        }
    }
}

// For each of `count` statements the innermost span that it is in, as a number from 1 on, or 0 if it is in none.
fn owners_of(alloc: Global, count: usize, spans: &[LineSpan]) -> Result<Vec<usize>, AllocError> {
    let mut owners = vec![in alloc; 0; count]?;
    for (index, span) in spans.iter().enumerate() {
        if let Some(own) = owners.as_mut_slice().get_mut(span.first..span.end) {
            for owner in own {
                *owner = index.saturating_add(1);
            }
        }
    }
    Ok(owners)
}

// The pieces of the code, from the innermost span of each statement.
fn pieces_of(
    alloc: Global,
    places: Places,
    owners: &[usize],
    spans: &[LineSpan],
) -> Result<Vec<PlacedLine>, AllocError> {
    let mut pieces = Vec::new(alloc);
    let mut first: usize = 0;
    for (place, owner) in owners.iter().enumerate() {
        let end = place.saturating_add(1);
        if owners.get(end) != Some(owner) {
            if let Some(span) = span_of(spans, *owner) {
                pieces.push(places.piece(first, end, span))?;
            }
            first = end;
        }
    }
    Ok(pieces)
}

// The span of a number from 1 on.
fn span_of(spans: &[LineSpan], number: usize) -> Option<LineSpan> {
    spans.get(number.checked_sub(1)?).copied()
}

fn processes_of(
    alloc: Global,
    places: Places,
    spans: &[LineSpan],
) -> Result<Vec<PlacedLine>, AllocError> {
    let mut processes = Vec::new(alloc);
    for span in spans {
        processes.push(places.piece(span.first, span.end, *span))?;
    }
    Ok(processes)
}

// The workspace after the first statement of a program, which moves it. Before that it is the first word after the code.
fn workspace_of(origin: u32, length: usize, statements: &[Statement]) -> u32 {
    let moved = match statements.first() {
        Some(Statement::Instruction(Function::AdjustWorkspace, Operand::Number(words))) => *words,
        _ => 0,
    };
    let length = u32::try_from(length).unwrap_or(u32::MAX);
    let above = origin.wrapping_add(length).wrapping_add(3);
    (above - above % 4).wrapping_add(moved.wrapping_mul(4))
}
