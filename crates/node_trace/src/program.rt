//! The program of a node: its labels, and its lines by their addresses.
ghost use Rattle.std.specs.Prelude.{◌≡◌, IfOk, slice_get};
ghost use Rattle.node_memory.specs.Words.{◌⊖◌};
ghost use Rattle.node_trace.specs.Placed.{IsPlaced, code_bytes};
ghost use Rattle.node_trace.specs.declared.program.ProgramCode.TheVariants.{Marked};

use crate::marked::{CodePiece, MarkedCode, ProgramVariable};
use bootstrap::MOST_BOOTED;
use script_text::{NumberedLine, TextWriter, numbered_lines};
use std::alloc::{AllocError, Global};
use t414_assembly::{Assembly, BOOTED, LOADED, TextFault, assemble};

/// How wide the column of instructions is before that of places, and the column of places before the lines.
const INSTRUCTIONS: usize = 20;

const PLACES: usize = 12;

/// A label, and where it is.
#[derive(Clone, Copy)]
pub struct PlacedLabel<'a> {
    /// Its name, without the colon.
    pub name: &'a str,
    /// The address of what follows it.
    pub address: u32,
}

/// How it is shown where a line is.
#[derive(Clone, Copy)]
pub enum LinePlace<'a> {
    /// By the nearest label, on the line or above it, if there is one.
    Label(Option<PlacedLabel<'a>>),
    /// By its number, and by the line that had it put in place, if it was.
    Number { instance: Option<u32> },
}

/// A line of a program, or a piece of its code that belongs to a line.
#[derive(Clone, Copy)]
pub struct ProgramLine<'a> {
    /// The address of its first byte.
    pub address: u32,
    /// How many bytes it has.
    pub length: u32,
    /// The number of the line, from 1.
    pub number: u32,
    /// The line as it was written.
    pub text: &'a str,
    pub place: LinePlace<'a>,
}

impl ProgramLine<'_> {
    // Whether the byte at an address is one of the line.
    fn has(&self, address: u32) -> bool {
        address.wrapping_sub(self.address) < self.length
    }
}

/// The code of a program, and how it is known what belongs to which line.
pub enum ProgramCode {
    /// It was assembled from the text.
    Assembled(Assembly),
    /// It was made from the text by another compiler.
    Marked(MarkedCode),
}

// Dropped by hand, since a derived `Drop` makes callers prove the drop of each part.
impl Drop for ProgramCode {
    fn drop(self) {
        match self {
            ProgramCode::Assembled(_) | ProgramCode::Marked(_) => {}
        }
    }
}

/// The program of a node, where a boot or pokes put it.
pub struct Program {
    text: Vec<u8>,
    origin: u32,
    made: ProgramCode,
}

// Dropped by hand, since a derived `Drop` makes callers prove the drop of each field.
impl Drop for Program {
    fn drop(self) {
        let Program {
            text: _,
            origin: _,
            made: _,
        } = self;
    }
}

impl Program {
    /// Assembles a text. Code that a boot takes begins at the address where a boot puts it, and longer code where it is poked.
    ///
    /// A fault of the text is answered as `assemble` answers it.
    pub fn read(alloc: Global, text: Vec<u8>) -> Result<Program, TextFault>
        ensures image { IfOk result (λ program. IsPlaced program.origin program.made) }
    {
        let booted = assemble(alloc, BOOTED, text.as_slice())?;
        let (origin, made) = if booted.image.bytes.len() <= MOST_BOOTED {
            (BOOTED, booted)
        } else {
            (LOADED, assemble(alloc, LOADED, text.as_slice())?)
        };
        Ok(Program {
            text,
            origin,
            made: ProgramCode::Assembled(made),
        })
    }

    /// The program of a text whose code another compiler made for this address.
    pub fn of_marked(text: Vec<u8>, origin: u32, marked: MarkedCode) -> Program
        ensures text { result.text ≡ text }
        ensures origin { result.origin ≡ origin }
        ensures made { result.made ≡ Marked marked }
    {
        Program {
            text,
            origin,
            made: ProgramCode::Marked(marked),
        }
    }

    /// Its bytes.
    pub fn code(&self) -> &[u8]
        ensures { result.now ≡ code_bytes self.now.made }
    {
        match &self.made {
            ProgramCode::Assembled(made) => made.image.bytes.as_slice(),
            ProgramCode::Marked(marked) => marked.bytes.as_slice(),
        }
    }

    /// The byte of its code at an address, if it has one there.
    pub fn byte_at(&self, address: u32) -> Option<u8>
        ensures { result ≡ slice_get (code_bytes self.now.made) (address ⊖ self.now.origin) }
    {
        let offset = address.wrapping_sub(self.origin);
        self.code().get(offset as usize).copied()
    }

    /// Its lines that have code or a label, as pieces of code.
    pub fn lines(&self, alloc: Global) -> Result<Vec<ProgramLine<'_>>, AllocError> {
        let source = numbered_lines(alloc, self.text.as_slice())?;
        match &self.made {
            ProgramCode::Assembled(made) => {
                assembled_lines(alloc, self.origin, made, source.as_slice())
            }
            ProgramCode::Marked(marked) => {
                marked_lines(alloc, marked.pieces.as_slice(), source.as_slice())
            }
        }
    }

    /// Where the code of each line begins: the same as the lines, but of a program that another compiler made each line in
    /// which a process begins, with all its code.
    pub fn begins(&self, alloc: Global) -> Result<Vec<ProgramLine<'_>>, AllocError> {
        match &self.made {
            ProgramCode::Assembled(_) => self.lines(alloc),
            ProgramCode::Marked(marked) => {
                let source = numbered_lines(alloc, self.text.as_slice())?;
                marked_lines(alloc, marked.begins.as_slice(), source.as_slice())
            }
        }
    }

    /// Its variables, as far as they are known.
    pub fn variables(&self) -> &[ProgramVariable] {
        match &self.made {
            ProgramCode::Assembled(_) => &[],
            ProgramCode::Marked(marked) => marked.variables.as_slice(),
        }
    }

    /// Whether it has labels: it was assembled.
    pub fn has_labels(&self) -> bool {
        matches!(self.made, ProgramCode::Assembled(_))
    }

    /// The address of a label.
    pub fn address_of(&self, alloc: Global, label: &str) -> Result<Option<u32>, AllocError> {
        if !self.has_labels() {
            return Ok(None);
        }
        for line in &self.lines(alloc)? {
            if label_in(line.text) == Some(label) {
                return Ok(Some(line.address));
            }
        }
        Ok(None)
    }
}

// The lines of an assembled text whose first byte is at an address.
fn assembled_lines<'a>(
    alloc: Global,
    origin: u32,
    made: &Assembly,
    source: &[NumberedLine<'a>],
) -> Result<Vec<ProgramLine<'a>>, AllocError> {
    let mut lines = Vec::new(alloc);
    let mut label = None;
    for (index, line) in source.iter().enumerate() {
        let text = std::str::from_utf8(line.text).unwrap_or("");
        let first = made.start_of_line(index);
        let behind = made.start_of_line(index.saturating_add(1));
        let address = origin.wrapping_add(first);
        if let Some(name) = label_in(text) {
            label = Some(PlacedLabel { name, address });
        }
        lines.push(ProgramLine {
            address,
            length: behind.wrapping_sub(first),
            number: number_from_one(index),
            text,
            place: LinePlace::Label(label),
        })?;
    }
    Ok(lines)
}

// The number of the line of an index.
fn number_from_one(index: usize) -> u32 {
    u32::try_from(index).unwrap_or(u32::MAX).saturating_add(1)
}

// Pieces of code as lines of their text.
fn marked_lines<'a>(
    alloc: Global,
    pieces: &[CodePiece],
    source: &[NumberedLine<'a>],
) -> Result<Vec<ProgramLine<'a>>, AllocError> {
    let mut lines = Vec::new(alloc);
    for piece in pieces {
        let index = (piece.line as usize).saturating_sub(1);
        let text = match source.get(index) {
            Some(line) => std::str::from_utf8(line.text).unwrap_or(""),
            None => "",
        };
        lines.push(ProgramLine {
            address: piece.address,
            length: piece.length,
            number: piece.line,
            text,
            place: LinePlace::Number {
                instance: piece.instance,
            },
        })?;
    }
    Ok(lines)
}

// Whether a byte can be in a label.
fn is_of_label(byte: u8) -> bool {
    byte.is_ascii_alphanumeric() || byte == b'_' || byte == b'.'
}

/// The label at the head of a line.
pub fn label_in(line: &str) -> Option<&str> {
    let (name, _) = line.trim_start().split_once(':')?;
    let first = name.as_bytes().first().copied()?;
    if first != b'.' && !first.is_ascii_digit() && are_of_label(name.as_bytes()) {
        Some(name)
    } else {
        None
    }
}

fn are_of_label(name: &[u8]) -> bool {
    for byte in name {
        if !is_of_label(*byte) {
            return false;
        }
    }
    true
}

/// How wide the lines of a program are, without the blanks around them: the widest, or `most` if that is less.
pub fn width_of(lines: &[ProgramLine], most: usize) -> usize {
    let mut width = 0;
    for line in lines {
        if line.length > 0 {
            width = letters_of(line.text.trim()).max(width);
        }
    }
    width.min(most)
}

// How many letters a text has.
fn letters_of(text: &str) -> usize {
    text.chars().count()
}

// Writes blanks after what was written from the byte `begin` of the text on, so that it has `width` bytes.
fn pad(text: &mut TextWriter, begin: usize, width: usize) {
    let written = text.as_mut_string().len().saturating_sub(begin);
    for _ in written..width {
        text.push(" ");
    }
}

// Writes a label, and how many bytes an address is after it.
fn write_label(label: PlacedLabel, address: u32, text: &mut TextWriter) {
    text.push(label.name);
    let behind = address.wrapping_sub(label.address);
    if behind != 0 {
        text.push("+");
        text.push_decimal(u64::from(behind));
    }
}

/// Writes the number of a line, and in brackets the line that had it put in place, if it was: `line 6 (20)`.
pub fn write_line_number(line: &ProgramLine, text: &mut TextWriter) {
    text.push("line ");
    text.push_decimal(u64::from(line.number));
    if let LinePlace::Number {
        instance: Some(instance),
    } = line.place
    {
        text.push(" (");
        text.push_decimal(u64::from(instance));
        text.push(")");
    }
}

// Writes where an address of a line is: the nearest label, `-` if there is none, or the number of the line.
fn write_place(line: &ProgramLine, address: u32, text: &mut TextWriter) {
    let begin = text.as_mut_string().len();
    match line.place {
        LinePlace::Label(Some(label)) => write_label(label, address, text),
        LinePlace::Label(None) => text.push("-"),
        LinePlace::Number { .. } => write_line_number(line, text),
    }
    pad(text, begin, PLACES);
}

/// The first line that has the byte at an address.
pub fn line_with<'a>(lines: &[ProgramLine<'a>], address: u32) -> Option<ProgramLine<'a>> {
    for line in lines {
        if line.has(address) {
            return Some(*line);
        }
    }
    None
}

/// Writes where the address of an instruction is in a program: the nearest label, and the line as it is written, in a column
/// that is at least `width` letters wide. It comes after the instruction, which is in the text from the byte `begin` on. Writes
/// nothing, and returns `false`, if no line has the address.
pub fn write_source(
    text: &mut TextWriter,
    begin: usize,
    lines: &[ProgramLine],
    address: u32,
    width: usize,
) -> bool {
    let Some(line) = line_with(lines, address) else {
        return false;
    };
    pad(text, begin, INSTRUCTIONS);
    text.push("  ");
    write_place(&line, address, text);
    text.push("  ");
    let source = line.text.trim();
    text.push(source);
    for _ in letters_of(source)..width {
        text.push(" ");
    }
    true
}
