//! How many bytes a program takes, and how many each of its procedures.

use crate::compiling::{OccamProgram, code_size, image_at};
use crate::fault::OccamFault;
use crate::spans::{procedure_at, procedures_at, statements_of};
use crate::unit::{CoreUnit, UnitProcedure};
use occam_code::LineMark;
use occam_core::{CorePlace, CoreProcess};
use script_text::TextWriter;
use std::alloc::{AllocError, Global};
use t414_assembly::{BOOTED, Image, Statement};

// A process that has a line, in the order in which their code comes.
#[derive(Clone, Copy)]
struct LinedProcess<'c> {
    place: CorePlace,
    process: &'c CoreProcess,
}

// All of them. If memory was missing, some of them are.
#[derive(Drop)]
struct LinedProcesses<'c> {
    list: Vec<LinedProcess<'c>>,
    lacks_memory: bool,
}

impl<'c> LinedProcesses<'c> {
    // Adds those in a process.
    fn add(&mut self, p: &'c CoreProcess) {
        match p {
            CoreProcess::Line(place, inner) => {
                let place = *place;
                if self.list.push(LinedProcess { place, process: p }).is_err() {
                    self.lacks_memory = true;
                }
                self.add(inner)
            }
            CoreProcess::Sequence(p, q)
            | CoreProcess::Parallel(p, q)
            | CoreProcess::Choose(_, p, q)
            | CoreProcess::If(_, p, q) => {
                self.add(p);
                self.add(q)
            }
            CoreProcess::While(_, p) | CoreProcess::Repeat(_, _, _, p) => self.add(p),
            _ => {}
        }
    }
}

// What the instances of a procedure take.
#[derive(Clone, Copy)]
struct ProcedureSize<'a> {
    procedure: &'a UnitProcedure,
    instances: u32,
    bytes: u64,
}

// How many bytes come before the statement at a place.
fn start_of(image: &Image, place: usize) -> u64 {
    match image.starts.get(place) {
        Some(start) => u64::from(*start),
        None => image.bytes.len() as u64,
    }
}

// How many bytes the code of a process has that begins with a line and has this mark.
fn bytes_of(
    alloc: Global,
    p: &CoreProcess,
    mark: LineMark,
    image: &Image,
) -> Result<u64, AllocError> {
    let end = mark.place.saturating_add(statements_of(alloc, p)?);
    Ok(start_of(image, end).saturating_sub(start_of(image, mark.place)))
}

impl ProcedureSize<'_> {
    // Counts one more instance, which has this number of bytes.
    fn add(&mut self, bytes: u64) {
        self.instances = self.instances.saturating_add(1);
        self.bytes = self.bytes.saturating_add(bytes);
    }
}

// Procedures without instances.
fn no_instances(alloc: Global, unit: &CoreUnit) -> Result<Vec<ProcedureSize<'_>>, AllocError> {
    let mut sizes = Vec::new(alloc);
    for procedure in &unit.procedures {
        sizes.push(ProcedureSize {
            procedure,
            instances: 0,
            bytes: 0,
        })?;
    }
    Ok(sizes)
}

// All processes of a core that have lines.
fn lined_processes(alloc: Global, core: &CoreProcess) -> Result<LinedProcesses<'_>, AllocError> {
    let mut lines = LinedProcesses {
        list: Vec::new(alloc),
        lacks_memory: false,
    };
    lines.add(core);
    if lines.lacks_memory {
        return Err(AllocError);
    }
    Ok(lines)
}

// What the instances of each procedure take.
fn procedure_sizes<'a>(
    alloc: Global,
    unit: &'a CoreUnit,
    marks: &[LineMark],
    image: &Image,
) -> Result<Vec<ProcedureSize<'a>>, AllocError> {
    let places = procedures_at(alloc, unit.instances.as_slice())?;
    let mut sizes = no_instances(alloc, unit)?;
    let lines = lined_processes(alloc, &unit.process)?;
    for (line, mark) in lines.list.iter().zip(marks) {
        if let Some(index) = procedure_at(&places, line.place)
            && let Some(size) = sizes.as_mut_slice().get_mut(index)
        {
            size.add(bytes_of(alloc, line.process, *mark, image)?);
        }
    }
    Ok(sizes)
}

// How many bytes come before the words of tables and what is before them: all, if there are none.
fn code_bytes(statements: &[Statement], image: &Image) -> u64 {
    for (place, statement) in statements.iter().enumerate() {
        if let Statement::Align(_) = statement {
            return start_of(image, place);
        }
    }
    image.bytes.len() as u64
}

fn put_part(written: &mut TextWriter, name: &str, bytes: u64) {
    written.push(name);
    put_right(written, bytes, 6);
    written.push("\n");
}

// Writes a number at the right of a column.
fn put_right(written: &mut TextWriter, number: u64, width: usize) {
    let mut digits: usize = 1;
    let mut rest = number / 10;
    for _ in 0..width {
        if rest > 0 {
            digits = digits.saturating_add(1);
            rest /= 10;
        }
    }
    for _ in digits..width {
        written.push(" ");
    }
    written.push_decimal(number);
}

fn put_procedure(written: &mut TextWriter, size: &ProcedureSize<'_>, width: usize) {
    let UnitProcedure { name, line } = size.procedure;
    written.push(name.as_str());
    for _ in name.len()..width {
        written.push(" ");
    }
    if *line > 0 {
        put_right(written, u64::from(*line), 7);
    } else {
        written.push("      -");
    }
    put_right(written, u64::from(size.instances), 11);
    put_right(written, size.bytes, 8);
    written.push("\n");
}

// How wide the column of names is.
fn name_width(sizes: &[ProcedureSize<'_>]) -> usize {
    let mut width = 4;
    for size in sizes {
        width = width.max(size.procedure.name.len());
    }
    width
}

fn put_procedures(written: &mut TextWriter, sizes: &[ProcedureSize<'_>]) {
    let width = name_width(sizes);
    written.push("\nPROC");
    for _ in 4..width {
        written.push(" ");
    }
    written.push("   line  instances   bytes\n");
    for size in sizes {
        put_procedure(written, size, width);
    }
}

/// How many bytes the program of a unit takes, as a table: its code, its tables, its variables, and all that it needs. Then, for each
/// procedure of the text and each other one that has an instance, its line, how many instances were put in place, and how many bytes
/// of code these have together.
///
/// # Errors
///
/// `Code` if the program has more bytes than the largest memory can take.
pub fn size_table(
    alloc: Global,
    unit: &CoreUnit,
    program: &OccamProgram,
) -> Result<String, OccamFault> {
    let image = image_at(alloc, BOOTED, program)?;
    Ok(table_of(alloc, unit, program, &image)?)
}

fn table_of(
    alloc: Global,
    unit: &CoreUnit,
    program: &OccamProgram,
    image: &Image,
) -> Result<String, AllocError> {
    let emission = &program.emission;
    let size = code_size(BOOTED, image.bytes.len(), program);
    let code = code_bytes(emission.statements.as_slice(), image);
    let tables = (unit.tables.len() as u64).saturating_mul(4);
    let whole = u64::from(size.whole());
    // the code takes whole words of memory
    let words_before = u64::from(size.before).saturating_add(code.saturating_add(3) / 4 * 4);
    let variables = whole.saturating_sub(words_before.saturating_add(tables));
    let mut written = TextWriter::new(alloc);
    put_part(&mut written, "code     ", code);
    put_part(&mut written, "tables   ", tables);
    put_part(&mut written, "variables", variables);
    put_part(&mut written, "memory   ", whole);
    let mut sizes = procedure_sizes(alloc, unit, emission.marks.as_slice(), image)?;
    sizes.retain(|size| size.procedure.line > 0 || size.instances > 0);
    if !sizes.is_empty() {
        put_procedures(&mut written, sizes.as_slice());
    }
    written.finish()
}
