//! The programs in files: of occam if the name of the file ends with `.occ`, and else of assembly.
ghost use Rattle.std.specs.Prelude.{◌≤◌};

use crate::front_end::read_program;
use bootstrap::MOST_BOOTED;
use lab_command::{LabFailure, WRONG_TEXT};
use lab_debug::ProgramOf;
use lab_script::is_occam_file;
use node_trace::{CodePiece, MarkedCode, Program, ProgramVariable, ShownType};
use occam_units::{
    CoreUnit, OccamFault, OccamProgram, PlacedLine, PlacedProgram, VariableType, placed_at,
    program_of, read_unit,
};
use std::alloc::{Alloc, AllocError, Global};
use std::env::Env;
use std::fs::Files;
use t414_assembly::{BOOTED, LOADED, TextFault};

/// Why a text is no program.
#[derive(Drop)]
pub enum WrongProgram {
    /// These mistakes, each in a line.
    Shown(String),
    Memory,
}

impl From<AllocError> for WrongProgram {
    fn from(_error: AllocError) -> WrongProgram {
        WrongProgram::Memory
    }
}

impl WrongProgram {
    // The failure of a request that names the file of the text.
    fn in_file(self, alloc: Global, file: &str) -> LabFailure {
        match self {
            WrongProgram::Shown(text) => LabFailure::Shown {
                text,
                status: WRONG_TEXT,
            }
            .in_file(alloc, file),
            WrongProgram::Memory => LabFailure::Memory,
        }
    }
}

/// The program in a file, or what is wrong with its text.
pub fn program_in_file<R: Files + Env + Alloc<A = Global>>(
    rt: &R,
    file: &str,
) -> Result<Program, LabFailure> {
    let text = read_program(rt, file)?;
    match program_of_text(rt.alloc(), file, text) {
        Ok(program) => Ok(program),
        Err(wrong) => Err(wrong.in_file(rt.alloc(), file)),
    }
}

/// The program of a text that is in a file of this name; of a file of occam of its unit.
pub fn program_of_text(alloc: Global, file: &str, text: Vec<u8>) -> Result<Program, WrongProgram> {
    if is_occam_file(file) {
        compiled_program(alloc, text.as_slice())
    } else {
        assembled_program(alloc, text)
    }
}

fn assembled_program(alloc: Global, text: Vec<u8>) -> Result<Program, WrongProgram> {
    match Program::read(alloc, text) {
        Ok(program) => Ok(program),
        Err(TextFault::Memory(_)) => Err(WrongProgram::Memory),
        Err(fault) => Err(WrongProgram::Shown(format!(in alloc; "{fault}\n")?)),
    }
}

fn compiled_program(alloc: Global, json: &[u8]) -> Result<Program, WrongProgram> {
    match read_unit(alloc, json) {
        Ok(unit) => program_of_unit(alloc, unit),
        Err(fault) => Err(wrong_text(alloc, &fault)),
    }
}

// Code that a boot takes begins where a boot puts it, and longer code where it is poked.
fn program_of_unit(alloc: Global, unit: CoreUnit) -> Result<Program, WrongProgram> {
    let program = program_of(alloc, &unit)?;
    let booted = marked_at(alloc, BOOTED, &unit, &program)?;
    let (origin, marked) = if booted.bytes.len() <= MOST_BOOTED {
        (BOOTED, booted)
    } else {
        (LOADED, marked_at(alloc, LOADED, &unit, &program)?)
    };
    let text = Vec::from_slice(alloc, unit.text.as_bytes())?;
    Ok(Program::of_marked(text, origin, marked))
}

fn marked_at(
    alloc: Global,
    origin: u32,
    unit: &CoreUnit,
    program: &OccamProgram,
) -> Result<MarkedCode, WrongProgram>
    requires { origin ≤ 0xffff_0000 }
{
    match placed_at(alloc, origin, unit, program) {
        Ok(placed) => Ok(marked_of(alloc, placed, unit)?),
        Err(fault) => Err(wrong_text(alloc, &fault)),
    }
}

// A text is no program of occam: its mistakes, one a line.
fn wrong_text(alloc: Global, fault: &OccamFault) -> WrongProgram {
    match fault {
        OccamFault::NoMemory => WrongProgram::Memory,
        fault => match format!(in alloc; "{fault}\n") {
            Ok(text) => WrongProgram::Shown(text),
            Err(_) => WrongProgram::Memory,
        },
    }
}

fn marked_of(
    alloc: Global,
    placed: PlacedProgram,
    unit: &CoreUnit,
) -> Result<MarkedCode, AllocError> {
    let pieces = pieces_of(alloc, placed.pieces.as_slice())?;
    let begins = pieces_of(alloc, placed.processes.as_slice())?;
    let variables = shown_variables(alloc, placed.workspace, unit)?;
    let PlacedProgram { bytes, .. } = placed;
    Ok(MarkedCode {
        bytes,
        pieces,
        begins,
        variables,
    })
}

fn pieces_of(alloc: Global, lines: &[PlacedLine]) -> Result<Vec<CodePiece>, AllocError> {
    let mut pieces = Vec::new(alloc);
    for line in lines {
        pieces.push(CodePiece {
            address: line.address,
            length: line.length,
            line: line.line,
            instance: line.instance,
        })?;
    }
    Ok(pieces)
}

// The variables that have names, of a program whose process has its workspace at an address.
fn shown_variables(
    alloc: Global,
    workspace: u32,
    unit: &CoreUnit,
) -> Result<Vec<ProgramVariable>, AllocError> {
    let mut shown = Vec::new(alloc);
    for variable in &unit.variables {
        if let Some(name) = &variable.name {
            let word = variable.first.wrapping_add(1);
            shown.push(ProgramVariable {
                name: String::from_str(alloc, name.as_str())?,
                shown: shown_type(variable.variable_type),
                line: variable.line,
                address: workspace.wrapping_add(word.wrapping_mul(4)),
                length: variable.length,
            })?;
        }
    }
    Ok(shown)
}

fn shown_type(variable_type: VariableType) -> ShownType {
    match variable_type {
        VariableType::Int => ShownType::Int,
        VariableType::Byte => ShownType::Byte,
        VariableType::Bool => ShownType::Bool,
        VariableType::Channel => ShownType::Channel,
    }
}

/// A node, and its program.
#[derive(Drop)]
pub struct ReadProgram {
    pub node: u8,
    pub program: Program,
}

/// The programs of nodes in files.
pub fn read_node_programs<R: Files + Env + Alloc<A = Global>>(
    rt: &R,
    programs: &[ProgramOf],
) -> Result<Vec<ReadProgram>, LabFailure> {
    let mut read = Vec::new(rt.alloc());
    for of in programs {
        read.push(ReadProgram {
            node: of.node,
            program: program_in_file(rt, of.file)?,
        })?;
    }
    Ok(read)
}
