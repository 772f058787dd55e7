//! Occam texts: compiled, and compared with rows.

use crate::blocks::{HEADING, line_number_at, lines_as_text, lines_below, read_lines};
use crate::front_end::{UnitQuestion, checked_unit};
use lab_command::{
    AssemblyOptions, LabFailure, OccamForm, OccamRequest, Report, WRONG_TEXT, read_file,
};
use lab_words::{Answered, NumberedLineFault, Question};
use node_answers::{print_assembled, print_code};
use occam_units::{
    CoreUnit, LARGEST_MEMORY, OccamFault, OccamProgram, assembler_text, bytes_at, program_of,
    size_table,
};
use script_text::TextWriter;
use std::alloc::{Alloc, AllocError, Global};
use std::env::Env;
use std::fs::Files;
use t414_assembly::{BOOTED, LOADED, hexadecimal};

/// The program of the occam text in a file, in the form that is asked for, and its warnings; or what is wrong with the text.
pub fn report_occam<R: Files + Env + Alloc<A = Global>>(
    rt: &R,
    asked: &OccamRequest,
) -> Result<Report, LabFailure> {
    let text = read_file(rt, asked.file)?;
    let question = match asked.form {
        OccamForm::Core => UnitQuestion::UnitWithCore,
        _ => UnitQuestion::Unit,
    };
    match checked_unit(rt, question, text.as_slice()) {
        Ok(unit) => report_unit(rt.alloc(), asked, &unit),
        Err(fault) => Err(wrong_occam(rt.alloc(), &fault)),
    }
}

fn report_unit(alloc: Global, asked: &OccamRequest, unit: &CoreUnit) -> Result<Report, LabFailure> {
    let warnings = Some(lines_of(alloc, unit.warnings.as_slice())?);
    let text = print_program(alloc, asked, unit)?;
    Ok(Report {
        text,
        warnings,
        status: 0,
    })
}

// Lines, each with its end.
fn lines_of(alloc: Global, lines: &[String]) -> Result<String, AllocError> {
    let mut text = TextWriter::new(alloc);
    for line in lines {
        text.push(line.as_str());
        text.push("\n");
    }
    text.finish()
}

fn print_program(
    alloc: Global,
    asked: &OccamRequest,
    unit: &CoreUnit,
) -> Result<String, LabFailure> {
    let origin = match asked.form {
        OccamForm::Pokes { .. } => LOADED,
        _ => BOOTED,
    };
    let memory = asked.memory.unwrap_or(LARGEST_MEMORY);
    let program = program_of(alloc, unit)?;
    match bytes_at(alloc, origin, &program, memory) {
        Ok(code) => print_form(alloc, asked.form, &program, unit, code.as_slice()),
        Err(fault) => Err(wrong_occam(alloc, &fault)),
    }
}

fn print_sizes(
    alloc: Global,
    program: &OccamProgram,
    unit: &CoreUnit,
) -> Result<String, LabFailure> {
    match size_table(alloc, unit, program) {
        Ok(text) => Ok(text),
        Err(fault) => Err(wrong_occam(alloc, &fault)),
    }
}

fn print_form(
    alloc: Global,
    form: OccamForm<'_>,
    program: &OccamProgram,
    unit: &CoreUnit,
    code: &[u8],
) -> Result<String, LabFailure> {
    match form {
        OccamForm::Text => Ok(assembler_text(alloc, program, unit.text.as_bytes())?),
        OccamForm::Core => Ok(core_of(alloc, unit)?),
        OccamForm::Sizes => print_sizes(alloc, program, unit),
        OccamForm::Listing => {
            let text = assembler_text(alloc, program, unit.text.as_bytes())?;
            print_assembled(alloc, options_of(true, None), text.as_bytes())
        }
        OccamForm::Code => print_code(alloc, options_of(false, None), code),
        OccamForm::Pokes { host, user } => {
            print_code(alloc, options_of(false, Some((host, user))), code)
        }
    }
}

// The core as a text of occam.
fn core_of(alloc: Global, unit: &CoreUnit) -> Result<String, AllocError> {
    match &unit.core {
        Some(text) => String::from_str(alloc, text.as_str()),
        None => Ok(String::new(alloc)),
    }
}

fn options_of<'a>(listing: bool, pokes: Option<(&'a str, &'a str)>) -> AssemblyOptions<'a> {
    AssemblyOptions { listing, pokes }
}

// A text is no program of occam: its mistakes, one a line.
fn wrong_occam(alloc: Global, fault: &OccamFault) -> LabFailure {
    match fault {
        OccamFault::NoMemory => LabFailure::Memory,
        fault => LabFailure::of_line(alloc, fault, WRONG_TEXT),
    }
}

// What is asked of the program of a row.
#[derive(Clone, Copy)]
enum RowQuestion {
    // Its code, or its mistakes.
    Code,
    // Its core.
    Core,
    // Its warnings.
    Warnings,
    // What it takes.
    Sizes,
}

// What the heading of a row asks, and the answer that it expects.
fn row_question(heading: &str) -> (RowQuestion, &str) {
    if let Some(expected) = heading.strip_prefix("core ") {
        (RowQuestion::Core, expected)
    } else if let Some(expected) = heading.strip_prefix("warnings ") {
        (RowQuestion::Warnings, expected)
    } else if let Some(expected) = heading.strip_prefix("sizes ") {
        (RowQuestion::Sizes, expected)
    } else {
        (RowQuestion::Code, heading)
    }
}

/// Compiles each program of a text. A program is below a heading `=== EXPECTED`, where EXPECTED is its code in hexadecimal, or
/// its mistakes with `; ` between them. Below `=== core EXPECTED` it is the lines of its core, which is compiled too and must
/// have its code; below `=== warnings EXPECTED` its warnings or `none`, and below `=== sizes EXPECTED` the table of what it takes. What is
/// below `=== # ...` or before the first heading is a remark.
///
/// `Wrong` if a line isn't UTF-8.
pub fn compile_rows<'a, R: Files + Env + Alloc<A = Global>>(
    rt: &R,
    text: &'a [u8],
) -> Result<Vec<Answered<'a>>, NumberedLineFault> {
    let lines = read_lines(rt.alloc(), text)?;
    let mut answers = Vec::new(rt.alloc());
    for (index, line) in lines.iter().enumerate() {
        if let Some(expected) = line.strip_prefix(HEADING) {
            let below = lines_below(lines.as_slice(), index);
            add_row(rt, &mut answers, line_number_at(index), expected, below)?;
        }
    }
    Ok(answers)
}

// Compiles the program of the lines below a heading, unless they are a remark.
fn add_row<'a, R: Files + Env + Alloc<A = Global>>(
    rt: &R,
    answers: &mut Vec<Answered<'a>>,
    line: u64,
    expected: &'a str,
    below: &[&str],
) -> Result<(), AllocError> {
    if expected.starts_with("#") {
        return Ok(());
    }
    let program = lines_as_text(rt.alloc(), below)?;
    let (question, expected) = row_question(expected);
    let answer = match answer_of(rt, question, program.as_bytes()) {
        Ok(answer) => String::from_str(rt.alloc(), answer.as_str().trim_end())?,
        Err(OccamFault::NoMemory) => return Err(AllocError),
        Err(fault) => format!(in rt.alloc(); "{fault}")?,
    };
    answers.push(Answered {
        question: Question {
            line,
            text: "occam",
            expected: Some(expected),
        },
        answer,
    })?;
    Ok(())
}

// What is asked of a text.
fn answer_of<R: Files + Env + Alloc<A = Global>>(
    rt: &R,
    question: RowQuestion,
    text: &[u8],
) -> Result<String, OccamFault> {
    let alloc = rt.alloc();
    match question {
        RowQuestion::Code => code_of_text(rt, text),
        RowQuestion::Core => answer_of_core(rt, text),
        RowQuestion::Warnings => {
            let unit = checked_unit(rt, UnitQuestion::Unit, text)?;
            if unit.warnings.is_empty() {
                return Ok(String::from_str(alloc, "none")?);
            }
            Ok(lines_of(alloc, unit.warnings.as_slice())?)
        }
        RowQuestion::Sizes => {
            let unit = checked_unit(rt, UnitQuestion::Unit, text)?;
            let program = program_of(alloc, &unit)?;
            size_table(alloc, &unit, &program)
        }
    }
}

// The code of a text.
fn code_of_text<R: Files + Env + Alloc<A = Global>>(
    rt: &R,
    text: &[u8],
) -> Result<String, OccamFault> {
    let unit = checked_unit(rt, UnitQuestion::Unit, text)?;
    code_of_unit(rt.alloc(), &unit)
}

fn code_of_unit(alloc: Global, unit: &CoreUnit) -> Result<String, OccamFault> {
    let program = program_of(alloc, unit)?;
    let code = bytes_at(alloc, BOOTED, &program, LARGEST_MEMORY)?;
    Ok(hexadecimal(alloc, code.as_slice())?)
}

// The core of a text, or that it isn't the same code.
fn answer_of_core<R: Files + Env + Alloc<A = Global>>(
    rt: &R,
    text: &[u8],
) -> Result<String, OccamFault> {
    let unit = checked_unit(rt, UnitQuestion::UnitWithCore, text)?;
    let core = core_of(rt.alloc(), &unit)?;
    let again = code_of_text(rt, core.as_bytes())?;
    if again == code_of_unit(rt.alloc(), &unit)? {
        Ok(core)
    } else {
        Ok(format!(in rt.alloc(); "its core is other code: {again}")?)
    }
}
