//! The front end, a program beside this one: it reads texts of occam and answers units, and it says what helps where a text is
//! refused.

use lab_command::{LabFailure, REFUSED_PLAN, WRONG_TEXT, read_file, readable_bytes};
use lab_script::is_occam_file;
use occam_units::{CoreUnit, OccamFault, read_unit};
use std::alloc::{Alloc, AllocError, Global};
use std::env::{self, Env};
use std::fs::{self, Files};

// The variable with the folder of the two pipes by which the front end is asked and answers. The command `lab` sets it.
const FRONT_END: &str = "NADZSUMEK_OCCAM";

// The front end isn't asked about a longer text, in bytes.
const MOST_EXPLAINED: usize = 0x100_0000;

/// What is asked of the front end about a text.
#[derive(Clone, Copy)]
pub enum UnitQuestion {
    /// Its unit.
    Unit,
    /// The same with the core as a text of occam.
    UnitWithCore,
}

impl UnitQuestion {
    // The line that comes before the text.
    fn line(self) -> &'static [u8] {
        match self {
            UnitQuestion::Unit => b"unit\n",
            UnitQuestion::UnitWithCore => b"core\n",
        }
    }
}

/// The unit of a text in JSON, as the front end answers it; empty if none answers.
pub fn unit_of_text<R: Files + Env + Alloc<A = Global>>(
    rt: &R,
    question: UnitQuestion,
    text: &[u8],
) -> Result<Vec<u8>, AllocError> {
    ask(rt, question.line(), text)
}

// What the front end answers to a line and a text; nothing if none answers.
fn ask<R: Files + Env + Alloc<A = Global>>(
    rt: &R,
    line: &[u8],
    text: &[u8],
) -> Result<Vec<u8>, AllocError> {
    let Ok(folder) = env::var(rt, FRONT_END) else {
        return Ok(Vec::new(rt.alloc()));
    };
    let asked = format!(in rt.alloc(); "{folder}/asked")?;
    let answered = format!(in rt.alloc(); "{folder}/answered")?;
    let mut whole = Vec::from_slice(rt.alloc(), line)?;
    whole.extend_from_slice(text)?;
    if fs::write(rt, asked.as_str(), whole.as_slice()).is_err() {
        return Ok(Vec::new(rt.alloc()));
    }
    match readable_bytes(rt, answered.as_str())? {
        Some(unit) => Ok(unit),
        None => Ok(Vec::new(rt.alloc())),
    }
}

/// A failure with what helps, if a text is refused and the front end knows more of it.
pub fn with_help<R: Files + Env + Alloc<A = Global>>(rt: &R, failure: LabFailure) -> LabFailure {
    let (refusal, source, status) = match failure {
        LabFailure::Shown { text, status } => (text, Vec::new(rt.alloc()), status),
        LabFailure::Refused {
            text,
            source,
            status,
        } => (text, source, status),
        failure => return failure,
    };
    if status != WRONG_TEXT && status != REFUSED_PLAN {
        return LabFailure::Shown {
            text: refusal,
            status,
        };
    }
    LabFailure::of_text(lines_with_help(rt, refusal, source.as_slice()), status)
}

/// The lines that refuse this text, as the front end answers them with what helps, or as they are if none answers. The text is
/// empty if the lines say enough.
pub fn lines_with_help<R: Files + Env + Alloc<A = Global>>(
    rt: &R,
    refusal: String,
    source: &[u8],
) -> Result<String, AllocError> {
    if source.len() > MOST_EXPLAINED {
        return Ok(refusal);
    }
    let line = format!(in rt.alloc(); "help {}\n{refusal}", refusal.len())?;
    let answer = ask(rt, line.as_bytes(), source)?;
    match std::str::from_utf8(answer.as_slice()) {
        Ok(told) if !told.is_empty() => String::from_str(rt.alloc(), told),
        _ => Ok(refusal),
    }
}

/// The unit of a text, read and checked.
pub fn checked_unit<R: Files + Env + Alloc<A = Global>>(
    rt: &R,
    question: UnitQuestion,
    text: &[u8],
) -> Result<CoreUnit, OccamFault> {
    let json = unit_of_text(rt, question, text)?;
    read_unit(rt.alloc(), json.as_slice())
}

/// The text of a program's file; of a file of occam its unit.
pub fn read_program<R: Files + Env + Alloc<A = Global>>(
    rt: &R,
    path: &str,
) -> Result<Vec<u8>, LabFailure> {
    let text = read_file(rt, path)?;
    if is_occam_file(path) {
        Ok(unit_of_text(rt, UnitQuestion::Unit, text.as_slice())?)
    } else {
        Ok(text)
    }
}

/// The same, or `None` if the file can't be read.
pub fn readable_program<R: Files + Env + Alloc<A = Global>>(
    rt: &R,
    path: &str,
) -> Result<Option<Vec<u8>>, AllocError> {
    match readable_bytes(rt, path)? {
        Some(text) if is_occam_file(path) => {
            Ok(Some(unit_of_text(rt, UnitQuestion::Unit, text.as_slice())?))
        }
        text => Ok(text),
    }
}
