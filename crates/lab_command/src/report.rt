//! What goes to standard output, and the status.

use crate::failure::LabFailure;
use lab_words::Answered;
use script_text::{TextWriter, write_whole};
use std::alloc::Global;
use std::process::ExitCode;

/// A text for standard output, and the status of the process.
#[derive(Drop)]
pub struct Report {
    pub text: String,
    /// What is written to standard error, if anything is.
    pub warnings: Option<String>,
    pub status: u8,
}

impl Report {
    /// A text, if there is one, and the status 0.
    pub fn of(text: Result<String, LabFailure>) -> Result<Report, LabFailure> {
        match text {
            Ok(text) => Ok(Report {
                text,
                warnings: None,
                status: 0,
            }),
            Err(failure) => Err(failure),
        }
    }
}

/// Writes a report to standard output and its warnings to standard error, or why there is none to standard error, and gives the
/// status. If the warnings can't be written, the status stays.
pub fn end_with(rt: &HostRuntime, report: Result<Report, LabFailure>) -> ExitCode {
    ExitCode::from(match report {
        Ok(
            Report {
                text,
                warnings,
                status,
            },
        ) => {
            if let Some(warnings) = warnings {
                let _ = write_whole(&mut rt.stderr(), warnings.as_bytes());
            }
            match write_whole(&mut rt.stdout(), text.as_bytes()) {
                Ok(()) => status,
                Err(_) => LabFailure::Io.tell(&mut rt.stderr()),
            }
        }
        Err(failure) => failure.tell(&mut rt.stderr()),
    })
}

/// What lines are answered, each answer on lines of its own.
pub fn print_answers(alloc: Global, answers: &[Answered]) -> Result<String, LabFailure> {
    let mut text = TextWriter::new(alloc);
    for answered in answers {
        text.push(answered.answer.as_str());
        text.push("\n");
    }
    Ok(text.finish()?)
}
