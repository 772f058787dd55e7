//! Scripts with shorthand lines: spelled out, or run.

use crate::failure::wrong_run;
use crate::front_end::readable_program;
use lab_command::{LabFailure, ScriptUse, TerminalMeter, WRONG_TEXT, read_file};
use lab_script::{Expanded, LoadedFile, expand, files_named};
use lab_words::NumberedLineFault;
use script_replay::{record_script, run_script};
use script_text::{TextWriter, divide_at_plan_end, read_whole};
use std::alloc::{Alloc, AllocError, Global};
use std::env::Env;
use std::fs::Files;

/// Does this with the script in a file, or with the one on standard input. The files that it loads have their names from the
/// folder of that file, or from the one in which the program runs.
pub fn print_script(
    rt: &HostRuntime,
    script: Option<&str>,
    what: ScriptUse,
) -> Result<String, LabFailure> {
    let (folder, text) = match script {
        Some(path) => (folder_of(path), read_file(rt, path)?),
        None => (None, read_whole(rt.alloc(), &mut rt.reader())?),
    };
    match print_text(rt, folder, text.as_slice(), what) {
        Ok(printed) => Ok(printed),
        Err(failure) => Err(failure.of_source(text)),
    }
}

/// The folder that a file is in, if its path names one.
pub fn folder_of(path: &str) -> Option<&str> {
    match path.rsplit_once('/') {
        Some((folder, _)) => Some(folder),
        None => None,
    }
}

fn print_text(
    rt: &HostRuntime,
    folder: Option<&str>,
    text: &[u8],
    what: ScriptUse,
) -> Result<String, LabFailure> {
    match loaded_files(rt, folder, text) {
        Ok(files) => use_script(rt, text, files.as_slice(), what),
        Err(fault) => Err(LabFailure::of_numbered(rt.alloc(), fault)),
    }
}

/// The files that the lines of a script load, as far as they can be read.
pub fn loaded_files<'a, R: Files + Env + Alloc<A = Global>>(
    rt: &R,
    folder: Option<&str>,
    text: &'a [u8],
) -> Result<Vec<LoadedFile<'a>>, NumberedLineFault> {
    let names = files_named(rt.alloc(), text)?;
    Ok(read_files(rt, folder, names.as_slice())?)
}

// Does this with a script, whose lines may load these files.
fn use_script(
    rt: &HostRuntime,
    text: &[u8],
    files: &[LoadedFile],
    what: ScriptUse,
) -> Result<String, LabFailure> {
    match what {
        ScriptUse::Expand => print_expansion(rt.alloc(), text, files),
        ScriptUse::Run(most) => print_run(rt, text, files, most),
        ScriptUse::Record { domain, most } => print_record(rt, text, files, domain, most),
    }
}

fn print_run(
    rt: &HostRuntime,
    text: &[u8],
    files: &[LoadedFile],
    most: Option<u64>,
) -> Result<String, LabFailure> {
    let mut meter = TerminalMeter::begin(rt, most);
    let answers = run_script(rt.alloc(), text, files, &mut meter);
    meter.wipe();
    match answers {
        Ok(answers) => Ok(answers),
        Err(fault) => Err(wrong_run(rt.alloc(), fault)),
    }
}

/// The record of a domain after a script.
pub fn print_record(
    rt: &HostRuntime,
    text: &[u8],
    files: &[LoadedFile],
    domain: u8,
    most: Option<u64>,
) -> Result<String, LabFailure> {
    let mut meter = TerminalMeter::begin(rt, most);
    let record = record_script(rt.alloc(), text, files, domain, &mut meter);
    meter.wipe();
    match record {
        Ok(record) => Ok(record),
        Err(fault) => Err(wrong_run(rt.alloc(), fault)),
    }
}

fn print_expansion(alloc: Global, text: &[u8], files: &[LoadedFile]) -> Result<String, LabFailure> {
    if !divide_at_plan_end(text).has_plan_end {
        return Err(LabFailure::of_text(
            String::from_str(
                alloc,
                "no line is just ---: it stands between a plan and its script\n",
            ),
            WRONG_TEXT,
        ));
    }
    match expand(alloc, text, files) {
        Ok(expanded) => right_lines(expanded),
        Err(fault) => Err(LabFailure::of_numbered(alloc, fault)),
    }
}

// The lines of a script as they are spelled out, if none is wrong.
fn right_lines(expanded: Expanded) -> Result<String, LabFailure> {
    let Expanded { text, wrong } = expanded;
    if wrong.is_empty() {
        Ok(text)
    } else {
        Err(LabFailure::Shown {
            text: wrong,
            status: WRONG_TEXT,
        })
    }
}

/// The files of these names, from a folder or from the one in which the program runs, as far as they can be read.
pub fn read_files<'a, R: Files + Env + Alloc<A = Global>>(
    rt: &R,
    folder: Option<&str>,
    names: &[&'a str],
) -> Result<Vec<LoadedFile<'a>>, AllocError> {
    let mut files = Vec::new(rt.alloc());
    for name in names {
        files.push(loaded_file(rt, folder, *name)?)?;
    }
    Ok(files)
}

// A file with its text, or the unit of its text if that is of occam, if it can be read.
fn loaded_file<'a, R: Files + Env + Alloc<A = Global>>(
    rt: &R,
    folder: Option<&str>,
    name: &'a str,
) -> Result<LoadedFile<'a>, AllocError> {
    let path = path_of(rt.alloc(), folder, name)?;
    Ok(LoadedFile {
        name,
        text: readable_program(rt, path.as_str())?,
    })
}

fn path_of(alloc: Global, folder: Option<&str>, name: &str) -> Result<String, AllocError> {
    match folder {
        Some(folder) if !name.starts_with("/") => format!(in alloc; "{folder}/{name}"),
        _ => String::from_str(alloc, name),
    }
}
