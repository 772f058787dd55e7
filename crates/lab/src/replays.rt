//! Texts that are replayed on farms.

use crate::failure::wrong_replay;
use crate::scripts::read_files;
use lab_command::{LabFailure, TerminalMeter, print_answers};
use lab_words::Answered;
use script_replay::{ReplayFault, files_loaded, replay};
use script_text::read_whole;
use std::alloc::{Alloc, Global};
use std::env::Env;
use std::fs::Files;

/// Replays a text, whose lines load files from a folder, or from the one in which the program runs.
pub fn replay_with_files<'a, R: Files + Env + Alloc<A = Global>>(
    rt: &R,
    folder: Option<&str>,
    text: &'a [u8],
    meter: &mut TerminalMeter,
) -> Result<Vec<Answered<'a>>, ReplayFault> {
    let names = files_loaded(rt.alloc(), text)?;
    let files = read_files(rt, folder, names.as_slice())?;
    replay(rt.alloc(), text, files.as_slice(), meter)
}

// The same of the text of standard input, if it needs no more Steps than these.
fn replayed_input<'a>(
    rt: &HostRuntime,
    most: Option<u64>,
    text: &'a [u8],
) -> Result<Vec<Answered<'a>>, ReplayFault> {
    let mut meter = TerminalMeter::begin(rt, most);
    let replayed = replay_with_files(rt, None, text, &mut meter);
    meter.wipe();
    replayed
}

/// What the lines of standard input are answered, if they need no more Steps than these.
pub fn print_replayed(rt: &HostRuntime, most: Option<u64>) -> Result<String, LabFailure> {
    let text = read_whole(rt.alloc(), &mut rt.reader())?;
    match replayed_input(rt, most, text.as_slice()) {
        Ok(answers) => print_answers(rt.alloc(), answers.as_slice()),
        Err(fault) => Err(wrong_replay(rt.alloc(), fault)),
    }
}
