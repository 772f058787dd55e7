//! The farm that stays up: see the library `live_farm`, to which it hands the words, the plan's file and the streams.
#![tactic(auto)]

ghost use Rattle.live_lines.specs.LiveRanges.{IsInRange};

use clap::error::ErrorKind;
use live_farm::{LiveFailure, LiveOutputs, Outlet, SharedOutlet, no_records, no_replays, run_live};
use live_lines::{LiveSettings, live_settings};
use plan_checker::{AcceptedPlan, accept_plan};
use record_files::{FileFailure, FileRecords, FileReplay, Notices, RecordFolder};
use script_text::{ReadFault, read_whole, write_whole};
use std::fs::File;
use std::io::{self, BufRead, BufReader};
use std::process::ExitCode;
use std::sync::{Mutex, Wait};
use std::thread::Threads;
use std::{env, fs};

/// What is asked for by the words.
#[derive(Drop)]
struct Start {
    settings: LiveSettings,
    plan: AcceptedPlan,
    ghost in_range: { IsInRange settings },
}

fn main(rt: HostRuntime) -> ExitCode {
    let alloc = rt.alloc();
    let errors = Mutex::new(rt.stderr());
    let outlet: Mutex<Outlet<_, 0>> = Mutex::new(Outlet::new(rt.stdout()));
    let ended = match (start_of(&rt), BufReader::new(alloc, rt.reader())) {
        (Ok(Some(start)), Ok(mut input)) => {
            let gauge = fs::open(&rt, "/proc/self/statm").ok();
            serve(&rt, &rt, start, &outlet, &mut input, &errors, gauge)
        }
        (Ok(Some(_)), Err(_)) => Err(LiveFailure::Memory),
        (Ok(None), _) => Ok(()),
        (Err(failure), _) => Err(failure),
    };
    ExitCode::from(match ended {
        Ok(()) => 0,
        Err(failure) => failure.report(alloc, &mut *errors.lock(&rt)),
    })
}

// Answers the lines of an input on a farm of the plan, and records it if that is asked for.
fn serve<R: Threads + Wait + Sync, I: BufRead + Send, O: SharedOutlet + Sync, N: Notices + Sync>(
    rt: &R,
    files: &HostRuntime,
    start: Start,
    outlet: &O,
    input: &mut I,
    errors: &N,
    gauge: Option<File>,
) -> Result<(), LiveFailure> {
    let alloc = files.alloc();
    let Start { settings, plan } = start;
    match &settings.records {
        Some(records) => {
            let path = records.path.as_str();
            let folder = RecordFolder::open(files, alloc, path, records.syncs)?;
            let (kept, replays): (
                FileRecords<'_, HostRuntime>,
                Vec<FileReplay<'_, HostRuntime>>,
            ) = folder.open_records(&plan, records.resumes)?;
            let outputs = LiveOutputs {
                records: kept.as_slice(),
                replays: replays.as_slice(),
                outlet,
                errors,
            };
            run_live(rt, alloc, plan, &settings, &outputs, input, gauge)?;
        }
        None => {
            let records = no_records(alloc, &plan)?;
            let replays = no_replays(alloc, &plan)?;
            let outputs = LiveOutputs {
                records: records.as_slice(),
                replays: replays.as_slice(),
                outlet,
                errors,
            };
            run_live(rt, alloc, plan, &settings, &outputs, input, gauge)?;
        }
    }
    Ok(())
}

// The words of the command line.
fn command_words(rt: &HostRuntime) -> Result<Vec<String>, LiveFailure> {
    match env::args(rt) {
        Ok(words) => Ok(words.collect(rt.alloc())?),
        Err(error) => Err(LiveFailure::of_arguments(&error)),
    }
}

// The settings and the plan that the words ask for. If they ask for the help alone, it is written.
fn start_of(rt: &HostRuntime) -> Result<Option<Start>, LiveFailure> {
    let words = command_words(rt)?;
    match live_settings(rt.alloc(), words.as_slice()) {
        Ok(settings) => {
            let plan = plan_in(rt, settings.path.as_str())?;
            Ok(Some(Start { settings, plan }))
        }
        Err(error) => {
            help(rt, error)?;
            Ok(None)
        }
    }
}

// Writes the text of `--help`, if that is why the words give no settings.
fn help(rt: &HostRuntime, error: clap::Error) -> Result<(), LiveFailure> {
    match error.kind() {
        ErrorKind::OutOfMemory => Err(LiveFailure::Memory),
        ErrorKind::DisplayHelp => {
            let text = format!(in rt.alloc(); "{error}")?;
            match write_whole(&mut rt.stdout(), text.as_bytes()) {
                Ok(()) => Ok(()),
                Err(_) => Err(LiveFailure::Io),
            }
        }
        _ => Err(LiveFailure::Words(error)),
    }
}

// That a call of the system on a file failed.
fn file_failure(rt: &HostRuntime, path: &str, error: io::Error) -> LiveFailure {
    LiveFailure::from(FileFailure::of_file(rt.alloc(), path, error))
}

// The bytes of a file.
fn bytes_in(rt: &HostRuntime, path: &str) -> Result<Vec<u8>, LiveFailure> {
    let mut file = match fs::open(rt, path) {
        Ok(file) => file,
        Err(error) => return Err(file_failure(rt, path, error)),
    };
    match read_whole(rt.alloc(), &mut file) {
        Ok(bytes) => Ok(bytes),
        Err(ReadFault::NoMemory) => Err(LiveFailure::Memory),
        Err(ReadFault::Failed) => {
            let error = io::Error::other("a read failed");
            Err(file_failure(rt, path, error))
        }
    }
}

// The plan in a file.
fn plan_in(rt: &HostRuntime, path: &str) -> Result<AcceptedPlan, LiveFailure> {
    let text = bytes_in(rt, path)?;
    accept_plan(rt.alloc(), text.as_slice()).map_err(LiveFailure::of_plan)
}
