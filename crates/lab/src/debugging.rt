//! A record is looked through by commands.

use crate::failure::wrong_debugging;
use crate::front_end::{lines_with_help, readable_program};
use crate::programs::{WrongProgram, program_of_text};
use lab_command::{ArgumentFault, Debugging, LabFailure, TerminalMeter, read_file};
use lab_debug::{DebugFault, Debugger, FoundProgram, ProgramFiles, ProgramOf, debug};
use lab_script::is_occam_file;
use script_text::decimal_number;
use std::alloc::{AllocError, Global};
use std::io::{BufReader, IsTerminal};

/// Programs are those of files.
#[derive(Clone, Copy)]
struct Files<'a>(&'a HostRuntime);

impl ProgramFiles for Files<'_> {
    fn program_of(&self, file: &str) -> Result<FoundProgram, AllocError> {
        let Some(text) = readable_program(self.0, file)? else {
            return Ok(FoundProgram::Unreadable);
        };
        match program_of_text(self.0.alloc(), file, text) {
            Ok(program) => Ok(FoundProgram::Program(program)),
            // the front end itself says what is wrong with a text of occam
            Err(WrongProgram::Shown(mistakes)) if is_occam_file(file) => {
                Ok(FoundProgram::Wrong(mistakes))
            }
            Err(WrongProgram::Shown(mistakes)) => {
                Ok(FoundProgram::Wrong(lines_with_help(self.0, mistakes, &[])?))
            }
            Err(WrongProgram::Memory) => Err(AllocError),
        }
    }
}

/// Reads commands from standard input to its end, and shows what they ask of the record in a file. Nothing is left to print.
/// Wrong words of the command line are reported before the file is read.
pub fn print_debugging(rt: &HostRuntime, asked: &Debugging) -> Result<String, LabFailure> {
    match read_programs(rt.alloc(), asked.programs.as_slice()) {
        Ok(programs) => {
            let record = read_file(rt, asked.record)?;
            print_record(rt, asked, programs.as_slice(), record.as_slice())
        }
        Err(fault) => Err(LabFailure::of_argument(rt.alloc(), fault)),
    }
}

/// The programs of nodes, by the numbers of the nodes and the files.
pub fn read_programs<'a>(
    alloc: Global,
    words: &[&'a str],
) -> Result<Vec<ProgramOf<'a>>, ArgumentFault> {
    let mut programs = Vec::new(alloc);
    for pair in words.chunks(2) {
        programs.push(program_of(pair)?)?;
    }
    Ok(programs)
}

fn program_of<'a>(pair: &[&'a str]) -> Result<ProgramOf<'a>, ArgumentFault> {
    let [node, file] = pair else {
        return Err(ArgumentFault::Program);
    };
    match decimal_number(node) {
        Some(number) if number < 256 => Ok(ProgramOf {
            node: number as u8,
            file: *file,
        }),
        _ => Err(ArgumentFault::Program),
    }
}

fn print_record(
    rt: &HostRuntime,
    asked: &Debugging,
    programs: &[ProgramOf],
    record: &[u8],
) -> Result<String, LabFailure> {
    match look_through(rt, asked, programs, record) {
        Ok(()) => Ok(String::new(rt.alloc())),
        Err(fault) => Err(wrong_debugging(rt.alloc(), fault)),
    }
}

fn look_through(
    rt: &HostRuntime,
    asked: &Debugging,
    programs: &[ProgramOf],
    record: &[u8],
) -> Result<(), DebugFault> {
    let mut debugger = open_debugger(rt, record, asked.most)?;
    do_commands(rt, programs, &mut debugger)
}

// Does the commands on standard input.
fn do_commands(
    rt: &HostRuntime,
    programs: &[ProgramOf],
    debugger: &mut Debugger,
) -> Result<(), DebugFault> {
    let mut input = BufReader::new(rt.alloc(), rt.reader())?;
    debug(
        rt.alloc(),
        debugger,
        programs,
        &Files(rt),
        &mut input,
        &mut rt.stdout(),
        rt.stdin().is_terminal(),
    )
}

/// A record at its end, if it has no more Steps than these.
pub fn open_debugger<'a>(
    rt: &HostRuntime,
    record: &'a [u8],
    most: Option<u64>,
) -> Result<Debugger<'a>, DebugFault> {
    let mut meter = TerminalMeter::begin(rt, most);
    let opened = Debugger::open(rt.alloc(), record, &mut meter);
    meter.wipe();
    opened
}
