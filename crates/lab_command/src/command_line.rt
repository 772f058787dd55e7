//! What the words of the command line ask.

use crate::arguments::arg_of;
use crate::failure::{ArgumentFault, LabFailure, WRONG_WORDS};
use crate::request::{
    AssemblyOptions, BootOptions, BootedCode, Debugging, Explaining, LabRequest, NodeRequest,
    OccamForm, OccamRequest, RowFiles, ScriptUse, Showing, TracedScript,
};
use crate::subcommand::{SUBCOMMANDS, Subcommand};
use clap::error::ErrorKind;
use clap::{ArgMatches, Command};
use node_memory::is_memory_size;
use std::alloc::{Alloc, AllocError, Global};
use std::env::{self, Env};
use std::io;

/// How many Steps are traced unless the words say it.
pub const USUAL_STEPS: u64 = 1000;

// How many frames a film has at most unless the words say it.
const USUAL_COUNT: u64 = 100_000;

/// What is printed below the help.
const AFTER_HELP: &str = "\
Example:
  lab plan < examples/two-users.farm

Each subcommand tells by --help what it reads. docs/LAB.md has them all.";

/// What the words of the command line ask for.
#[derive(Drop)]
pub enum CommandLine<'a> {
    /// This text, which is help.
    Help(String),
    /// The answer to this.
    Request(LabRequest<'a>),
}

/// The words of the command line. The first is the program's name.
pub fn command_words<R: Env + Alloc<A = Global>>(rt: &R) -> Result<Vec<String>, LabFailure> {
    match env::args(rt) {
        Ok(words) => Ok(words.collect(rt.alloc())?),
        Err(error) if error.kind() == io::ErrorKind::OutOfMemory => Err(LabFailure::Memory),
        Err(_) => Err(LabFailure::of_argument(rt.alloc(), ArgumentFault::Arguments)),
    }
}

/// What these words ask.
pub fn read_command_line<'a>(
    alloc: Global,
    words: &'a [String],
) -> Result<CommandLine<'a>, LabFailure> {
    match matches_of(alloc, words) {
        Ok(matches) => asked_by(alloc, &matches),
        Err(error) => match help_of(alloc, words, &error) {
            Ok(text) => Ok(CommandLine::Help(text)),
            Err(failure) => Err(failure),
        },
    }
}

// What is asked by the words in which the parser finds this.
fn asked_by<'a>(alloc: Global, matches: &ArgMatches<'a>) -> Result<CommandLine<'a>, LabFailure> {
    match read_matches(alloc, matches) {
        Ok(request) => Ok(CommandLine::Request(request)),
        Err(fault) => Err(LabFailure::of_argument(alloc, fault)),
    }
}

// What the parser finds in the words.
fn matches_of<'a>(alloc: Global, words: &'a [String]) -> Result<ArgMatches<'a>, clap::Error> {
    let lab = lab_command(alloc)?;
    lab.try_get_matches_from(words)
}

// The text of `--help`, if that is asked for, and else what is wrong with the words.
fn help_of(alloc: Global, words: &[String], error: &clap::Error) -> Result<String, LabFailure> {
    match error.kind() {
        ErrorKind::OutOfMemory => Err(LabFailure::Memory),
        ErrorKind::DisplayHelp => Ok(format!(in alloc; "{error}")?),
        ErrorKind::UnknownArgument => Err(unknown_word(alloc, words, error)),
        _ => Err(LabFailure::of_words(alloc, error)),
    }
}

// The parser doesn't know a word. It may be a file, though only standard input is read.
fn unknown_word(alloc: Global, words: &[String], error: &clap::Error) -> LabFailure {
    match file_named(words) {
        Some((subcommand, file)) => unread_file(alloc, subcommand, file),
        None => LabFailure::of_words(alloc, error),
    }
}

// The words name a file, and this subcommand reads standard input.
fn unread_file(alloc: Global, subcommand: Subcommand, file: &str) -> LabFailure {
    let name = subcommand.name();
    let others = match subcommand {
        Subcommand::Trace => {
            ", or --program before the file of a program, or --plan before that of a script"
        }
        _ => "",
    };
    LabFailure::of_text(
        format!(in alloc; "error: lab {name} reads standard input: lab {name} < {file}{others}\n"),
        WRONG_WORDS,
    )
}

// The subcommand, and the file that is the last word after it, if only standard input is read.
fn file_named(words: &[String]) -> Option<(Subcommand, &str)> {
    let [_, name, behind @ ..] = words else {
        return None;
    };
    let subcommand = Subcommand::of(name.as_str())?;
    let file = file_behind(subcommand, behind)?;
    Some((subcommand, file))
}

// The last of the words after a subcommand, if it is no option, and if each of them that is one belongs to the subcommand.
fn file_behind(subcommand: Subcommand, behind: &[String]) -> Option<&str> {
    let last = behind.last()?.as_str();
    if !subcommand.reads_input() || last.starts_with("-") {
        return None;
    }
    for word in behind {
        if !is_known(subcommand, word.as_str()) {
            return None;
        }
    }
    Some(last)
}

// Whether a word is an option of a subcommand, or none at all.
fn is_known(subcommand: Subcommand, word: &str) -> bool {
    let Some(name) = word.strip_prefix("--") else {
        return !word.starts_with("-");
    };
    for argument in subcommand.arguments() {
        if argument.is(name) {
            return true;
        }
    }
    false
}

// The command, whichever of the programs reads it.
fn lab_command<'a>(alloc: Global) -> Result<Command<'a>, AllocError> {
    let mut lab = Command::new(alloc, "lab")
        .bin_name("lab")?
        .about("A laboratory for the farm of T414 processors")
        .after_help(AFTER_HELP)
        .subcommand_required(true);
    for subcommand in &SUBCOMMANDS {
        lab = lab.subcommand(subcommand_of(alloc, *subcommand)?)?;
    }
    Ok(lab)
}

// A subcommand with its arguments.
fn subcommand_of<'a>(alloc: Global, subcommand: Subcommand) -> Result<Command<'a>, AllocError> {
    let name: &'a str = subcommand.name();
    let mut command = Command::new(alloc, name).about(subcommand.about());
    for argument in subcommand.arguments() {
        command = command.arg(arg_of(alloc, *argument))?;
    }
    Ok(command)
}

// What is asked by the words in which the parser finds this.
fn read_matches<'a>(
    alloc: Global,
    matches: &ArgMatches<'a>,
) -> Result<LabRequest<'a>, ArgumentFault> {
    let Some((name, matches)) = matches.subcommand() else {
        return Err(ArgumentFault::Subcommand);
    };
    match Subcommand::of(name) {
        Some(subcommand) => read_subcommand(alloc, subcommand, matches),
        None => Err(ArgumentFault::Subcommand),
    }
}

// What the words after a subcommand ask for.
fn read_subcommand<'a>(
    alloc: Global,
    subcommand: Subcommand,
    matches: &ArgMatches<'a>,
) -> Result<LabRequest<'a>, ArgumentFault> {
    match subcommand {
        Subcommand::Replay => Ok(LabRequest::Replay(steps_of(matches))),
        Subcommand::Plan => Ok(LabRequest::Plan),
        Subcommand::Trace => read_trace(alloc, matches),
        Subcommand::Assemble => Ok(LabRequest::Node(NodeRequest::Assemble(read_options(matches)))),
        Subcommand::Disassemble => Ok(LabRequest::Node(NodeRequest::Disassemble)),
        Subcommand::Occam => read_occam_request(matches),
        Subcommand::Rows => read_rows(alloc, matches),
        Subcommand::Why => read_why(alloc, matches),
        Subcommand::Film => read_film(alloc, matches),
        Subcommand::Expand => Ok(LabRequest::Script(matches.get_str("script"), ScriptUse::Expand)),
        Subcommand::Run => Ok(LabRequest::Script(matches.get_str("script"), run_of(matches))),
        Subcommand::Debug => read_debugging(alloc, matches),
    }
}

fn read_rows<'a>(alloc: Global, matches: &ArgMatches<'a>) -> Result<LabRequest<'a>, ArgumentFault> {
    let files = Vec::from_slice(alloc, matches.get_strs("file").unwrap_or(&[]))?;
    Ok(LabRequest::Rows(RowFiles {
        files,
        most: steps_of(matches),
    }))
}

// What `run` does with a script.
fn run_of(matches: &ArgMatches) -> ScriptUse {
    let most = steps_of(matches);
    match matches.get_one::<u8>("record") {
        Some(domain) => ScriptUse::Record { domain, most },
        None => ScriptUse::Run(most),
    }
}

// How many Steps may be done, if the words say it.
fn steps_of(matches: &ArgMatches) -> Option<u64> {
    matches.get_one::<u64>("steps")
}

fn read_options<'a>(matches: &ArgMatches<'a>) -> AssemblyOptions<'a> {
    AssemblyOptions {
        listing: matches.get_flag("listing"),
        pokes: match matches.get_strs("pokes") {
            Some([host, user, ..]) => Some((*host, *user)),
            _ => None,
        },
    }
}

fn read_occam_request<'a>(matches: &ArgMatches<'a>) -> Result<LabRequest<'a>, ArgumentFault> {
    let Some(file) = matches.get_str("file") else {
        return Err(ArgumentFault::Subcommand);
    };
    Ok(LabRequest::Occam(OccamRequest {
        file,
        form: occam_form(matches)?,
        memory: memory_of(matches)?,
    }))
}

// As what a compiled program is printed: in one form alone.
fn occam_form<'a>(matches: &ArgMatches<'a>) -> Result<OccamForm<'a>, ArgumentFault> {
    let forms = [
        ("code", OccamForm::Code),
        ("listing", OccamForm::Listing),
        ("core", OccamForm::Core),
        ("sizes", OccamForm::Sizes),
    ];
    let mut asked = pokes_form(matches);
    for (name, form) in &forms {
        if matches.get_flag(name) {
            if asked.is_some() {
                return Err(ArgumentFault::OccamForms);
            }
            asked = Some(*form);
        }
    }
    Ok(asked.unwrap_or(OccamForm::Text))
}

// The lines of a script, if the words ask for them.
fn pokes_form<'a>(matches: &ArgMatches<'a>) -> Option<OccamForm<'a>> {
    match matches.get_strs("pokes") {
        Some([host, user, ..]) => Some(OccamForm::Pokes {
            host: *host,
            user: *user,
        }),
        _ => None,
    }
}

// How many bytes of memory the node has, if the words say it.
fn memory_of(matches: &ArgMatches) -> Result<Option<u32>, ArgumentFault> {
    match matches.get_one::<u64>("memory") {
        None => Ok(None),
        Some(size) => match u32::try_from(size) {
            Ok(size) if is_memory_size(size as usize) => Ok(Some(size)),
            _ => Err(ArgumentFault::MemorySize),
        },
    }
}

// The file of a record, which the parser has found.
fn record_of<'a>(matches: &ArgMatches<'a>) -> Result<&'a str, ArgumentFault> {
    match matches.get_str("record") {
        Some(record) => Ok(record),
        None => Err(ArgumentFault::Subcommand),
    }
}

fn read_why<'a>(alloc: Global, matches: &ArgMatches<'a>) -> Result<LabRequest<'a>, ArgumentFault> {
    let record = record_of(matches)?;
    let programs = Vec::from_slice(alloc, matches.get_strs("program").unwrap_or(&[]))?;
    Ok(LabRequest::Why(Explaining {
        record,
        programs,
        events: matches.get_one::<u64>("at").unwrap_or(u64::MAX),
        most: steps_of(matches),
    }))
}

fn read_film<'a>(alloc: Global, matches: &ArgMatches<'a>) -> Result<LabRequest<'a>, ArgumentFault> {
    let record = record_of(matches)?;
    let programs = Vec::from_slice(alloc, matches.get_strs("program").unwrap_or(&[]))?;
    Ok(LabRequest::Film(Showing {
        record,
        programs,
        from: matches.get_one::<u64>("from").unwrap_or(0),
        count: matches.get_one::<u64>("count").unwrap_or(USUAL_COUNT),
        most: steps_of(matches),
    }))
}

fn read_debugging<'a>(
    alloc: Global,
    matches: &ArgMatches<'a>,
) -> Result<LabRequest<'a>, ArgumentFault> {
    let record = record_of(matches)?;
    let programs = Vec::from_slice(alloc, matches.get_strs("program").unwrap_or(&[]))?;
    Ok(LabRequest::Debug(Debugging {
        record,
        programs,
        most: steps_of(matches),
    }))
}

// Whether a word says with which code a node is booted.
fn is_booted(matches: &ArgMatches) -> bool {
    matches.get_str("boot").is_some() || matches.get_str("program").is_some()
}

// Refuses options of `trace` that don't go together.
fn check_trace(matches: &ArgMatches) -> Result<(), ArgumentFault> {
    let is_planned = matches.get_str("plan").is_some();
    let has_both = matches.get_str("boot").is_some() && matches.get_str("program").is_some();
    let needs_boot = matches.get_str("until").is_some() || matches.get_strs("input").is_some();
    let needs_plan = matches.get_one::<u8>("domain").is_some();
    if has_both || is_planned && is_booted(matches) {
        return Err(ArgumentFault::TwoCodes);
    }
    if needs_boot && !is_booted(matches) || needs_plan && !is_planned {
        return Err(ArgumentFault::TraceOptions);
    }
    Ok(())
}

fn read_trace<'a>(
    alloc: Global,
    matches: &ArgMatches<'a>,
) -> Result<LabRequest<'a>, ArgumentFault> {
    check_trace(matches)?;
    if is_booted(matches) {
        return read_boot(alloc, matches);
    }
    let steps = steps_of(matches);
    Ok(match matches.get_str("plan") {
        Some(script) => LabRequest::TraceScript(TracedScript {
            script,
            domain: matches.get_one::<u8>("domain").unwrap_or(0),
            most: steps,
        }),
        None => LabRequest::Node(NodeRequest::Trace(steps)),
    })
}

fn read_boot<'a>(alloc: Global, matches: &ArgMatches<'a>) -> Result<LabRequest<'a>, ArgumentFault> {
    let inputs = Vec::from_slice(alloc, matches.get_strs("input").unwrap_or(&[]))?;
    Ok(LabRequest::Node(NodeRequest::Boot(BootOptions {
        code: booted_code(matches),
        steps: steps_of(matches).unwrap_or(USUAL_STEPS),
        until: matches.get_str("until"),
        inputs,
    })))
}

fn booted_code<'a>(matches: &ArgMatches<'a>) -> BootedCode<'a> {
    match matches.get_str("program") {
        Some(file) => BootedCode::Program(file),
        None => BootedCode::Digits(matches.get_str("boot").unwrap_or("")),
    }
}
