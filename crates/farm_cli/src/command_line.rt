//! The settings that the words of the command line give.
ghost use Rattle.std.specs.Prelude.{◌≡◌, false, IfOk, map};
ghost use Rattle.clap.specs.Words.{FailsBy, app_of, fault_of, rule_of};
ghost use Rattle.farm_cli.specs.Settings.{AreSaid, InRange, farm_command, number_option};

use crate::configuration::Settings;
use clap::builder::ValueParser;
use clap::{Arg, ArgAction, Command, value_parser};
use std::alloc::{AllocError, Global};
use std::convert::AsStr;

const DEFAULT_WORKERS: u8 = 2;

const DEFAULT_QUANTUM: u16 = 256;

/// What is printed below the help.
const AFTER_HELP: &str = "\
./farm --explain runs a script as ./farm does. If the text is refused, it also tells who wrote each
wrong line and what to write, or where the plan is wrong.

Example:
  farm < examples/two-users.farm

docs/guides/OPERATOR.md says how to write a plan, docs/guides/USER.md what to ask of it.";

// An option `--name N` for a number, with the text that stands for it where it isn't given.
fn number_option<'a>(
    alloc: Global,
    name: &'a str,
    help: &'a str,
    default: &'a str,
    numbers: ValueParser<'a>,
) -> Arg<'a>
    ensures rule { rule_of result ≡ number_option name.entry.now default.entry.now numbers.entry }
    ensures local { result.global ≡ false }
{
    Arg::new(alloc, name)
        .long(name)
        .value_name("N")
        .help(help)
        .default_value(default)
        .action(ArgAction::Set)
        .value_parser(numbers)
}

// The program's command line.
fn farm_command<'a>(alloc: Global) -> Result<Command<'a>, AllocError>
    ensures { IfOk result (λ command. app_of command ≡ farm_command) }
{
    let command = Command::new(alloc, "farm")
        .about("Runs scripts on a farm of T414 processors")
        .after_help(AFTER_HELP);
    let workers = number_option(
        alloc,
        "workers",
        "How many workers step the nodes, 1 to 8",
        "2",
        value_parser!(u8).range(1..=8),
    );
    let command = command.arg(workers)?;
    let quantum = number_option(
        alloc,
        "quantum",
        "How many Steps a node does at a time while packets move, 1 to 4096",
        "256",
        value_parser!(u16).range(1..=4096),
    );
    command.arg(quantum)
}

/// Reads the words of the command line. The first is the program's name. The options are
/// `--workers N`, 1 to 8, default 2, and `--quantum N`, 1 to 4,096, default 256. The error is
/// `clap`'s: `--help` is one, and that memory ran out another.
pub fn settings<S: AsStr>(alloc: Global, words: &[S]) -> Result<Settings, clap::Error>
    ensures in_range { IfOk result InRange }
    ensures said { IfOk result (AreSaid (map S.text words.now)) }
    ensures refused { FailsBy (fault_of farm_command (map S.text words.now)) result }
{
    let matches = farm_command(alloc)?.try_get_matches_from(words)?;
    // Each has a number, that of the words or its default's.
    let workers = matches.get_one("workers").unwrap_or(DEFAULT_WORKERS);
    let quantum = matches.get_one("quantum").unwrap_or(DEFAULT_QUANTUM);
    Ok(Settings { workers, quantum })
}
