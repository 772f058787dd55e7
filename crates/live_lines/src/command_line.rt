//! The settings that the words of the command line give.
ghost use Rattle.std.specs.Prelude.{◌≡◌, ◌≤◌, [], false, IfOk, IfSome, codes, map, pos, unwrap_or};
ghost use Rattle.clap.specs.declared.builder.value_parser.ValueParser.TheVariants.{Signed};
ghost use Rattle.clap.specs.Words.{app_of, first_value, found_of, rows_of, rule_of};
ghost use Rattle.live_lines.specs.LiveRanges.{IsBound, IsInRange};
ghost use Rattle.live_lines.specs.LiveSettings.{AreSettingsIn, AreSettingsSaid, AreSaidRecords, HasUnit, IsSaidSize, IsSize};
ghost use Rattle.live_lines.specs.LiveSettings.{flag_option, live_command, counted_option, plan_argument, size_option, value_option};

use clap::error::ErrorKind;
use clap::{Arg, ArgAction, ArgMatches, Command, value_parser};
use std::alloc::{AllocError, Global};
use std::convert::AsStr;

const DEFAULT_WORKERS: u8 = 2;

const DEFAULT_QUANTUM: u16 = 256;

/// The least and the greatest bound, in bytes of a room or in Steps.
const LEAST_BOUND: u64 = 1 << 20;

const GREATEST_BOUND: u64 = 1 << 36;

/// What comes after the help.
const AFTER_HELP: &str = "\
Example:
  live plan.toml

docs/LIVE.md says what lines there are.";

/// Where the farm is recorded.
#[derive(Drop)]
pub struct RecordSettings {
    /// The path of the folder.
    pub path: String,
    /// Whether the farm goes on with the records that are there.
    pub resumes: bool,
    /// Whether each answer waits for the disk.
    pub syncs: bool,
}

/// The plan's file, how many workers step the nodes, and how many Steps each does at a time.
pub struct LiveSettings {
    /// The path of the plan.
    pub path: String,
    /// 1 to 8.
    pub workers: u8,
    /// 1 to 4,096 Steps.
    pub quantum: u16,
    /// Where the farm is recorded, if it is.
    pub records: Option<RecordSettings>,
    /// How many bytes of memory the journal of a domain and the lists of its users may take, 1 MiB to 64 GiB.
    pub room: u64,
    /// How many bytes the records of a domain may take on disk, 1 MiB to 64 GiB.
    pub record_room: u64,
    /// How many events the nodes of a domain may record after a line of its users, 2^20 to 2^36.
    pub line_steps: u64,
    /// How many events a domain may record before its nodes rest until a restart, 2^20 to 2^36.
    pub restart_steps: u64,
}

// Dropped by hand, since a derived `Drop` makes callers prove the drop of each field.
impl Drop for LiveSettings {
    fn drop(self) {
        let LiveSettings {
            path: _,
            workers: _,
            quantum: _,
            records: _,
            room: _,
            record_room: _,
            line_steps: _,
            restart_steps: _,
        } = self;
    }
}

// The text of an argument, or none.
fn text_in<'a>(matches: &ArgMatches<'a>, name: &str) -> &'a str
    ensures { result.now ≡ unwrap_or (first_value (found_of matches.now) name.now) [] }
{
    match matches.get_str(name) {
        Some(text) => text,
        None => "",
    }
}

// Where the farm is recorded.
fn records_in(alloc: Global, matches: &ArgMatches) -> Result<Option<RecordSettings>, AllocError>
    ensures { IfOk result (AreSaidRecords (rows_of (found_of matches.now))) }
{
    match matches.get_str("record") {
        Some(path) => Ok(Some(RecordSettings {
            path: String::from_str(alloc, path)?,
            resumes: matches.get_flag("resume"),
            syncs: matches.get_flag("sync"),
        })),
        None => Ok(None),
    }
}

// What was matched.
fn settings_in(alloc: Global, matches: &ArgMatches) -> Result<LiveSettings, clap::Error>
    ensures in_range { IfOk result IsInRange }
    ensures said { IfOk result (AreSettingsIn (rows_of (found_of matches.now))) }
{
    Ok(LiveSettings {
        path: String::from_str(alloc, text_in(matches, "plan"))?,
        workers: workers_of(matches.get_one::<u8>("workers")),
        quantum: quantum_of(matches.get_one::<u16>("quantum")),
        records: records_in(alloc, matches)?,
        room: bound_in(alloc, matches, "room")?,
        record_room: bound_in(alloc, matches, "record-room")?,
        line_steps: bound_in(alloc, matches, "line-steps")?,
        restart_steps: bound_in(alloc, matches, "restart-steps")?,
    })
}

// What a word has before K, M or G, and how many times as much the letter says: 1,024, or 1,024 or 1,048,576 times that. If
// there is no such letter it is the whole word, and once.
fn unit_in(word: &str) -> (&str, u64)
    ensures { HasUnit word.now result.0.now result.1 }
{
    if let Some(digits) = word.strip_suffix("K") {
        return (digits, 1 << 10);
    }
    if let Some(digits) = word.strip_suffix("M") {
        return (digits, 1 << 20);
    }
    if let Some(digits) = word.strip_suffix("G") {
        return (digits, 1 << 30);
    }
    (word, 1)
}

// What size a word says: a number, with its unit.
fn parse_size(word: &str) -> Option<u64>
    ensures { IfSome result (IsSize word.now) }
{
    if word.starts_with('+') {
        return None;
    }
    let (digits, unit) = unit_in(word);
    let count = digits.parse::<u64>().ok()?;
    count.checked_mul(unit)
}

// The bound that a word says, if it is one that a domain may have.
fn parse_bound(word: &str) -> Option<u64>
    ensures bound { IfSome result IsBound }
    ensures size { IfSome result (IsSize word.now) }
{
    match parse_size(word) {
        Some(bytes) if (LEAST_BOUND..=GREATEST_BOUND).contains(&bytes) => Some(bytes),
        _ => None,
    }
}

// The bound that an option says. It has a default.
fn bound_in(alloc: Global, matches: &ArgMatches, name: &'static str) -> Result<u64, clap::Error>
    ensures bound { IfOk result IsBound }
    ensures said { IfOk result (IsSaidSize (rows_of (found_of matches.now)) name.now) }
{
    let word = text_in(matches, name);
    match parse_bound(word) {
        Some(bytes) => Ok(bytes),
        None => Err(wrong_bound(alloc, name, word)?),
    }
}

// That a word is no such bound.
fn wrong_bound(alloc: Global, name: &str, word: &str) -> Result<clap::Error, AllocError> {
    let message = format!(in alloc;
        "invalid value '{word}' for '--{name} <SIZE>': it is no number from 1M to 64G"
    )?;
    live_command(alloc)?.error(ErrorKind::ValueValidation, message.as_str())
}

// An option that takes a value.
fn value_option(
    alloc: Global,
    name: &'static str,
    value: &'static str,
    help: &'static str,
) -> Arg<'static>
    ensures rule { rule_of result ≡ value_option name.now }
    ensures local { result.global ≡ false }
{
    Arg::new(alloc, name)
        .long(name)
        .value_name(value)
        .help(help)
        .action(ArgAction::Set)
}

// An option of records, which goes with `--record` alone.
fn record_flag(
    alloc: Global,
    name: &'static str,
    help: &'static str,
) -> Result<Arg<'static>, AllocError>
    ensures rule { IfOk result (λ arg. rule_of arg ≡ flag_option name.now) }
    ensures local { IfOk result (λ arg. arg.global ≡ false) }
{
    Arg::new(alloc, name)
        .long(name)
        .help(help)
        .action(ArgAction::SetTrue)
        .requires_arg("record")
}

fn plan_argument(alloc: Global) -> Arg<'static>
    ensures rule { rule_of result ≡ plan_argument }
    ensures local { result.global ≡ false }
{
    Arg::new(alloc, "plan")
        .value_name("PLAN")
        .help("The file of the plan")
        .required(true)
        .action(ArgAction::Set)
}

fn workers_option(alloc: Global) -> Arg<'static>
    ensures rule { rule_of result ≡ counted_option (codes "workers") (codes "2") (Signed (pos 1) (pos 8)) }
    ensures local { result.global ≡ false }
{
    value_option(
        alloc,
        "workers",
        "N",
        "How many workers step the nodes, 1 to 8",
    )
    .default_value("2")
    .value_parser(value_parser!(u8).range(1..=8))
}

fn quantum_option(alloc: Global) -> Arg<'static>
    ensures rule { rule_of result ≡ counted_option (codes "quantum") (codes "256") (Signed (pos 1) (pos 4096)) }
    ensures local { result.global ≡ false }
{
    value_option(
        alloc,
        "quantum",
        "N",
        "How many Steps a node does at a time while packets move, 1 to 4096",
    )
    .default_value("256")
    .value_parser(value_parser!(u16).range(1..=4096))
}

fn record_option(alloc: Global) -> Arg<'static>
    ensures rule { rule_of result ≡ value_option (codes "record") }
    ensures local { result.global ≡ false }
{
    value_option(
        alloc,
        "record",
        "DIR",
        "Records what each domain answers in files of this folder",
    )
}

fn room_option(alloc: Global) -> Arg<'static>
    ensures rule { rule_of result ≡ size_option (codes "room") (codes "64M") }
    ensures local { result.global ≡ false }
{
    value_option(
        alloc,
        "room",
        "SIZE",
        "How many bytes of memory a domain may take for what it answers, 1M to 64G",
    )
    .default_value("64M")
}

fn record_room_option(alloc: Global) -> Arg<'static>
    ensures rule { rule_of result ≡ size_option (codes "record-room") (codes "256M") }
    ensures local { result.global ≡ false }
{
    value_option(
        alloc,
        "record-room",
        "SIZE",
        "How many bytes the records of a domain may take on disk, 1M to 64G",
    )
    .default_value("256M")
}

fn line_steps_option(alloc: Global) -> Arg<'static>
    ensures rule { rule_of result ≡ size_option (codes "line-steps") (codes "16G") }
    ensures local { result.global ≡ false }
{
    value_option(
        alloc,
        "line-steps",
        "SIZE",
        "How many Steps the nodes of a domain may do after a line of its users, 1M to 64G",
    )
    .default_value("16G")
}

fn restart_steps_option(alloc: Global) -> Arg<'static>
    ensures rule { rule_of result ≡ size_option (codes "restart-steps") (codes "64G") }
    ensures local { result.global ≡ false }
{
    value_option(
        alloc,
        "restart-steps",
        "SIZE",
        "How many Steps the nodes of a domain may do until it restarts, 1M to 64G",
    )
    .default_value("64G")
}

// The program's command line. The help tells of the arguments in this order.
fn live_command<'a>(alloc: Global) -> Result<Command<'a>, AllocError>
    ensures { IfOk result (λ command. app_of command ≡ live_command) }
{
    let resume = record_flag(alloc, "resume", "Goes on with the records that are there")?;
    let sync = record_flag(
        alloc,
        "sync",
        "Each answer waits until its record is on the disk",
    )?;
    let command = Command::new(alloc, "live")
        .about("Answers lines on a farm of T414 processors as they come")
        .after_help(AFTER_HELP);
    let command = command.arg(plan_argument(alloc))?;
    let command = command.arg(workers_option(alloc))?;
    let command = command.arg(quantum_option(alloc))?;
    let command = command.arg(record_option(alloc))?;
    let command = command.arg(resume)?;
    let command = command.arg(sync)?;
    let command = command.arg(room_option(alloc))?;
    let command = command.arg(record_room_option(alloc))?;
    let command = command.arg(line_steps_option(alloc))?;
    command.arg(restart_steps_option(alloc))
}

/// Reads the words of the command line. The first is the program's name. The others are the plan's path; `--workers N`, 1 to 8,
/// default 2; `--quantum N`, 1 to 4,096, default 256; `--record DIR`, and with it `--resume` and `--sync`; `--room SIZE`,
/// `--record-room SIZE`, `--line-steps SIZE` and `--restart-steps SIZE`, 1M to 64G, default 64M, 256M, 16G and 64G. The error is `clap`'s: `--help` is one, and that memory ran out another.
pub fn live_settings<S: AsStr>(alloc: Global, words: &[S]) -> Result<LiveSettings, clap::Error>
    ensures in_range { IfOk result IsInRange }
    ensures said { IfOk result (AreSettingsSaid (map S.text words.now)) }
{
    let matches = live_command(alloc)?.try_get_matches_from(words)?;
    settings_in(alloc, &matches)
}

// The parser gives a number in its range, or the default.
fn workers_of(given: Option<u8>) -> u8
    ensures least { 1 ≤ result }
    ensures most { result ≤ 8 }
    ensures given { IfSome given (λ n. 1 ≤ n → n ≤ 8 → result ≡ n) }
{
    match given {
        Some(n) if (1..=8).contains(&n) => n,
        _ => DEFAULT_WORKERS,
    }
}

fn quantum_of(given: Option<u16>) -> u16
    ensures least { 1 ≤ result }
    ensures most { result ≤ 4096 }
    ensures given { IfSome given (λ n. 1 ≤ n → n ≤ 4096 → result ≡ n) }
{
    match given {
        Some(n) if (1..=4096).contains(&n) => n,
        _ => DEFAULT_QUANTUM,
    }
}
