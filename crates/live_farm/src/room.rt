//! How much room a line may need in its domain, and in the domain's records.
ghost use Rattle.std.specs.Prelude.{◌≡◌, false};
ghost use Rattle.live_farm.specs.LineRooms.{Lacks, command_bytes, most_commands, most_commands_of, record_line_bytes};

use crate::queued::QueuedRequest;
use domain_core::{ENTRY_BYTES, LOOK_BYTES, QUEUE_BYTES, TOLD_BYTES};
use live_lines::LiveRequest;
use script_lines::Command;

/// How many bytes a command of a user takes at the most in the journal and in the user's list.
const COMMAND_BYTES: u64 = ENTRY_BYTES + LOOK_BYTES + TOLD_BYTES;

/// How many bytes the line of an event takes at the most in a record.
const RECORD_LINE_BYTES: u64 = 128;

// How many commands a line asks at the most. One that collects asks until nothing has come.
fn most_commands(command: &Command) -> u64
    ensures { result ≡ most_commands command.now }
{
    match command {
        Command::Config(bytes) | Command::Write { bytes, .. } => bytes.len() as u64,
        Command::Boot { code, .. } => (code.len() as u64).saturating_add(1),
        Command::Poke { .. } | Command::Peek { .. } => 9,
        Command::Collect { .. } => QUEUE_BYTES as u64 + 1,
        Command::Reset { .. } | Command::Look { .. } => 1,
    }
}

/// How many commands a request asks at the most.
pub(crate) fn commands_of(request: &QueuedRequest) -> u64
    ensures { result ≡ most_commands_of request.now }
{
    match request {
        QueuedRequest::Asked(LiveRequest::Script(command)) => most_commands(command),
        QueuedRequest::Asked(LiveRequest::Domain(_))
        | QueuedRequest::Wrong(_)
        | QueuedRequest::OperatorRestart => 0,
    }
}

/// Whether `commands` more commands fit into a room of `room` bytes, if `taken` bytes are taken. It is true if `commands` is 0.
pub(crate) fn has_room(taken: u64, room: u64, commands: u64) -> bool
    ensures { result ≡ false → Lacks command_bytes taken room commands }
{
    commands == 0 || taken.saturating_add(commands.saturating_mul(COMMAND_BYTES)) <= room
}

/// The same of the events of `commands` more commands and the room of a domain's records.
pub(crate) fn has_record_room(taken: u64, room: u64, commands: u64) -> bool
    ensures { result ≡ false → Lacks record_line_bytes taken room commands }
{
    commands == 0 || taken.saturating_add(commands.saturating_mul(RECORD_LINE_BYTES)) <= room
}

/// How many bytes a journal that takes `bytes` bytes by now may take, so that what it gains fits into the room of its records,
/// whose newest takes `taken` bytes and has all that the journal has by now.
pub(crate) fn most_journal(bytes: u64, taken: u64, room: u64) -> u64 {
    let lines = (room - room / 4).saturating_sub(taken) / RECORD_LINE_BYTES;
    bytes.saturating_add(lines.saturating_mul(ENTRY_BYTES))
}

/// Whether records take so much of their room that nodes and packets rest: a quarter is kept for the commands of users.
pub(crate) fn is_used_up(taken: u64, room: u64) -> bool {
    taken >= room - room / 4
}
