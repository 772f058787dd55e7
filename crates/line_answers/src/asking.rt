//! What a line asks of its user's domain.
ghost use Rattle.std.specs.Prelude.{◌≡◌, ◌≢◌, ◌<◌, length, MatchResult, Ok, Err};
ghost use Rattle.domain_core.specs.declared.event.Refusal.TheVariants.{NoSuch};
ghost use Rattle.script_lines.specs.declared.command.Command.TheVariants.{Peek};
ghost use Rattle.line_answers.specs.Asks.{had_no_room, is_byte, next_config, next_write, next_boot, next_read, next_collect};
ghost use Rattle.line_answers.specs.Sessions.{HasSettled, AsksJust, AsksLine};

use crate::quantum::Quantum;
use bootstrap::{BootFault, boot_message, peek_message, poke_message};
use domain_core::{Refusal, Reply};
use farm_service::Session;
use script_lines::Command;
use std::alloc::Global;
use std::sync::Wait;

/// How many rounds a settling has at most.
pub const ROUNDS: u64 = 10_000;

// Whether a host had no room for a byte.
fn had_no_room(reply: Reply) -> bool
    ensures { result ≡ had_no_room reply }
{
    matches!(reply, Reply::Full)
}

// Whether a byte had come to a host.
fn is_byte(reply: Reply) -> bool
    ensures { result ≡ is_byte reply }
{
    matches!(reply, Reply::Read(Some(_)))
}

// Bytes for the switch.
pub(crate) fn configure_all<R: Wait>(
    rt: &R,
    alloc: Global,
    session: &mut Session<'_>,
    bytes: &[u8],
) -> Result<(), Refusal>
    ensures { AsksJust (next_config bytes.now) session.old result session.new }
{
    for byte in bytes {
        session.configure(rt, alloc, *byte)?;
    }
    Ok(())
}

// Bytes for a host, until it is full.
pub(crate) fn write_all<R: Wait>(
    rt: &R,
    alloc: Global,
    session: &mut Session<'_>,
    host: u8,
    bytes: &[u8],
) -> Result<(), Refusal>
    ensures { AsksJust (next_write host bytes.now) session.old result session.new }
{
    for byte in bytes {
        if had_no_room(session.write(rt, alloc, host, *byte)?) {
            return Ok(());
        }
    }
    Ok(())
}

// Bytes of a host, up to `count`, until none has come.
pub(crate) fn read_up_to<R: Wait>(
    rt: &R,
    alloc: Global,
    session: &mut Session<'_>,
    host: u8,
    count: usize,
) -> Result<(), Refusal>
    ensures { AsksJust (next_read host count) session.old result session.new }
{
    for _index in 0..count {
        if !is_byte(session.read(rt, alloc, host)?) {
            return Ok(());
        }
    }
    Ok(())
}

// Bytes of a host, until none has come.
pub(crate) fn read_all<R: Wait>(
    rt: &R,
    alloc: Global,
    session: &mut Session<'_>,
    host: u8,
) -> Result<(), Refusal>
    ensures { AsksJust (next_collect host) session.old result session.new }
{
    for _ in rt.forever() {
        if !is_byte(session.read(rt, alloc, host)?) {
            break;
        }
    }
    Ok(())
}

// The answer to an event without its reply.
fn without_reply(answer: Result<Reply, Refusal>) -> Result<(), Refusal>
    ensures { MatchResult answer (λ reply. result ≡ Ok tt) (λ refusal. result ≡ Err refusal) }
{
    match answer {
        Ok(_) => Ok(()),
        Err(refusal) => Err(refusal),
    }
}

/// Settles as long as the program does after each line. It is no error if the domain didn't come to rest.
///
/// # Errors
///
/// The first refusal of a Step or Move: `JournalFull` if the journal is full, or has no room for a quantum of Steps of a node.
pub fn settle<R: Wait>(
    rt: &R,
    alloc: Global,
    session: &Session<'_>,
    quantum: Quantum,
) -> Result<(), Refusal>
    ensures { session.now.pass.domain < length session.now.plan → result ≢ Err NoSuch }
{
    let _ = session.settle(rt, alloc, quantum.steps(), ROUNDS)?;
    Ok(())
}

// Settles before a peek reads. A pass is of a domain of the plan, so there is one. If it is refused because the journal is
// nearly full, the user's pass notes it.
fn settle_to_read<R: Wait>(
    rt: &R,
    alloc: Global,
    session: &mut Session<'_>,
    quantum: Quantum,
) -> Result<(), Refusal>
    ensures { HasSettled session.old result session.new }
{
    match session.settle_to_read(rt, alloc, quantum.steps(), ROUNDS) {
        Ok(_) | Err(Refusal::NoSuch) => Ok(()),
        Err(Refusal::JournalFull) => Err(Refusal::JournalFull),
        Err(Refusal::NoMemory) => Err(Refusal::NoMemory),
    }
}

// The word at an address: the bytes of the message, and when the node has done what it can, those of its answer.
fn peek<R: Wait>(
    rt: &R,
    alloc: Global,
    session: &mut Session<'_>,
    quantum: Quantum,
    host: u8,
    address: u32,
) -> Result<(), Refusal>
    ensures { AsksLine (Peek host address) session.old result session.new }
{
    write_all(rt, alloc, session, host, &peek_message(address))?;
    settle_to_read(rt, alloc, session, quantum)?;
    read_up_to(rt, alloc, session, host, 4)
}

// Code for the node that a host is joined to, if a boot message can hold it.
fn boot<R: Wait>(
    rt: &R,
    alloc: Global,
    session: &mut Session<'_>,
    host: u8,
    code: &[u8],
) -> Result<(), Refusal>
    ensures { AsksJust (next_boot host code.now) session.old result session.new }
{
    match boot_message(alloc, code) {
        Ok(message) => write_all(rt, alloc, session, host, message.as_slice()),
        Err(BootFault::NoMemory) => Err(Refusal::NoMemory),
        Err(BootFault::TooShort | BootFault::TooLong) => Ok(()),
    }
}

/// Asks what a line asks, in its user's session. A peek settles before it reads.
///
/// # Errors
///
/// The first refusal ends the line. What was taken before it stays. `NoMemory` too if a boot message can't be made. A
/// peek is refused too as its settling is: `JournalFull` if the journal is full or has no room for a quantum of Steps
/// of a node, and `NoMemory`.
pub(crate) fn ask_line<R: Wait>(
    rt: &R,
    alloc: Global,
    session: &mut Session<'_>,
    quantum: Quantum,
    command: &Command,
) -> Result<(), Refusal>
    ensures { AsksLine command.now session.old result session.new }
{
    match command {
        Command::Config(bytes) => configure_all(rt, alloc, session, bytes.as_slice()),
        Command::Write { host, bytes } => write_all(rt, alloc, session, *host, bytes.as_slice()),
        Command::Boot { host, code } => boot(rt, alloc, session, *host, code.as_slice()),
        Command::Poke {
            host,
            address,
            word,
        } => write_all(rt, alloc, session, *host, &poke_message(*address, *word)),
        Command::Peek { host, address } => peek(rt, alloc, session, quantum, *host, *address),
        Command::Collect { host } => read_all(rt, alloc, session, *host),
        Command::Reset { node } => without_reply(session.reset(rt, alloc, *node)),
        Command::Look { node } => without_reply(session.look(rt, alloc, *node)),
    }
}
