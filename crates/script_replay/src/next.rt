//! The event that a line asks next.
ghost use Rattle.std.specs.Prelude.{◌≡◌, ◌≤◌, ◌∷◌, length, slice_get};
ghost use Rattle.std.specs.List.{list_all, list_any};
ghost use Rattle.line_answers.specs.Asks.{is_write, is_read, had_no_room, is_byte, write_replies, read_replies, next_config, next_write, next_read, next_collect, once, next_boot, next_event};
ghost use Rattle.script_lines.specs.declared.command.Command.TheVariants.{Peek};
ghost use Rattle.script_replay.specs.Lines.{is_peek};

use bootstrap::{LEAST_BOOTED, MOST_BOOTED, peek_message, poke_message};
use domain_core::{AnsweredCommand, Event, Reply};
use script_lines::Command;

fn is_write(event: Event) -> bool
    ensures { result ≡ is_write event }
{
    matches!(event, Event::Write(_, _))
}

/// Whether an event takes a byte of a host's queue.
pub(crate) fn is_read(event: Event) -> bool
    ensures { result ≡ is_read event }
{
    matches!(event, Event::Read(_))
}

/// Whether a line asks for a word of memory.
pub(crate) fn is_peek(command: &Command) -> bool
    ensures { result ≡ is_peek command.now }
{
    matches!(command, Command::Peek { .. })
}

fn had_no_room(reply: Reply) -> bool
    ensures { result ≡ had_no_room reply }
{
    matches!(reply, Reply::Full)
}

fn is_byte(reply: Reply) -> bool
    ensures { result ≡ is_byte reply }
{
    matches!(reply, Reply::Read(Some(_)))
}

// How many bytes were put in a host's queue, or refused because it was full.
fn writes(told: &[AnsweredCommand]) -> usize
    ensures { result ≡ length (write_replies told.now) }
{
    let mut count = 0;
    for it in told {
        if is_write(it.event) {
            count += 1;
        }
    }
    count
}

// How often a host's queue was read.
fn reads(told: &[AnsweredCommand]) -> usize
    ensures { result ≡ length (read_replies told.now) }
{
    let mut count = 0;
    for it in told {
        if is_read(it.event) {
            count += 1;
        }
    }
    count
}

// Whether a host had no room for a byte.
fn was_full(told: &[AnsweredCommand]) -> bool
    ensures { result ≡ list_any had_no_room (write_replies told.now) }
{
    let mut was = false;
    for it in told {
        if is_write(it.event) {
            was |= had_no_room(it.reply);
        }
    }
    was
}

// Whether each read brought a byte.
fn all_came(told: &[AnsweredCommand]) -> bool
    ensures { result ≡ list_all is_byte (read_replies told.now) }
{
    let mut all = true;
    for it in told {
        if is_read(it.event) {
            all &= is_byte(it.reply);
        }
    }
    all
}

fn next_config(bytes: &[u8], told: &[AnsweredCommand]) -> Option<Event>
    ensures { result ≡ next_config bytes.now told.now }
{
    match bytes.get(told.len()) {
        Some(byte) => Some(Event::Config(*byte)),
        None => None,
    }
}

fn next_write(host: u8, bytes: &[u8], told: &[AnsweredCommand]) -> Option<Event>
    ensures { result ≡ next_write host bytes.now told.now }
{
    if was_full(told) {
        return None;
    }
    match bytes.get(writes(told)) {
        Some(byte) => Some(Event::Write(host, *byte)),
        None => None,
    }
}

// A byte of a boot message: the length of the code, and the code after it.
fn boot_byte(code: &[u8], index: usize) -> Option<u8>
    requires { length code.now ≤ 255 }
    ensures { result ≡ slice_get (length code.now ∷ code.now) index }
{
    match index.checked_sub(1) {
        Some(behind) => code.get(behind).copied(),
        None => Some(code.len() as u8),
    }
}

fn next_boot(host: u8, code: &[u8], told: &[AnsweredCommand]) -> Option<Event>
    ensures { result ≡ next_boot host code.now told.now }
{
    if code.len() < LEAST_BOOTED || code.len() > MOST_BOOTED || was_full(told) {
        return None;
    }
    match boot_byte(code, writes(told)) {
        Some(byte) => Some(Event::Write(host, byte)),
        None => None,
    }
}

fn next_collect(host: u8, told: &[AnsweredCommand]) -> Option<Event>
    ensures { result ≡ next_collect host told.now }
{
    all_came(told).then_some(Event::Read(host))
}

fn next_read(host: u8, count: usize, told: &[AnsweredCommand]) -> Option<Event>
    ensures { result ≡ next_read host count told.now }
{
    let is_next = all_came(told) && reads(told) < count;
    is_next.then_some(Event::Read(host))
}

fn next_peek(host: u8, address: u32, told: &[AnsweredCommand]) -> Option<Event>
    ensures { result ≡ next_event (Peek host address) told.now }
{
    match next_write(host, &peek_message(address), told) {
        Some(event) => Some(event),
        None => next_read(host, 4, told),
    }
}

fn once(event: Event, told: &[AnsweredCommand]) -> Option<Event>
    ensures { result ≡ once event told.now }
{
    told.is_empty().then_some(event)
}

/// The event that a line asks next, after those that were answered, with their replies; `None` at its end.
pub(crate) fn next_event(command: &Command, told: &[AnsweredCommand]) -> Option<Event>
    ensures { result ≡ next_event command.now told.now }
{
    match command {
        Command::Config(bytes) => next_config(bytes.as_slice(), told),
        Command::Write { host, bytes } => next_write(*host, bytes.as_slice(), told),
        Command::Boot { host, code } => next_boot(*host, code.as_slice(), told),
        Command::Poke {
            host,
            address,
            word,
        } => next_write(*host, &poke_message(*address, *word), told),
        Command::Peek { host, address } => next_peek(*host, *address, told),
        Command::Collect { host } => next_collect(*host, told),
        Command::Reset { node } => once(Event::Reset(*node), told),
        Command::Look { node } => once(Event::Look(*node), told),
    }
}
