//! What is asked of a domain, and by whom, and what its journal has of it. If a call answers `NoMemory` nothing is said of the
//! text.
ghost use Rattle.std.specs.Prelude.{◌≡◌, ◌++◌, OnOk, string_bytes};
ghost use Rattle.event_text.specs.Entries.{entry_text};
ghost use Rattle.event_text.specs.Events.{user_text, event_text};

use answer_text::{write_byte, write_reply, write_stepped};
use domain_core::{By, Entry, Event, NoMemory};

/// Appends who asks: `@` and the user's number, or `@farm`.
pub fn write_user(text: &mut String, by: By) -> Result<(), NoMemory>
    ensures text { OnOk result (string_bytes text.new ≡ string_bytes text.old ++ user_text by) }
{
    match by {
        By::User(user) => write!(text, "@{user}"),
        By::Farm => text.push_str("@farm"),
    }
}

/// Appends an event: its name, the host, node or port in decimal digits, and a byte in two hexadecimal digits.
pub fn write_event(text: &mut String, event: Event) -> Result<(), NoMemory>
    ensures text { OnOk result (string_bytes text.new ≡ string_bytes text.old ++ event_text event) }
{
    match event {
        Event::Config(byte) => {
            text.push_str("config ")?;
            write_byte(text, byte)
        }
        Event::Write(host, byte) => {
            write!(text, "write {host} ")?;
            write_byte(text, byte)
        }
        Event::Read(host) => write!(text, "read {host}"),
        Event::Reset(node) => write!(text, "reset {node}"),
        Event::Look(node) => write!(text, "look {node}"),
        Event::Step(node) => write!(text, "step {node}"),
        Event::Move(port) => write!(text, "move {port}"),
    }
}

/// Appends an entry of a journal: who asked, what, and the answer. Steps are written together as `run`, the node, how many,
/// and what the last of them answered.
pub fn write_entry(text: &mut String, entry: Entry) -> Result<(), NoMemory>
    ensures text { OnOk result (string_bytes text.new ≡ string_bytes text.old ++ entry_text entry) }
{
    match entry {
        Entry::One { by, event, reply } => {
            write_user(text, by)?;
            text.push_str(" ")?;
            write_event(text, event)?;
            text.push_str(": ")?;
            write_reply(text, reply)
        }
        Entry::Run {
            by,
            node,
            count,
            last,
        } => {
            write_user(text, by)?;
            write!(text, " run {node} {count}: ")?;
            write_stepped(text, last)
        }
    }
}
