//! Whether users asked for the commands of journals, and the farm itself for Steps and Moves alone.
ghost use Rattle.std.specs.Prelude.{◌≡◌, ◌∷◌, [], true};
ghost use Rattle.domain_core.specs.Commands.{is_command};
ghost use Rattle.domain_core.specs.Journal.{expanded};
ghost use Rattle.farm_service.specs.Commands.{AreRightlyAsked, is_any_user};
ghost use Rattle.farm_service.specs.Closed.{AllAreRightlyAsked};

use crate::closed::ClosedDomain;
use crate::commands::is_command;
use crate::waiting::block_forever;
use domain_core::laws::journals_add_up;
use domain_core::{By, Entry, Event, Journal};
use std::sync::Wait;

// Whether a user asks for a command, or the farm itself for a Step or a Move.
fn is_right(by: By, event: Event) -> bool
    ensures { result ≡ true → is_command event ≡ is_any_user by }
{
    match by {
        By::User(_) => is_command(event),
        By::Farm => !is_command(event),
    }
}

// Whether an entry is a user's command, or Steps or a Move of the farm.
fn is_rightly_asked(entry: &Entry) -> bool
    ensures { result ≡ true → AreRightlyAsked (expanded (entry.now ∷ [])) }
{
    match *entry {
        Entry::One { by, event, .. } => is_right(by, event),
        Entry::Run { by, .. } => matches!(by, By::Farm),
    }
}

// Whether each entry of a journal is.
fn are_rightly_asked(journal: &Journal) -> bool
    ensures { result ≡ true → AreRightlyAsked (expanded journal.now.entries) }
{
    // What is appended to a journal comes after what it stands for.
    journals_add_up();
    for index in 0..journal.len() {
        let Some(entry) = journal.get(index) else {
            return false;
        };
        if !is_rightly_asked(&entry) {
            return false;
        }
    }
    true
}

// Whether each entry of the journals of closed domains is.
fn all_are_rightly_asked(closed: &[ClosedDomain]) -> bool
    ensures { result ≡ true → AllAreRightlyAsked closed.now }
{
    for domain in closed {
        if !are_rightly_asked(&domain.journal) {
            return false;
        }
    }
    true
}

/// Sees that users asked for all commands of the journals, and the farm itself for nothing but Steps and Moves. If it isn't
/// so, waits for ever.
pub(crate) fn await_rightly_asked<R: Wait>(rt: &R, closed: &[ClosedDomain])
    ensures { AllAreRightlyAsked closed.now }
{
    if !all_are_rightly_asked(closed) {
        block_forever(rt)
    }
}
