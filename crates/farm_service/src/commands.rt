//! The commands of a user, with their replies, in a journal.
ghost use Rattle.std.specs.Prelude.{◌≡◌, ◌&&◌, [], ◌∷◌, option_to_list};
ghost use Rattle.domain_core.specs.Journal.{expanded};
ghost use Rattle.domain_core.specs.Commands.{is_command, is_user};
ghost use Rattle.farm_service.specs.Commands.{commands_of};

use domain_core::{AnsweredCommand, By, Entry, Event};

/// Whether an event is a command, for which users ask.
pub fn is_command(event: Event) -> bool
    ensures { result ≡ is_command event }
{
    match event {
        Event::Config(_) | Event::Write(_, _) | Event::Read(_) | Event::Reset(_) | Event::Look(_) =>
            true,
        Event::Step(_) | Event::Move(_) => false,
    }
}

// Whether it is a command, and this user asked it.
fn is_own(user: u8, by: By, event: Event) -> bool
    ensures { result ≡ (is_user user by && is_command event) }
{
    match by {
        By::User(other) => other == user && is_command(event),
        By::Farm => false,
    }
}

/// A user's command in an entry of the journal of the user's domain.
pub(crate) fn command_from(user: u8, entry: &Entry) -> Option<AnsweredCommand>
    ensures { commands_of user (expanded (entry.now ∷ [])) ≡ option_to_list result }
{
    match *entry {
        Entry::One { by, event, reply } => {
            if is_own(user, by, event) {
                Some(AnsweredCommand { event, reply })
            } else {
                None
            }
        }
        Entry::Run { .. } => None,
    }
}
