//! The lists of users whose commands are in the journal of their domain already.
ghost use Rattle.std.specs.Prelude.{◌≡◌, ◌≤◌, ◌++◌, ◌∷◌, [], vec_capacity, IfOk};
ghost use Rattle.domain_core.specs.Journal.{expanded};
ghost use Rattle.farm_service.specs.Closed.{IsListedIn};
ghost use Rattle.farm_service.specs.Commands.{commands_of};

use crate::NoMemory;
use crate::commands::command_from;
use crate::pass::UserPass;
use domain_core::laws::journals_add_up;
use domain_core::{AnsweredCommand, Entry, Journal};

// Adds what an entry has of a user's commands to the user's list.
fn list_command(entry: &Entry, user: u8, told: &mut Vec<AnsweredCommand>) -> Result<(), NoMemory>
    ensures listed { IfOk result (λ _. told.new.items ≡ told.old.items ++ commands_of user (expanded (entry.now ∷ []))) }
    ensures capacity { vec_capacity told.old ≤ vec_capacity told.new }
{
    if let Some(command) = command_from(user, entry) {
        told.push(command)?;
    }
    Ok(())
}

// Adds a user's commands in a journal to the user's list.
fn list_commands(
    journal: &Journal,
    user: u8,
    told: &mut Vec<AnsweredCommand>,
) -> Result<(), NoMemory>
    ensures listed { IfOk result (λ _. told.new.items ≡ told.old.items ++ commands_of user (expanded journal.now.entries)) }
    ensures capacity { vec_capacity told.old ≤ vec_capacity told.new }
{
    // What is appended to a journal comes after what it stands for.
    journals_add_up();
    for index in 0..journal.len() {
        let Some(entry) = journal.get(index) else {
            unreachable!()
        };
        list_command(&entry, user, told)?;
    }
    Ok(())
}

impl UserPass {
    /// Replaces the list by the user's commands in a journal.
    pub(crate) fn list_again(&mut self, journal: &Journal) -> Result<(), NoMemory>
        ensures { IfOk result (λ _. IsListedIn journal.now.entries self.new) }
    {
        self.told.clear();
        list_commands(journal, self.user, &mut self.told)
    }
}
