//! Whether each pass lists what its domain's journal has of its user.
ghost use Rattle.std.specs.Prelude.{◌≡◌, ◌≤◌, ◌++◌, [], ◌∷◌, length, take, true, IfSome};
ghost use Rattle.domain_core.specs.Journal.{expanded};
ghost use Rattle.farm_service.specs.Commands.{commands_of};
ghost use Rattle.farm_service.specs.Closed.{IsListedIn, IsListed, AreListed};

use crate::closed::ClosedDomain;
use crate::commands::command_from;
use crate::pass::UserPass;
use crate::session::Session;
use crate::waiting::block_forever;
use domain_core::laws::journals_add_up;
use domain_core::{AnsweredCommand, Entry, Journal};
use std::sync::Wait;

// Whether a listed command is this one, with this reply.
fn is_same(told: &AnsweredCommand, command: &AnsweredCommand) -> bool
    ensures { result ≡ true → told.now ≡ command.now }
{
    told.event == command.event && told.reply == command.reply
}

// How many of a list are a user's commands up to an entry, if what it has of them is the next.
fn listed_after(entry: &Entry, user: u8, told: &[AnsweredCommand], listed: usize) -> Option<usize>
    requires { listed ≤ length told.now }
    ensures listed { IfSome result (λ n. take n told.now ≡ take listed told.now ++ commands_of user (expanded (entry.now ∷ []))) }
    ensures within { IfSome result (λ n. n ≤ length told.now) }
{
    match command_from(user, entry) {
        None => Some(listed),
        Some(command) => {
            if listed < told.len() && is_same(&told[listed], &command) {
                Some(listed + 1)
            } else {
                None
            }
        }
    }
}

// Whether a user's commands in a journal are those of a list.
fn lists(journal: &Journal, user: u8, told: &[AnsweredCommand]) -> bool
    ensures { result ≡ true → commands_of user (expanded journal.now.entries) ≡ told.now }
{
    // What is appended to a journal comes after what it stands for.
    journals_add_up();
    let mut listed = 0;
    for index in 0..journal.len() {
        let Some(entry) = journal.get(index) else {
            return false;
        };
        match listed_after(&entry, user, told, listed) {
            Some(after) => listed = after,
            None => return false,
        }
    }
    listed == told.len()
}

impl Session<'_> {
    /// How many of the user's commands are listed up to the end of these entries, if what all of them have of the user is what comes
    /// in the list after the first `listed`.
    pub fn listed_after(&self, entries: &[Entry], listed: usize) -> Option<usize>
        requires { listed ≤ length self.now.pass.told }
        ensures listed { IfSome result (λ n. take n self.now.pass.told
            ≡ take listed self.now.pass.told ++ commands_of self.now.pass.user (expanded entries.now)) }
        ensures within { IfSome result (λ n. n ≤ length self.now.pass.told) }
    {
        // What is appended to a journal comes after what it stands for.
        journals_add_up();
        let (user, told) = (self.pass().user(), self.commands());
        let mut after = listed;
        for entry in entries {
            after = listed_after(entry, user, told, after)?;
        }
        Some(after)
    }
}

/// Whether a pass lists what a journal has of its user.
pub(crate) fn is_listed_in(journal: &Journal, pass: &UserPass) -> bool
    ensures { result ≡ true → IsListedIn journal.now.entries pass.now }
{
    lists(journal, pass.user(), pass.commands())
}

// Whether a pass lists what its domain's journal has of its user.
fn is_listed(closed: &[ClosedDomain], pass: &UserPass) -> bool
    ensures { result ≡ true → IsListed closed.now pass.now }
{
    match closed.get(usize::from(pass.domain())) {
        Some(domain) => is_listed_in(&domain.journal, pass),
        None => true,
    }
}

// Whether each pass lists what its domain's journal has of its user.
fn are_listed(closed: &[ClosedDomain], users: &[UserPass]) -> bool
    ensures { result ≡ true → AreListed closed.now users.now }
{
    for pass in users {
        if !is_listed(closed, pass) {
            return false;
        }
    }
    true
}

/// Sees that each pass lists what its domain's journal has of its user. If one doesn't, waits for ever.
pub(crate) fn await_listed<R: Wait>(rt: &R, closed: &[ClosedDomain], users: &[UserPass])
    ensures { AreListed closed.now users.now }
{
    if !are_listed(closed, users) {
        block_forever(rt)
    }
}
