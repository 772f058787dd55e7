//! What a line asks.

use event_text::RepeatedRequest;
use script_lines::Command;

/// A line of a user, as the program has them.
#[derive(Drop)]
pub struct UserLine<'a> {
    /// The user's name.
    pub name: &'a str,
    /// The number of the user's domain in the plan.
    pub domain: u8,
    /// The user's number in the domain.
    pub user: u8,
    /// What the line asks.
    pub command: Command,
}

/// A line of a text for a farm.
#[derive(Drop)]
pub enum AskedLine<'a> {
    /// It asks the farm as the lab does.
    OfLab(RepeatedRequest),
    /// A user asks their domain.
    OfUser(UserLine<'a>),
}
