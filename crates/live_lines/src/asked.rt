//! What a line asks.

use script_lines::Command;

/// What a user asks of their domain as a whole.
#[derive(Clone, Copy)]
pub enum WholeRequest {
    /// Whether it is at rest.
    Rest,
    /// That it begins again.
    Restart,
    /// Why its nodes do no more than they do, or the one of this number.
    Why { node: Option<u8> },
}

/// What a user's line asks.
#[derive(Drop)]
pub enum LiveRequest {
    /// What a line of a script asks: the same line, or the plain one in the place of a shorthand line.
    Script(Command),
    /// Something of the user's domain as a whole.
    Domain(WholeRequest),
}

/// What an operator's line asks.
#[derive(Clone, Copy)]
pub enum OperatorRequest {
    /// The words of all outputs.
    Words,
    /// What each user has done.
    Users,
    /// How much memory the farm takes.
    Memory,
    /// That the domain of a user begins again. `user` is the place of the user's name among all.
    Restart { user: usize },
    /// The end.
    Stop,
}

/// What a line asks, and who.
#[derive(Drop)]
pub enum LiveLine {
    /// A user. `user` is the place of the user's name among all.
    User { user: usize, request: LiveRequest },
    /// The operator.
    Operator(OperatorRequest),
}
