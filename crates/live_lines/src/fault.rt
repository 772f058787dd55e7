//! What is wrong with a line.

use script_lines::LineFault;

/// Why a line asks nothing.
#[derive(Clone, Copy)]
pub enum LiveFault {
    /// The first word is no user's name.
    UnknownUser,
    /// The line of a user is wrong. `user` is the place of the user's name among all.
    User { user: usize, fault: LineFault },
    /// The line of the operator is wrong: its verb, or the number of words after it, or the user's name there.
    Operator(LineFault),
    /// There is no memory for what the line of a user asks. `user` is the place of the user's name among all.
    NoMemory { user: usize },
}
