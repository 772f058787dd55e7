//! The lines of a script: which of them ask something, which user each is of, and what it asks.
#![tactic(auto)]

mod command;
mod fault;
mod line;
mod numbers;
mod script;
mod verb;
mod words;

pub use command::Command;
pub use fault::{LineFault, ScriptFault, Unread};
pub use line::{parse_request, user_named};
pub use numbers::parse_target;
pub use script::{ScriptLine, read_script};
pub use verb::Verb;
pub use words::LineWords;
