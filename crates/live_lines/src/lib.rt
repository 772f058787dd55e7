//! The lines and the command line of a farm that stays up: how they are read, and what they ask.
#![tactic(auto)]

mod asked;
mod command_line;
mod fault;
mod parsing;
mod verbs;

pub use asked::{LiveLine, LiveRequest, OperatorRequest, WholeRequest};
pub use command_line::{LiveSettings, RecordSettings, live_settings};
pub use fault::LiveFault;
pub use parsing::{MOST_LINE_BYTES, is_operators, parse_live_line};
pub use verbs::{DomainVerb, OperatorVerb};
