//! What the script program is given: the words of its command line, and a text of a plan and a script. And how a run ends
//! that has no output.
#![tactic(auto)]

mod command_line;
mod configuration;
mod ending;
mod failure;
mod reading;

pub use command_line::settings;
pub use configuration::Settings;
pub use ending::{end_by_error, refuse_arguments};
pub use failure::{Ending, FarmFailure};
pub use reading::{lines_of, plan_of, text_read};
