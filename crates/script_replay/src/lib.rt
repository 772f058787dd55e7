//! Texts of farms whose lines are the lab's or a user's, and scripts of the program, on one thread.
#![tactic(auto)]

mod answering;
mod asking;
mod asks;
mod fault;
mod next;
mod reader;
mod recording;
mod running;
mod texts;

pub use answering::{AnsweredLines, answer_asked_lines, answer_user_line};
pub use asks::{AskedLine, UserLine};
pub use fault::{ReplayFault, RunFault};
pub use recording::record_of;
pub use running::{record_script, run_script};
pub use texts::{files_loaded, replay};
