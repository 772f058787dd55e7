//! A farm on one thread that is asked for single events, line by line: the rows of a text, and what a user tries.
#![tactic(auto)]

mod answer_list;
mod bursts;
mod fault;
mod open_farm;
mod replaying;

pub use fault::{AskFault, FarmStop};
pub use open_farm::OpenFarm;
pub use replaying::{answer_requests, answer_times};
