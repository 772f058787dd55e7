//! Which bursts are to be done next, how long, and by whom; which nodes rest, and which workers sleep; how many events workers
//! may record.
//!
//! All of it is advice to the threads of a service: no contract above speaks of it. Domains and nodes are known here by
//! their numbers alone.
#![tactic(auto)]

mod allowance;
mod pace;
mod schedule;
mod sleep_board;

pub use allowance::Allowance;
pub use pace::{BurstLength, Pace, RoundOutcome};
pub use schedule::{Idleness, Schedule};
pub use sleep_board::SleepBoard;
pub use std::alloc::AllocError as NoMemory;
