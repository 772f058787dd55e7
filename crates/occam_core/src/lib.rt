//! The core of occam: what is left of a program once names and types are gone, and what it means.
#![tactic(auto)]

mod bounds;
mod channel;
mod expression;
mod laws;
mod process;
mod results;

pub use bounds::has_process;
pub use channel::{CoreChannel, CoreGuard, MessageKind};
pub use expression::{CoreArray, ElementKind, Expression, OneOperation, TwoOperation};
pub use laws::{beginnings_are_traces, sequential_processes_run, sequential_runs_are_done};
pub use process::{CorePlace, CoreProcess};
pub use results::{result_of_one, result_of_two};
