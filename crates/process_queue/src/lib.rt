//! The queue of processes that wait for the processor, linked through memory.
#![tactic(auto)]

mod queue;

pub use queue::{LINK_BELOW, NOT_PROCESS, Queue};
