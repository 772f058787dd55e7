//! An accepted plan as people look at it.
#![tactic(auto)]

mod ports;
mod table;

pub use std::alloc::AllocError as NoMemory;
pub use table::{table_of, write_device};
