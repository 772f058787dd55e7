//! The memory of a node, the faults that halt it, and arithmetic on its words.
//!
//! Words have 32 bits and are stored least significant byte first. Arithmetic wraps; the `_checked`
//! forms also return whether the signed result did not fit. `NoMemory` is the allocator's own
//! error: an allocation found no memory.
#![tactic(auto)]

mod fault;
mod laws;
mod memory;
mod words;

pub use fault::Fault;
pub use laws::{copies_stop_at_the_edge, written_bytes_are_read, written_words_are_read};
pub use memory::{Fetched, MEMORY_START, Memory, is_memory_size};
pub use std::alloc::AllocError as NoMemory;
pub use words::{
    add_checked, double, high, low, mul_checked, normal_places, overflows, shift_left, shift_right,
    signed, sub_checked,
};
