//! A node: memory, four links and what it is doing. It boots from a link, and then runs.
//!
//! Transputer Reference Manual, bootstrapping from a link; T414 data sheet, memory map.
#![tactic(auto)]

mod booting;
mod burst;
mod examined;
mod laws;
mod link_numbers;
mod message_laws;
mod messages;
mod node;
mod seen;
mod state;
mod stepping;

pub use crate::booting::CODE_START;
pub use crate::burst::Burst;
pub use crate::laws::{
    fault_halts, quiet_step_changes_nothing, recorded_step_ran, steps_add_up, steps_keep_the_size,
};
pub use crate::link_numbers::{link_number_of, link_of};
pub use crate::message_laws::{boot_loads_the_code, poke_stores_the_word};
pub use crate::messages::{
    BootFault, LEAST_BOOTED, MOST_BOOTED, boot_message, peek_message, poke_message, word_of,
};
pub use crate::node::Node;
pub use crate::seen::{Activity, Seen};
pub use crate::state::{NodeState, Task};
pub use link_channels::{LinkNumber, Links};
pub use node_memory::{Fault, Memory, NoMemory, is_memory_size};
pub use os_link::Packet;
pub use t414_step::{Cpu, Stepped};
