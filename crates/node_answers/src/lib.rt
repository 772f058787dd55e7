//! What the lab answers of a node by itself and of its programs: traces, code, and code as text.
#![tactic(auto)]

mod answering;
mod assembly;
mod booting;
mod failure;
mod inputs;
mod tracing;

pub use answering::answer_of_node;
pub use assembly::{disassembly_of, print_assembled, print_code};
pub use booting::{inputs_of, print_booted_program};
pub use failure::wrong_trace;
