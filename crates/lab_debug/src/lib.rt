//! A debugger through time: it goes to any moment of a record, forwards and back, and shows the domain there.
#![tactic(auto)]

mod code;
mod command;
mod fault;
mod lines;
mod moving;
mod showing;
mod talking;
mod tracing;
mod until;
mod variables;
mod waiting;

pub use fault::DebugFault;
pub use moving::Debugger;
pub use talking::{FoundProgram, ProgramFiles, ProgramOf, debug};
pub use waiting::write_waits;
