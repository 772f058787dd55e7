//! From the core of occam to statements of the assembler.
#![tactic(auto)]

mod channels;
mod components;
mod emission;
mod expressions;
mod frame;
mod guards;
mod instructions;
mod layout_laws;
mod messages;
mod process_laws;
mod processes;
mod statements;
mod words;

pub use emission::{Emission, LineMark, emit_program};
pub use expressions::emit_expression;
pub use frame::FrameWords;
pub use layout_laws::processes_are_apart;
pub use process_laws::processes_behave;
pub use processes::emit_process;
pub use words::{processes_below, temporaries_of, workspace_words};
