//! One node from a text: each line puts something into it or has it do Steps, and is answered by all that changed.
//!
//! A text needs nothing else: `node` opens a node that runs, `open` one that boots, and `try` does one instruction on a node
//! of its own. Instructions are written as for the assembler, words are hexadecimal, counts decimal.
#![tactic(auto)]

mod boot;
mod changes;
mod codes;
mod commands;
mod fault;
mod hosts;
mod instruction;
mod marked;
mod packets;
mod performing;
mod program;
mod settings;
mod sizes;
mod snapshot;
mod tracing;
mod trial;

pub use crate::boot::{BootTrace, trace_boot, trace_step, write_stopped};
pub use crate::changes::{write_all_registers, write_link_fields};
pub use crate::fault::TraceFault;
pub use crate::hosts::LinkInput;
pub use crate::marked::{CodePiece, MarkedCode, ProgramVariable, ShownType};
pub use crate::packets::write_packet;
pub use crate::program::{
    LinePlace, PlacedLabel, Program, ProgramCode, ProgramLine, label_in, line_with,
    write_line_number, write_source,
};
pub use crate::tracing::{read_trace_line, trace};
pub use bootstrap::{BootFault, LinkNumber, link_of};
pub use lab_words::NumberedLineFault;
