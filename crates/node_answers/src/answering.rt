//! What is asked of a node by itself.

use crate::assembly::{print_assembled, print_disassembled};
use crate::booting::print_booted;
use crate::tracing::print_traced;
use lab_command::{LabFailure, NodeRequest};
use script_text::read_whole;

/// The answer to a request about a node by itself, or a program.
pub fn answer_of_node(rt: &HostRuntime, request: &NodeRequest) -> Result<String, LabFailure> {
    match request {
        NodeRequest::Boot(options) => print_booted(rt, options),
        NodeRequest::Trace(most) => print_traced(rt, *most, input_of(rt)?.as_slice()),
        NodeRequest::Assemble(options) => {
            print_assembled(rt.alloc(), *options, input_of(rt)?.as_slice())
        }
        NodeRequest::Disassemble => print_disassembled(rt.alloc(), input_of(rt)?.as_slice()),
    }
}

fn input_of(rt: &HostRuntime) -> Result<Vec<u8>, LabFailure> {
    Ok(read_whole(rt.alloc(), &mut rt.reader())?)
}
