//! The nodes of a domain while a script runs.

use crate::debugging::open_debugger;
use crate::failure::wrong_debugging;
use crate::programs::program_in_file;
use crate::scripts::{folder_of, loaded_files, print_record};
use lab_command::{
    BootOptions, BootedCode, LabFailure, NodeRequest, TracedScript, USUAL_STEPS, read_file,
};
use lab_debug::{DebugFault, Debugger};
use lab_script::is_occam_file;
use node_answers::{answer_of_node, inputs_of, print_booted_program};
use script_text::TextWriter;
use std::alloc::Global;

/// The answer to a request about a node by itself, or a program. A program may be one of occam.
pub fn print_of_node(rt: &HostRuntime, request: &NodeRequest) -> Result<String, LabFailure> {
    match request {
        NodeRequest::Boot(options) => match options.code {
            BootedCode::Program(file) if is_occam_file(file) => {
                print_booted_occam(rt, options, file)
            }
            _ => answer_of_node(rt, request),
        },
        _ => answer_of_node(rt, request),
    }
}

// Traces a node that is booted with the program of occam in a file.
fn print_booted_occam(
    rt: &HostRuntime,
    options: &BootOptions,
    file: &str,
) -> Result<String, LabFailure> {
    let inputs = inputs_of(rt.alloc(), options)?;
    let program = program_in_file(rt, file)?;
    print_booted_program(rt, options, inputs.as_slice(), &program, file)
}

/// What each Step of a domain's nodes does while the script in a file runs, and each packet. The files that it loads have their
/// names from the folder of that file.
pub fn print_trace(rt: &HostRuntime, asked: TracedScript) -> Result<String, LabFailure> {
    let text = read_file(rt, asked.script)?;
    trace_text(rt, asked, text.as_slice())
}

fn trace_text(rt: &HostRuntime, asked: TracedScript, text: &[u8]) -> Result<String, LabFailure> {
    match loaded_files(rt, folder_of(asked.script), text) {
        Ok(files) => {
            let record = print_record(rt, text, files.as_slice(), asked.domain, asked.most)?;
            trace_record(rt, record.as_bytes(), asked.most.unwrap_or(USUAL_STEPS))
        }
        Err(fault) => Err(LabFailure::of_numbered(rt.alloc(), fault)),
    }
}

fn trace_record(rt: &HostRuntime, record: &[u8], steps: u64) -> Result<String, LabFailure> {
    match traced_record(rt, record, steps) {
        Ok(text) => Ok(text),
        Err(fault) => Err(wrong_debugging(rt.alloc(), fault)),
    }
}

// What the events of a record do, up to `steps` Steps.
fn traced_record(rt: &HostRuntime, record: &[u8], steps: u64) -> Result<String, DebugFault> {
    let mut debugger = open_debugger(rt, record, None)?;
    trace_of(rt.alloc(), &mut debugger, steps)
}

fn trace_of(alloc: Global, debugger: &mut Debugger, steps: u64) -> Result<String, DebugFault> {
    let mut traced = TextWriter::new(alloc);
    debugger.trace_from_opening(steps, &mut traced)?;
    Ok(traced.finish()?)
}
