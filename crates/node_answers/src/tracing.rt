//! A node that is traced as lines ask it.

use crate::failure::wrong_trace;
use lab_command::{LabFailure, TerminalMeter, print_answers};
use node_trace::trace;

/// What lines ask of a node, if it needs no more Steps for that than it may do.
pub fn print_traced(
    rt: &HostRuntime,
    most: Option<u64>,
    text: &[u8],
) -> Result<String, LabFailure> {
    let mut meter = TerminalMeter::begin(rt, most);
    let traced = trace(rt.alloc(), text, &mut meter);
    meter.wipe();
    match traced {
        Ok(answers) => print_answers(rt.alloc(), answers.as_slice()),
        Err(fault) => Err(wrong_trace(rt.alloc(), fault)),
    }
}
