//! Why nothing is answered of a node.

use lab_command::{ArgumentFault, LabFailure, WRONG_TEXT};
use node_trace::TraceFault;
use std::alloc::Global;
use t414_assembly::{ProgramFault, TextFault};

/// A boot can't take `count` bytes of code.
pub fn wrong_length(alloc: Global, count: usize) -> LabFailure {
    LabFailure::of_line(alloc, &ArgumentFault::Length(count), WRONG_TEXT)
}

/// A text is no program: its faults, one a line.
pub fn wrong_lines(alloc: Global, fault: &ProgramFault) -> LabFailure {
    match fault {
        ProgramFault::NoMemory => LabFailure::Memory,
        ProgramFault::Wrong(list) => LabFailure::of_line(alloc, list, WRONG_TEXT),
    }
}

/// A text is no program, or no digits: one fault.
pub fn wrong_program(alloc: Global, fault: &TextFault) -> LabFailure {
    match fault {
        TextFault::Memory(_) => LabFailure::Memory,
        fault => LabFailure::of_line(alloc, fault, WRONG_TEXT),
    }
}

/// The lines of a node aren't answered.
pub fn wrong_trace(alloc: Global, fault: TraceFault) -> LabFailure {
    match fault {
        TraceFault::Line(wrong) => LabFailure::of_line(alloc, &wrong, WRONG_TEXT),
        TraceFault::Steps(end) => LabFailure::of_steps(alloc, end),
        TraceFault::Memory(_) => LabFailure::Memory,
    }
}
