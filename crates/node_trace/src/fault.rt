//! Why the lines of a text aren't answered.

use lab_words::{NumberedLineFault, WrongLine};
use std::alloc::AllocError;
use step_meter::OutOfSteps;
use thiserror::Error;

/// Why the lines of a text aren't answered.
#[derive(Clone, Copy, Debug, Error)]
pub enum TraceFault {
    /// A line is wrong. None was done.
    #[error("{0}")]
    Line(WrongLine),
    /// As many Steps were done as may be, and a line asks for more.
    #[error("{0}")]
    Steps(OutOfSteps),
    #[error("memory")]
    Memory(#[from(alloc)] AllocError),
}

impl From<NumberedLineFault> for TraceFault {
    fn from(fault: NumberedLineFault) -> TraceFault {
        match fault {
            NumberedLineFault::Wrong(wrong) => TraceFault::Line(wrong),
            NumberedLineFault::Memory(error) => TraceFault::Memory(error),
        }
    }
}

impl From<OutOfSteps> for TraceFault {
    fn from(end: OutOfSteps) -> TraceFault {
        TraceFault::Steps(end)
    }
}
