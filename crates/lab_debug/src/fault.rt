//! Why the debugger ends before its input does.

use record_following::{RecordStop, WhyFault};
use script_text::WriteFailed;
use std::alloc::{AllocError, AllocFailed};
use std::io;
use step_meter::OutOfSteps;
use thiserror::Error;

/// Why the debugger ends before its input does.
#[derive(Clone, Copy, Debug, Error)]
pub enum DebugFault {
    /// A text is no record, or a line of it isn't what its domain answers.
    #[error("{0}")]
    Record(WhyFault),
    /// The record has more Steps than may be done.
    #[error("{0}")]
    Steps(OutOfSteps),
    #[error("memory")]
    Memory(#[from(alloc)] AllocError),
    /// The commands can't be read, or the answers can't be written.
    #[error("io")]
    Io,
}

impl From<WhyFault> for DebugFault {
    fn from(fault: WhyFault) -> DebugFault {
        match fault {
            WhyFault::Memory(error) => DebugFault::Memory(error),
            fault => DebugFault::Record(fault),
        }
    }
}

impl From<RecordStop> for DebugFault {
    fn from(fault: RecordStop) -> DebugFault {
        match fault {
            RecordStop::Record(fault) => DebugFault::from(fault),
            RecordStop::Steps(end) => DebugFault::Steps(end),
        }
    }
}

impl From<io::Error> for DebugFault {
    fn from(error: io::Error) -> DebugFault {
        match error.kind() {
            io::ErrorKind::OutOfMemory => DebugFault::Memory(AllocError),
            _ => DebugFault::Io,
        }
    }
}

impl From<WriteFailed> for DebugFault {
    fn from(_error: WriteFailed) -> DebugFault {
        DebugFault::Io
    }
}
