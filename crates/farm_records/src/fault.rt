//! Why a record isn't done again, and why a head isn't made.

use std::alloc::{AllocError, AllocFailed};
use std::io;
use thiserror::Error;

/// Why a domain doesn't do a line of a record again.
#[derive(Clone, Copy, Debug, Error)]
pub enum RedoFault {
    /// It is no line of a record.
    #[error("it is no line of a record")]
    NoLine,
    /// The domain doesn't answer what it says, or doesn't record it.
    #[error("the domain doesn't answer so")]
    Differs,
    /// It was ended by who watches.
    #[error("it was ended")]
    Ended,
    #[error("memory")]
    Memory(#[from(alloc)] AllocError),
}

/// Why a record isn't done again.
#[derive(Debug, Drop, Error)]
pub enum RecordFault {
    /// It doesn't begin with the head of its domain.
    #[error("it begins with another plan")]
    Head,
    /// The line of this number in the whole text, from 1, isn't done again.
    #[error("line {number}: {fault}")]
    Line { number: u64, fault: RedoFault },
    /// It can't be read.
    #[error("{0}")]
    Io(io::Error),
    /// It was ended by who watches.
    #[error("it was ended")]
    Ended,
    #[error("memory")]
    Memory(#[from(alloc)] AllocError),
}

impl RecordFault {
    /// A read failed.
    pub fn of_read(error: io::Error) -> RecordFault {
        match error.kind() {
            io::ErrorKind::OutOfMemory => RecordFault::Memory(AllocError),
            _ => RecordFault::Io(error),
        }
    }

    /// A line isn't done again.
    pub fn of_line(number: u64, fault: RedoFault) -> RecordFault {
        match fault {
            RedoFault::Memory(error) => RecordFault::Memory(error),
            RedoFault::Ended => RecordFault::Ended,
            RedoFault::NoLine | RedoFault::Differs => RecordFault::Line { number, fault },
        }
    }
}

/// Why a head isn't made.
#[derive(Clone, Copy, Debug, Error)]
pub enum HeadFault {
    /// What was written doesn't read as the plan of the domain alone. That never happens, but it is looked at.
    #[error("the head of a record doesn't read as its plan")]
    Unlike,
    #[error("memory")]
    Memory(#[from(alloc)] AllocError),
}
