//! Why a line can't be done.

use crate::mistake::{WordMistake, WrongLine};
use std::alloc::AllocError;
use thiserror::Error;

/// Why the words of a line ask nothing.
#[derive(Clone, Copy, Debug, Error)]
pub enum WordFault {
    /// A word is wrong or missing, or there is one after the last.
    #[error("{0}")]
    Wrong(WordMistake),
    #[error("memory")]
    Memory(#[from(alloc)] AllocError),
}

impl WordFault {
    /// The same fault, of the line of this number.
    pub fn at(self, line: u64) -> NumberedLineFault {
        match self {
            WordFault::Wrong(mistake) => NumberedLineFault::Wrong(WrongLine { line, mistake }),
            WordFault::Memory(error) => NumberedLineFault::Memory(error),
        }
    }
}

/// Why the lines of a text can't be done.
#[derive(Clone, Copy, Debug, Error)]
pub enum NumberedLineFault {
    /// A line is wrong.
    #[error("{0}")]
    Wrong(WrongLine),
    #[error("memory")]
    Memory(#[from(alloc)] AllocError),
}
