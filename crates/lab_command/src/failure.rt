//! Why the lab ends without its output.

use bootstrap::{LEAST_BOOTED, MOST_BOOTED};
use lab_words::NumberedLineFault;
use script_text::{ReadFault, write_whole};
use std::alloc::{AllocError, AllocFailed, Global};
use std::fmt;
use std::io::Write;
use step_meter::OutOfSteps;
use thiserror::Error;

/// The status if the words of the command line are wrong.
pub const WRONG_WORDS: u8 = 2;
/// The status if a plan is refused.
pub const REFUSED_PLAN: u8 = 3;
/// The status if a text has a mistake, or asks for what isn't there.
pub const WRONG_TEXT: u8 = 4;

/// The status if there is no memory.
pub const NO_MEMORY: u8 = 5;
/// The status if a file can't be read, or a stream fails.
pub const NOT_READ: u8 = 6;

const OUT_OF_STEPS: u8 = 7;

/// What is wrong with words that the parser takes.
#[derive(Clone, Copy, Debug, Error)]
pub enum ArgumentFault {
    #[error("an argument isn't UTF-8")]
    Arguments,
    /// The words name no subcommand.
    #[error("a subcommand is missing")]
    Subcommand,
    /// The code of `--boot` isn't hexadecimal digits.
    #[error("the code is not hexadecimal digits, two for each byte and no 0x before them (`lab assemble` prints them of a program)")]
    Code,
    /// The code has this number of bytes, which no boot takes.
    #[error("the code has {0} bytes, and a boot takes {least} to {most}{hint}", least = LEAST_BOOTED, most = MOST_BOOTED, hint = hint_of_length(*.0))]
    Length(usize),
    /// What comes after `--program` is no node and file.
    #[error("--program takes the number of a node, and a file")]
    Program,
    /// More than one of `--boot`, `--program` and `--plan` are given.
    #[error("--boot, --program and --plan each say what is traced: write one of them")]
    TwoCodes,
    /// Options of `trace` are given that don't go with what is traced.
    #[error("--until and --input go with --boot or --program, and --domain with --plan")]
    TraceOptions,
    /// More than one form is asked for.
    #[error("--code, --listing, --pokes, --core and --sizes each say how a program is printed: write one of them")]
    OccamForms,
    /// `--memory` is no size that a node may have.
    #[error("--memory takes the bytes of a node's memory, a multiple of 4 from 2048 to 65536: --memory 4096")]
    MemorySize,
    /// `--until` is no address, and no label of a program.
    #[error("--until takes an address, one to eight hexadecimal digits, or a label of --program: --until 8000004c")]
    Address,
    /// `--input` is no link with bytes.
    #[error("--input takes a link, 0 to 3, a colon and bytes in hexadecimal digits: --input 1:0a0b")]
    Input,
    #[error("memory")]
    Memory(#[from(alloc)] AllocError),
}

// A hint at what loads code of `count` bytes, if there are too many for a boot.
fn hint_of_length(count: usize) -> &'static str {
    if count > MOST_BOOTED {
        " (`lab assemble --pokes HOST USER` prints the lines of a script that load more)"
    } else {
        ""
    }
}

/// Why the lab ends without its output.
#[derive(Drop)]
pub enum LabFailure {
    /// This text is written to standard error, and the process ends with this status.
    Shown {
        text: String,
        status: u8,
    },
    /// The same of a text that was read, which is wrong.
    Refused {
        text: String,
        source: Vec<u8>,
        status: u8,
    },
    Memory,
    /// Standard input can't be read, or standard output can't be written.
    Io,
}

impl LabFailure {
    /// The failure with this text, or `Memory` if there was no memory for the text.
    pub fn of_text(text: Result<String, AllocError>, status: u8) -> LabFailure {
        match text {
            Ok(text) => LabFailure::Shown { text, status },
            Err(_) => LabFailure::Memory,
        }
    }

    /// A line says this.
    pub fn of_line<T: fmt::Display>(alloc: Global, told: &T, status: u8) -> LabFailure {
        LabFailure::of_text(format!(in alloc; "{told}\n"), status)
    }

    /// The same failure, of this text.
    pub fn of_source(self, source: Vec<u8>) -> LabFailure {
        match self {
            LabFailure::Shown { text, status } => LabFailure::Refused {
                text,
                source,
                status,
            },
            failure => failure,
        }
    }

    // `clap` refuses the words.
    pub(crate) fn of_words(alloc: Global, error: &clap::Error) -> LabFailure {
        LabFailure::of_text(format!(in alloc; "{error}"), WRONG_WORDS)
    }

    /// Words that the parser takes are wrong.
    pub fn of_argument(alloc: Global, fault: ArgumentFault) -> LabFailure {
        match fault {
            ArgumentFault::Memory(_) => LabFailure::Memory,
            fault => LabFailure::of_text(format!(in alloc; "error: {fault}\n"), WRONG_WORDS),
        }
    }

    /// A line of a text has a mistake.
    pub fn of_numbered(alloc: Global, fault: NumberedLineFault) -> LabFailure {
        match fault {
            NumberedLineFault::Wrong(wrong) => LabFailure::of_line(alloc, &wrong, WRONG_TEXT),
            NumberedLineFault::Memory(_) => LabFailure::Memory,
        }
    }

    /// As many Steps were done as may be.
    pub fn of_steps(alloc: Global, end: OutOfSteps) -> LabFailure {
        LabFailure::of_line(alloc, &end, OUT_OF_STEPS)
    }

    /// The same failure, with the name of the file that it is about before its text.
    pub fn in_file(self, alloc: Global, file: &str) -> LabFailure {
        let status = self.status();
        LabFailure::of_text(format!(in alloc; "{file}: {}", self.text()), status)
    }

    // The text for standard error.
    fn text(&self) -> &str {
        match self {
            LabFailure::Shown { text, .. } | LabFailure::Refused { text, .. } => text.as_str(),
            LabFailure::Memory => "memory\n",
            LabFailure::Io => "io\n",
        }
    }

    // The status of the process.
    fn status(&self) -> u8 {
        match self {
            LabFailure::Shown { status, .. } | LabFailure::Refused { status, .. } => *status,
            LabFailure::Memory => NO_MEMORY,
            LabFailure::Io => NOT_READ,
        }
    }

    /// Writes the text, and gives the status. If the text can't be written, the status stays.
    pub fn tell<E: Write>(&self, errors: &mut E) -> u8 {
        let _ = write_whole(errors, self.text().as_bytes());
        self.status()
    }
}

impl From<AllocError> for LabFailure {
    fn from(_error: AllocError) -> LabFailure {
        LabFailure::Memory
    }
}

impl<T: Drop> From<AllocFailed<T>> for LabFailure {
    fn from(_error: AllocFailed<T>) -> LabFailure {
        LabFailure::Memory
    }
}

impl From<ReadFault> for LabFailure {
    fn from(fault: ReadFault) -> LabFailure {
        match fault {
            ReadFault::Failed => LabFailure::Io,
            ReadFault::NoMemory => LabFailure::Memory,
        }
    }
}
