//! Why a run ends early.
ghost use Rattle.std.specs.Prelude.{◌≡◌, ◌⊎◌};
ghost use Rattle.live_farm.specs.declared.failure.LiveFailure.TheVariants.{Memory};
ghost use Rattle.live_farm.specs.LiveStatuses.{live_status, file_status};

use plan_checker::PlanFault;
use record_files::FileFailure;
use script_text::write_whole;
use std::alloc::{AllocError, AllocFailed, Global};
use std::io::{self, Write};
use thiserror::Error;

/// Why no more lines are answered.
#[derive(Clone, Copy)]
pub enum LiveStop {
    /// There is no memory.
    Memory,
    /// A read or a write failed.
    Io,
    /// A thread couldn't be started.
    Threads,
}

impl LiveStop {
    /// A read failed.
    pub fn of_input(error: &io::Error) -> LiveStop {
        match error.kind() {
            io::ErrorKind::OutOfMemory => LiveStop::Memory,
            _ => LiveStop::Io,
        }
    }
}

impl From<AllocError> for LiveStop {
    fn from(_error: AllocError) -> LiveStop {
        LiveStop::Memory
    }
}

impl From<LiveStop> for LiveFailure {
    fn from(trouble: LiveStop) -> LiveFailure {
        match trouble {
            LiveStop::Memory => LiveFailure::Memory,
            LiveStop::Io => LiveFailure::Io,
            LiveStop::Threads => LiveFailure::Threads,
        }
    }
}

/// Why a run ends early, with the text for standard error.
#[derive(Debug, Error)]
pub enum LiveFailure {
    #[error("{0}")]
    Words(clap::Error),
    #[error("error: an argument isn't UTF-8\n")]
    Arguments,
    #[error("plan: {number}\n")]
    Plan { number: u8 },
    #[error("memory\n")]
    Memory,
    #[error("io\n")]
    Io,
    #[error("{0}")]
    File(FileFailure),
    #[error("the histories aren't those of the plan\n")]
    Histories,
    #[error("threads\n")]
    Threads,
}

// Dropped by hand, since a derived `Drop` makes callers prove the drop of each field.
impl Drop for LiveFailure {
    fn drop(self) {
        match self {
            LiveFailure::Words(_)
            | LiveFailure::Arguments
            | LiveFailure::Plan { number: _ }
            | LiveFailure::Memory
            | LiveFailure::Io
            | LiveFailure::File(_)
            | LiveFailure::Histories
            | LiveFailure::Threads => {}
        }
    }
}

// The status of a run that ends since it can't use a file.
fn status_of_file(failure: &FileFailure) -> u8
    ensures { result ≡ file_status failure.now }
{
    match failure {
        FileFailure::Memory => 5,
        FileFailure::System { .. } | FileFailure::Record { .. } | FileFailure::Histories => 6,
    }
}

impl LiveFailure {
    /// The arguments of the process couldn't be read.
    pub fn of_arguments(error: &io::Error) -> LiveFailure {
        match error.kind() {
            io::ErrorKind::OutOfMemory => LiveFailure::Memory,
            _ => LiveFailure::Arguments,
        }
    }

    /// The plan was refused.
    pub fn of_plan(fault: PlanFault) -> LiveFailure {
        match fault {
            PlanFault::NoMemory => LiveFailure::Memory,
            _ => LiveFailure::Plan {
                number: fault.number(),
            },
        }
    }

    /// The status of the process.
    pub fn status(&self) -> u8
        ensures { result ≡ live_status self.now }
    {
        match self {
            LiveFailure::Words(_) | LiveFailure::Arguments => 2,
            LiveFailure::Plan { .. } => 3,
            LiveFailure::Memory => 5,
            LiveFailure::File(failure) => status_of_file(failure),
            LiveFailure::Io | LiveFailure::Histories => 6,
            LiveFailure::Threads => 7,
        }
    }

    /// Writes the text, and gives the status: 5 if there is no memory for the text. If the text can't be written, the
    /// status stays.
    pub fn report<E: Write>(&self, alloc: Global, errors: &mut E) -> u8
        ensures { (result ≡ live_status self.now) ⊎ (result ≡ 5) }
    {
        match format!(in alloc; "{self}") {
            Ok(text) => {
                let _ = write_whole(errors, text.as_bytes());
                self.status()
            }
            Err(_) => {
                let _ = write_whole(errors, b"memory\n");
                5
            }
        }
    }
}

impl From<FileFailure> for LiveFailure {
    fn from(failure: FileFailure) -> LiveFailure {
        LiveFailure::File(failure)
    }
}

impl From<AllocError> for LiveFailure {
    ghost from_gives = { λ _ failure. failure ≡ Memory };

    fn from(_error: AllocError) -> LiveFailure {
        LiveFailure::Memory
    }
}

impl<T: Drop> From<AllocFailed<T>> for LiveFailure {
    ghost from_gives = { λ _ failure. failure ≡ Memory };

    fn from(_error: AllocFailed<T>) -> LiveFailure {
        LiveFailure::Memory
    }
}
