//! Why a file that a farm needs can't be used.
ghost use Rattle.std.specs.Prelude.{◌≡◌};
ghost use Rattle.record_files.specs.declared.failure.FileFailure.TheVariants.{Memory};

use std::alloc::{AllocError, AllocFailed, Global};
use std::io;
use thiserror::Error;

/// Why a file that a farm needs, or the folder of its records, can't be used, with the text for standard error.
#[derive(Debug, Error)]
pub enum FileFailure {
    /// There is no memory.
    #[error("memory\n")]
    Memory,
    /// A call of the system on this path failed.
    #[error("{path}: {error}\n")]
    System { path: String, error: io::Error },
    /// A record can't be taken, or the folder isn't free.
    #[error("{path}: {why}\n")]
    Record { path: String, why: String },
    /// The records aren't those of the plan.
    #[error("the histories aren't those of the plan\n")]
    Histories,
}

// Dropped by hand, since a derived `Drop` makes callers prove the drop of each field.
impl Drop for FileFailure {
    fn drop(self) {
        match self {
            FileFailure::Memory
            | FileFailure::System { path: _, error: _ }
            | FileFailure::Record { path: _, why: _ }
            | FileFailure::Histories => {}
        }
    }
}

impl FileFailure {
    /// A call of the system on a path failed.
    pub fn of_file(alloc: Global, path: &str, error: io::Error) -> FileFailure {
        if error.kind() == io::ErrorKind::OutOfMemory {
            return FileFailure::Memory;
        }
        match String::from_str(alloc, path) {
            Ok(path) => FileFailure::System { path, error },
            Err(_) => FileFailure::Memory,
        }
    }

    /// A record can't be taken, or the folder isn't free.
    pub fn of_record(alloc: Global, path: &str, why: &str) -> FileFailure {
        let Ok(path) = String::from_str(alloc, path) else {
            return FileFailure::Memory;
        };
        match String::from_str(alloc, why) {
            Ok(why) => FileFailure::Record { path, why },
            Err(_) => FileFailure::Memory,
        }
    }
}

impl From<AllocError> for FileFailure {
    ghost from_gives = { λ _ failure. failure ≡ Memory };

    fn from(_error: AllocError) -> FileFailure {
        FileFailure::Memory
    }
}

impl<T: Drop> From<AllocFailed<T>> for FileFailure {
    ghost from_gives = { λ _ failure. failure ≡ Memory };

    fn from(_error: AllocFailed<T>) -> FileFailure {
        FileFailure::Memory
    }
}
