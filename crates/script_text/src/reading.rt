//! Reading a stream to its end.
ghost use Rattle.std.specs.Prelude.{◌≡◌, IfOk, IfSome};
ghost use Rattle.script_text.specs.ReadFaults.{read_fault_number};

use std::alloc::{AllocError, AllocFailed, Global};
use std::io::Read;
use thiserror::Error;

/// The reads after which an input that hasn't ended is given up.
pub const MOST_READS: u32 = 4_194_304;

/// Why a stream gives no text.
#[derive(Clone, Copy, Debug, Error)]
pub enum ReadFault {
    /// A read failed, or the stream hadn't ended after `MOST_READS` reads.
    #[error("a read failed")]
    Failed,
    /// What was read can't be kept.
    #[error("no memory")]
    NoMemory,
}

impl ReadFault {
    /// The number of the fault: 1 where a read failed, 2 if memory ran out.
    pub fn number(self) -> u8
        ensures { result ≡ read_fault_number self }
    {
        match self {
            ReadFault::Failed => 1,
            ReadFault::NoMemory => 2,
        }
    }
}

impl From<AllocError> for ReadFault {
    fn from(_error: AllocError) -> ReadFault {
        ReadFault::NoMemory
    }
}

impl<T: Drop> From<AllocFailed<T>> for ReadFault {
    fn from(_error: AllocFailed<T>) -> ReadFault {
        ReadFault::NoMemory
    }
}

/// Reads to the end of the input.
///
/// `Failed` if a read fails or the end doesn't come within `MOST_READS` reads; `NoMemory` if what was read can't be
/// kept.
pub fn read_whole<R: Read>(alloc: Global, input: &mut R) -> Result<Vec<u8>, ReadFault>
    ensures { IfOk result (λ bytes. IfSome (R.remaining input.old) (λ left. bytes.items ≡ left)) }
{
    let mut bytes = Vec::new(alloc);
    let mut piece = [0u8; 1024];
    for _ in 0..MOST_READS {
        match input.read(&mut piece) {
            Ok(0) => return Ok(bytes),
            Ok(count) => bytes.extend_from_slice(&piece[..count])?,
            Err(_) => return Err(ReadFault::Failed),
        }
    }
    Err(ReadFault::Failed)
}
