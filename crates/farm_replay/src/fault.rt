//! Why a farm on one thread doesn't do all that is asked.

use domain_core::Refusal;
use std::alloc::AllocError;
use step_meter::OutOfSteps;
use thiserror::Error;

/// Why a domain doesn't do all that is asked of it.
#[derive(Clone, Copy)]
pub enum AskFault {
    /// The farm refuses it.
    Refused(Refusal),
    /// More Steps are wanted than may be done.
    Steps(OutOfSteps),
}

impl From<Refusal> for AskFault {
    fn from(refusal: Refusal) -> AskFault {
        AskFault::Refused(refusal)
    }
}

impl From<OutOfSteps> for AskFault {
    fn from(end: OutOfSteps) -> AskFault {
        AskFault::Steps(end)
    }
}

/// Why a farm ends before all is answered.
#[derive(Clone, Copy, Debug, Error)]
pub enum FarmStop {
    /// More Steps are wanted than may be done.
    #[error("{0}")]
    Steps(OutOfSteps),
    #[error("memory")]
    Memory(#[from(alloc)] AllocError),
}
