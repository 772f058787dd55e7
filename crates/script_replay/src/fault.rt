//! Why a text isn't replayed or run.

use farm_records::HeadFault;
use farm_replay::FarmStop;
use lab_words::{NumberedLineFault, WrongLine};
use plan_checker::PlanFault;
use std::alloc::{AllocError, AllocFailed};
use step_meter::OutOfSteps;
use thiserror::Error;

/// Why a text isn't replayed. None of its lines is answered then.
#[derive(Debug, Drop, Error)]
pub enum ReplayFault {
    /// The plan that begins at this line is refused.
    #[error("plan: {number}: {fault}, in the plan that begins at line {line} (`lab plan` says where)", number = .fault.number())]
    Plan { fault: PlanFault, line: u64 },
    /// The plan that begins at this line is refused, and no line divides it from what comes after it.
    #[error("plan: {number}: {fault}, in the plan that begins at line {line} (no line after it is just ---, so all was read as the plan)", number = .fault.number())]
    NoMark { fault: PlanFault, line: u64 },
    /// A line of the whole text is wrong.
    #[error("{0}")]
    Line(WrongLine),
    /// A user's line is wrong: the message about it, and the line.
    #[error("{told}")]
    OfUser { told: String, line: Vec<u8> },
    /// More Steps are wanted than may be done.
    #[error("{0}")]
    Steps(OutOfSteps),
    #[error("memory")]
    Memory(#[from(alloc)] AllocError),
}

impl ReplayFault {
    /// The plan that begins at this line is refused, and a mark comes after it or doesn't.
    pub(crate) fn of_plan(fault: PlanFault, line: u64, is_marked: bool) -> ReplayFault {
        match fault {
            PlanFault::NoMemory => ReplayFault::Memory(AllocError),
            _ if is_marked => ReplayFault::Plan { fault, line },
            _ => ReplayFault::NoMark { fault, line },
        }
    }
}

impl From<NumberedLineFault> for ReplayFault {
    fn from(fault: NumberedLineFault) -> ReplayFault {
        match fault {
            NumberedLineFault::Wrong(line) => ReplayFault::Line(line),
            NumberedLineFault::Memory(error) => ReplayFault::Memory(error),
        }
    }
}

impl From<FarmStop> for ReplayFault {
    fn from(stop: FarmStop) -> ReplayFault {
        match stop {
            FarmStop::Steps(end) => ReplayFault::Steps(end),
            FarmStop::Memory(error) => ReplayFault::Memory(error),
        }
    }
}

/// Why a script isn't run. None of its lines is answered then.
#[derive(Debug, Drop, Error)]
pub enum RunFault {
    /// The plan is refused.
    #[error("plan: {number}: {fault}", number = .fault.number())]
    Plan { fault: PlanFault },
    /// The same, and no line divides it from what comes after it.
    #[error("plan: {number}: {fault} (no line after it is just ---, so all was read as the plan)", number = .fault.number())]
    NoMark { fault: PlanFault },
    /// Lines are wrong, with a message about each.
    #[error("{0}")]
    Lines(String),
    /// The plan has no domain of this number.
    #[error("the farm has no domain {0}")]
    Domain(u8),
    /// The head of the domain's record can't be made.
    #[error("{0}")]
    Head(HeadFault),
    /// More Steps are wanted than may be done.
    #[error("{0}")]
    Steps(OutOfSteps),
    #[error("memory")]
    Memory(#[from(alloc)] AllocError),
}

impl RunFault {
    /// The plan is refused, and a mark comes after it or doesn't.
    pub fn of_plan(fault: PlanFault, is_marked: bool) -> RunFault {
        match fault {
            PlanFault::NoMemory => RunFault::Memory(AllocError),
            fault if is_marked => RunFault::Plan { fault },
            fault => RunFault::NoMark { fault },
        }
    }
}

impl From<HeadFault> for RunFault {
    fn from(fault: HeadFault) -> RunFault {
        match fault {
            HeadFault::Memory(error) => RunFault::Memory(error),
            fault => RunFault::Head(fault),
        }
    }
}

impl From<FarmStop> for RunFault {
    fn from(stop: FarmStop) -> RunFault {
        match stop {
            FarmStop::Steps(end) => RunFault::Steps(end),
            FarmStop::Memory(error) => RunFault::Memory(error),
        }
    }
}
