//! Why nothing is said of a record.

use domain_core::Refusal;
use lab_words::{NumberedLineFault, WordFault, WordMistake, WrongLine};
use plan_checker::PlanFault;
use std::alloc::{AllocError, AllocFailed};
use step_meter::OutOfSteps;
use thiserror::Error;

/// Why a line of a record isn't done.
#[derive(Clone, Copy, Debug, Error)]
pub enum FollowFault {
    /// It asks no single event of domain 0.
    #[error("a record has lines as `0 write 0 05 @0 = written` and `3 times 0 step 0 @farm = 3 ran`")]
    NoEvent,
    /// A word of it is wrong.
    #[error("{0}")]
    Words(WordMistake),
    /// The domain has no such user, host, node or port.
    #[error("the plan has no such user, host, node or port: take the plan that the record begins with")]
    NoSuch,
    /// The limit of the plan is reached.
    #[error("the record is at its limit of events: raise `limit` in its plan")]
    Full,
    /// Nothing is recorded of it.
    #[error("nothing happens here, so a record has no such line: leave it out")]
    NotRecorded,
    /// Not all Steps of the line ran.
    #[error("not all these Steps ran: write the last of them on a line of its own")]
    Fewer,
    /// The domain answers otherwise than the line says.
    #[error("the domain answers otherwise: a line before it is missing or was changed")]
    Differs,
    #[error("memory")]
    Memory(#[from(alloc)] AllocError),
}

impl From<WordFault> for FollowFault {
    fn from(fault: WordFault) -> FollowFault {
        match fault {
            WordFault::Wrong(mistake) => FollowFault::Words(mistake),
            WordFault::Memory(error) => FollowFault::Memory(error),
        }
    }
}

impl From<Refusal> for FollowFault {
    fn from(refusal: Refusal) -> FollowFault {
        match refusal {
            Refusal::NoSuch => FollowFault::NoSuch,
            Refusal::JournalFull => FollowFault::Full,
            Refusal::NoMemory => FollowFault::Memory(AllocError),
        }
    }
}

/// Why nothing is said of a text.
#[derive(Clone, Copy, Debug, Error)]
pub enum WhyFault {
    /// It has no line `---` after a plan.
    #[error("it is no record: a record is a plan, a line ---, and the events of its domain, as `live --record` writes it")]
    NoMark,
    /// Its plan is refused, with the number of its smallest fault.
    #[error("plan: {0}: `lab plan` says where and why")]
    Plan(u8),
    /// Its plan doesn't have one domain, but this number of them.
    #[error("the plan of a record has one domain, and this one has {0} (of a script, `lab run SCRIPT --record D` prints the record of domain D)")]
    Domains(u8),
    /// The line of this number in the whole text isn't done.
    #[error("line {number}: {fault}")]
    Line { number: u64, fault: FollowFault },
    /// A line of the whole text has a mistake.
    #[error("{0}; a record has lines as `0 write 0 05 @0 = written` (of a script, `lab run SCRIPT --record D` prints the record of domain D)")]
    Wrong(WrongLine),
    #[error("memory")]
    Memory(#[from(alloc)] AllocError),
}

impl WhyFault {
    /// The line of this number isn't done.
    pub fn of_line(number: u64, fault: FollowFault) -> WhyFault {
        match fault {
            FollowFault::Words(mistake) => WhyFault::Wrong(WrongLine {
                line: number,
                mistake,
            }),
            FollowFault::Memory(error) => WhyFault::Memory(error),
            fault => WhyFault::Line { number, fault },
        }
    }
}

impl From<PlanFault> for WhyFault {
    fn from(fault: PlanFault) -> WhyFault {
        match fault {
            PlanFault::NoMemory => WhyFault::Memory(AllocError),
            fault => WhyFault::Plan(fault.number()),
        }
    }
}

impl From<NumberedLineFault> for WhyFault {
    fn from(fault: NumberedLineFault) -> WhyFault {
        match fault {
            NumberedLineFault::Wrong(wrong) => WhyFault::Wrong(wrong),
            NumberedLineFault::Memory(error) => WhyFault::Memory(error),
        }
    }
}

/// Why a line of a record isn't done, if its Steps are counted.
#[derive(Clone, Copy, Debug, Error)]
pub enum LineStop {
    /// The domain doesn't do it, or answers otherwise.
    #[error("{0}")]
    Follow(FollowFault),
    /// It has more Steps than may be done.
    #[error("{0}")]
    Steps(OutOfSteps),
}

impl LineStop {
    /// The line of this number isn't done.
    pub fn at(self, number: u64) -> RecordStop {
        match self {
            LineStop::Follow(fault) => RecordStop::Record(WhyFault::of_line(number, fault)),
            LineStop::Steps(end) => RecordStop::Steps(end),
        }
    }
}

impl From<FollowFault> for LineStop {
    fn from(fault: FollowFault) -> LineStop {
        LineStop::Follow(fault)
    }
}

impl From<OutOfSteps> for LineStop {
    fn from(end: OutOfSteps) -> LineStop {
        LineStop::Steps(end)
    }
}

impl From<AllocError> for LineStop {
    fn from(error: AllocError) -> LineStop {
        LineStop::Follow(FollowFault::Memory(error))
    }
}

/// Why the lines of a record aren't done, if their Steps are counted.
#[derive(Clone, Copy, Debug, Error)]
pub enum RecordStop {
    /// It is no record, or a line of it isn't what its domain answers.
    #[error("{0}")]
    Record(WhyFault),
    /// Its lines have more Steps than may be done.
    #[error("{0}")]
    Steps(OutOfSteps),
}

impl From<WhyFault> for RecordStop {
    fn from(fault: WhyFault) -> RecordStop {
        RecordStop::Record(fault)
    }
}

impl From<AllocError> for RecordStop {
    fn from(error: AllocError) -> RecordStop {
        RecordStop::Record(WhyFault::Memory(error))
    }
}
