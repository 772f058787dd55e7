//! Why a unit has no code.

use crate::compiling::CodeSize;
use crate::reading::MOST_UNIT_BYTES;
use crate::uses::UseMistake;
use std::alloc::{AllocError, AllocFailed};
use std::fmt;

/// What is wrong with a unit: the front end made a mistake, or another one wrote it.
#[derive(Drop)]
pub enum UnitFault {
    /// No front end answered.
    Absent,
    /// It is longer than [`MOST_UNIT_BYTES`].
    Length,
    /// It isn't the JSON of a unit.
    Json(serde_json::Error),
    /// It is of another version.
    Version(u32),
    /// The row of this index names a row that isn't before it, or that another row names.
    Row(RowList, usize),
    /// No row names the row of this index.
    Unnamed(RowList, usize),
    /// There is no process.
    Empty,
    /// The row of this index is nested too deeply.
    Depth(RowList, usize),
    /// The operation of this index doesn't give what is said.
    Fold(usize),
    /// The words of the variable of this index don't follow those of the one before it.
    Variable(usize),
    /// The link of this index is none, or another has its number.
    Link(usize),
    /// The instance of this index has no procedure.
    Instance(usize),
    /// The process speaks of a word or a link that there isn't.
    Bounds,
}

/// The lists of a unit that have rows.
#[derive(Clone, Copy)]
pub enum RowList {
    Expressions,
    Processes,
}

impl RowList {
    fn name(self) -> &'static str {
        match self {
            RowList::Expressions => "expressions",
            RowList::Processes => "processes",
        }
    }
}

impl fmt::Display for UnitFault {
    fn fmt<W: fmt::Write>(&self, f: &mut fmt::Formatter<W>) -> fmt::Result {
        match self {
            UnitFault::Absent => {
                f.write_str("nothing answered (the command `lab` starts the front end)")
            }
            UnitFault::Length => write!(f, "it has more than {MOST_UNIT_BYTES} bytes"),
            UnitFault::Json(error) => fmt::Display::fmt(error, f),
            UnitFault::Version(number) => write!(f, "it has version {number}, not 1"),
            UnitFault::Row(list, index) => write!(
                f,
                "{}[{index}] names a row that isn't before it, or that another row names",
                list.name()
            ),
            UnitFault::Unnamed(list, index) => {
                write!(f, "no row names {}[{index}]", list.name())
            }
            UnitFault::Empty => f.write_str("it has no process"),
            UnitFault::Depth(list, index) => {
                write!(f, "{}[{index}] is nested too deeply", list.name())
            }
            UnitFault::Fold(index) => write!(f, "folds[{index}] has another result"),
            UnitFault::Variable(index) => write!(
                f,
                "variables[{index}] doesn't follow the words before it, or there are too many words"
            ),
            UnitFault::Link(index) => {
                write!(f, "links[{index}] is no link, or one that is there already")
            }
            UnitFault::Instance(index) => write!(f, "instances[{index}] has no procedure"),
            UnitFault::Bounds => f.write_str("a process names a word or a link that isn't there"),
        }
    }
}

/// Why a text has no code.
#[derive(Drop)]
pub enum OccamFault {
    /// The front end found these mistakes in the text, each a line.
    Text(Vec<String>),
    /// What the front end wrote is no unit.
    Unit(UnitFault),
    /// Processes of a PAR use something together.
    Uses(UseMistake),
    /// Up to this line the code has more bytes than any memory.
    Code(u32),
    /// The node has less memory than the program takes, in bytes.
    Memory { size: CodeSize, memory: u32 },
    NoMemory,
}

impl From<UnitFault> for OccamFault {
    fn from(fault: UnitFault) -> OccamFault {
        OccamFault::Unit(fault)
    }
}

impl From<AllocError> for OccamFault {
    fn from(_error: AllocError) -> OccamFault {
        OccamFault::NoMemory
    }
}

impl<T: Drop> From<AllocFailed<T>> for OccamFault {
    fn from(_error: AllocFailed<T>) -> OccamFault {
        OccamFault::NoMemory
    }
}

/// Each mistake in a line of its own; no line feed after the last.
impl fmt::Display for OccamFault {
    fn fmt<W: fmt::Write>(&self, f: &mut fmt::Formatter<W>) -> fmt::Result {
        match self {
            OccamFault::Text(mistakes) => write_mistakes(f, mistakes.as_slice()),
            OccamFault::Unit(fault) => {
                write!(
                    f,
                    "line 1: fault 45: the compiler made a mistake, and its front end gave no program: {fault}"
                )
            }
            OccamFault::Uses(mistake) => fmt::Display::fmt(mistake, f),
            OccamFault::Code(line) => write!(
                f,
                "line {line}: fault 39: expected code of at most 65464 bytes, not more"
            ),
            OccamFault::Memory { size, memory } => write!(
                f,
                "fault 40: the program needs {} bytes of memory (code {}, variables {}), and the node has {memory}",
                size.whole(),
                size.code,
                size.variables
            ),
            OccamFault::NoMemory => f.write_str("out of memory"),
        }
    }
}

// Each mistake in a line of its own.
fn write_mistakes<W: fmt::Write>(f: &mut fmt::Formatter<W>, mistakes: &[String]) -> fmt::Result {
    for (index, mistake) in mistakes.iter().enumerate() {
        if index > 0 {
            f.write_str("\n")?;
        }
        f.write_str(mistake.as_str())?;
    }
    Ok(())
}
