//! Why a run ends without its output, and what is written about it.
ghost use Rattle.std.specs.Prelude.{◌≡◌, OnOk, OnErr};
ghost use Rattle.std.specs.Io.KnownBytes.{Appends};
ghost use Rattle.script_text.specs.Writing.{AppendsBeginning};
ghost use Rattle.farm_cli.specs.declared.failure.FarmFailure.TheVariants.{Memory};
ghost use Rattle.farm_cli.specs.Failures.{EndsBy, failure_of_input, failure_of_plan, failure_of_script, failure_status, failure_text};

use itoa::Buffer;
use plan_checker::PlanFault;
use script_lines::{LineFault, ScriptFault};
use script_text::{ReadFault, WriteFailed, write_texts, write_whole};
use std::alloc::AllocError;
use std::io::Write;

/// Why a run ends without its output.
#[derive(Clone, Copy, Debug)]
pub enum FarmFailure {
    /// The plan is refused.
    Plan(PlanFault),
    /// The script is refused: its first line that is wrong, by its number from 1.
    Line { number: u64, fault: LineFault },
    /// There is no memory.
    Memory,
    /// A stream failed.
    Io,
}

/// How a run ends.
#[derive(Clone, Copy)]
pub struct Ending {
    /// The status of the process.
    pub status: u8,
    /// Whether standard error took all that is written there.
    pub stderr_written: bool,
}

impl FarmFailure {
    // The status of the process.
    fn status(self) -> u8
        ensures { result ≡ failure_status self }
    {
        match self {
            FarmFailure::Plan(_) => 3,
            FarmFailure::Line { .. } => 4,
            FarmFailure::Memory => 5,
            FarmFailure::Io => 6,
        }
    }

    // Writes the text of the failure.
    fn write<E: Write>(self, errors: &mut E) -> Result<(), WriteFailed>
        ensures whole { OnOk result (Appends (E.contents errors.old) (E.contents errors.new) (failure_text self)) }
        ensures begun { OnErr result (AppendsBeginning (E.contents errors.old) (E.contents errors.new) (failure_text self)) }
    {
        let mut digits = Buffer::new();
        match self {
            FarmFailure::Plan(fault) => {
                write_texts(errors, &["plan: ", digits.format(fault.number()), "\n"])
            }
            FarmFailure::Line { number, fault } => {
                let number = digits.format(number);
                write_texts(errors, &["line ", number, ": ", fault.word(), "\n"])
            }
            FarmFailure::Memory => write_whole(errors, b"memory\n"),
            FarmFailure::Io => write_whole(errors, b"io\n"),
        }
    }

    /// Ends a run by this failure: writes its text, and returns its status. The status is the same
    /// if the text can't be written.
    pub fn report<E: Write>(self, errors: &mut E) -> Ending
        ensures { EndsBy self result (E.contents errors.old) (E.contents errors.new) }
    {
        Ending {
            status: self.status(),
            stderr_written: self.write(errors).is_ok(),
        }
    }
}

impl From<AllocError> for FarmFailure {
    ghost from_gives = { λ _ failure. failure ≡ Memory };

    fn from(_error: AllocError) -> FarmFailure {
        FarmFailure::Memory
    }
}

impl From<ReadFault> for FarmFailure {
    ghost from_gives = { λ fault failure. failure ≡ failure_of_input fault };

    fn from(fault: ReadFault) -> FarmFailure {
        match fault {
            ReadFault::Failed => FarmFailure::Io,
            ReadFault::NoMemory => FarmFailure::Memory,
        }
    }
}

impl From<PlanFault> for FarmFailure {
    ghost from_gives = { λ fault failure. failure ≡ failure_of_plan fault };

    fn from(fault: PlanFault) -> FarmFailure {
        match fault {
            PlanFault::NoMemory => FarmFailure::Memory,
            _ => FarmFailure::Plan(fault),
        }
    }
}

impl From<ScriptFault> for FarmFailure {
    ghost from_gives = { λ fault failure. failure ≡ failure_of_script fault };

    fn from(fault: ScriptFault) -> FarmFailure {
        match fault {
            ScriptFault::Line { number, fault } => FarmFailure::Line { number, fault },
            ScriptFault::NoMemory => FarmFailure::Memory,
        }
    }
}
