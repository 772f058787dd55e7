//! The faults of a text, in the order of its lines.
ghost use Rattle.std.specs.Prelude.{◌≡◌, ◌<◌, ◌↔◌, true, IfOk, None, length, take, map, slice_index_or};
ghost use Rattle.t414_assembly.specs.Faults.{wrong_lines};
ghost use Rattle.t414_assembly.specs.declared.faults.ProgramFault.TheVariants as program_fault;

use crate::fault::{FaultyLine, Mismatch, fault_in};
use script_text::NumberedLine;
use std::alloc::{AllocError, Global};
use std::fmt;
use thiserror::Error;

/// How many faults of a text are shown at most.
pub const MOST_FAULTS: usize = 20;

/// The faults of a text, one of each line that is wrong, in the order of the lines.
#[derive(Drop)]
pub struct FaultList {
    /// The first `MOST_FAULTS` of them, or all if there are fewer.
    pub faults: Vec<FaultyLine>,
    /// Whether more lines are wrong.
    pub has_more: bool,
}

/// One line for each fault, and one more if more lines are wrong. There is no line end after the last of them.
impl fmt::Display for FaultList {
    fn fmt<W: fmt::Write>(&self, f: &mut fmt::Formatter<W>) -> fmt::Result {
        for (place, fault) in self.faults.iter().enumerate() {
            if place > 0 {
                f.write_str("\n")?;
            }
            fmt::Display::fmt(fault, f)?;
        }
        if self.has_more {
            f.write_str("\nMore lines are wrong")?;
        }
        Ok(())
    }
}

/// As it is shown.
impl fmt::Debug for FaultList {
    fn fmt<W: fmt::Write>(&self, f: &mut fmt::Formatter<W>) -> fmt::Result {
        fmt::Display::fmt(self, f)
    }
}

/// Why a text is no program.
#[derive(Debug, Drop, Error)]
pub enum ProgramFault {
    /// Lines of it are wrong.
    #[error("{0}")]
    Wrong(FaultList),
    #[error("out of memory")]
    NoMemory,
}

impl From<AllocError> for ProgramFault {
    ghost from_gives = { λ _ fault. fault ≡ program_fault.NoMemory };

    fn from(_error: AllocError) -> ProgramFault {
        ProgramFault::NoMemory
    }
}

/// The faults of the lines, up to `MOST_FAULTS`. `mismatches` has what is wrong with each line, if anything is.
pub fn first_faults(
    alloc: Global,
    source: &[NumberedLine<'_>],
    mismatches: &[Option<Mismatch<'_>>],
) -> Result<FaultList, AllocError>
    ensures first { IfOk result (λ list. map (λ fault. fault.line) list.faults.items ≡ take 20 (wrong_lines mismatches.now source.now)) }
    ensures more { IfOk result (λ list. (list.has_more ≡ true) ↔ (20 < length (wrong_lines mismatches.now source.now))) }
{
    let mut faults = Vec::new(alloc);
    for (index, line) in source.iter().enumerate() {
        let mismatch = mismatch_at(mismatches, index);
        if let Some(mismatch) = mismatch {
            if faults.len() >= MOST_FAULTS {
                return Ok(FaultList {
                    faults,
                    has_more: true,
                });
            }
            faults.push(fault_in(alloc, *line, mismatch)?)?;
        }
    }
    Ok(FaultList {
        faults,
        has_more: false,
    })
}

// What is wrong with the line of this index, from 0; nothing after the last line.
fn mismatch_at<'a>(mismatches: &[Option<Mismatch<'a>>], index: usize) -> Option<Mismatch<'a>>
    ensures { result ≡ slice_index_or mismatches.now index None }
{
    if index < mismatches.len() {
        mismatches[index]
    } else {
        None
    }
}
