//! Why the nodes of a record wait.

use crate::debugging::read_programs;
use crate::failure::stopped_record;
use crate::programs::{ReadProgram, read_node_programs};
use lab_command::{Explaining, LabFailure, TerminalMeter, read_file};
use lab_debug::{ProgramOf, write_waits};
use node_causes::explain_replayed;
use record_following::{RecordStop, ReplayedDomain, apply_record, read_record};
use script_text::TextWriter;
use std::alloc::{AllocError, Global};

/// Says why each node waits, halted or runs on, at this moment of a record, and in which lines of its program if that is
/// named. Wrong words are reported before a file is read.
pub fn print_why(rt: &HostRuntime, asked: &Explaining) -> Result<String, LabFailure> {
    match read_programs(rt.alloc(), asked.programs.as_slice()) {
        Ok(programs) => print_causes(rt, asked, programs.as_slice()),
        Err(fault) => Err(LabFailure::of_argument(rt.alloc(), fault)),
    }
}

fn print_causes(
    rt: &HostRuntime,
    asked: &Explaining,
    programs: &[ProgramOf],
) -> Result<String, LabFailure> {
    let programs = read_node_programs(rt, programs)?;
    let record = read_file(rt, asked.record)?;
    match explain(rt, record.as_slice(), asked, programs.as_slice()) {
        Ok(text) => Ok(text),
        Err(stop) => Err(stopped_record(rt.alloc(), stop)),
    }
}

fn explain(
    rt: &HostRuntime,
    text: &[u8],
    asked: &Explaining,
    programs: &[ReadProgram],
) -> Result<String, RecordStop> {
    let record = read_record(rt.alloc(), text, asked.events)?;
    let mut meter = TerminalMeter::begin(rt, asked.most);
    let followed = apply_record(
        rt.alloc(),
        &record.plan,
        record.lines.as_slice(),
        &mut meter,
    );
    meter.wipe();
    let replayed = followed?;
    Ok(causes_of(rt.alloc(), &replayed, record.is_cut, programs)?)
}

// Why each node waits, and below it the lines of the programs in which they do.
fn causes_of(
    alloc: Global,
    replayed: &ReplayedDomain,
    is_cut: bool,
    programs: &[ReadProgram],
) -> Result<String, AllocError> {
    let mut told = TextWriter::new(alloc);
    told.push(explain_replayed(alloc, replayed, is_cut)?.as_str());
    for of in programs {
        write_waits(alloc, replayed, of.node, &of.program, &mut told)?;
    }
    told.finish()
}
