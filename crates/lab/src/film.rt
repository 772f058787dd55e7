//! A record as a film.

use crate::debugging::read_programs;
use crate::failure::stopped_record;
use crate::programs::{ReadProgram, read_node_programs};
use lab_command::{LabFailure, Showing, TerminalMeter, read_file};
use lab_debug::ProgramOf;
use lab_film::{SourceLine, Span, film_of};
use node_trace::{LinePlace, ProgramLine};
use record_following::RecordStop;
use std::alloc::{AllocError, Global};

/// A span of a record as a film, with the lines of the programs that are named. Wrong words are reported before a
/// file is read.
pub fn print_film(rt: &HostRuntime, asked: &Showing) -> Result<String, LabFailure> {
    match read_programs(rt.alloc(), asked.programs.as_slice()) {
        Ok(programs) => print_record(rt, asked, programs.as_slice()),
        Err(fault) => Err(LabFailure::of_argument(rt.alloc(), fault)),
    }
}

fn print_record(
    rt: &HostRuntime,
    asked: &Showing,
    programs: &[ProgramOf],
) -> Result<String, LabFailure> {
    let programs = read_node_programs(rt, programs)?;
    let sources = sources_of(rt.alloc(), programs.as_slice())?;
    let record = read_file(rt, asked.record)?;
    match show(rt, record.as_slice(), asked, sources.as_slice()) {
        Ok(film) => Ok(film),
        Err(stop) => Err(stopped_record(rt.alloc(), stop)),
    }
}

// The lines of programs, as the film has them.
fn sources_of<'a>(
    alloc: Global,
    programs: &'a [ReadProgram],
) -> Result<Vec<SourceLine<'a>>, AllocError> {
    let mut sources = Vec::new(alloc);
    for it in programs {
        let lines = it.program.lines(alloc)?;
        for line in lines.as_slice() {
            sources.push(source_line(it.node, line))?;
        }
    }
    Ok(sources)
}

// A line of a node's program, as the film has it.
fn source_line<'a>(node: u8, line: &ProgramLine<'a>) -> SourceLine<'a> {
    let (label, occam_line, instance) = match line.place {
        LinePlace::Label(Some(label)) => (Some((label.name, label.address)), None, None),
        LinePlace::Label(None) => (None, None, None),
        LinePlace::Number { instance } => (None, Some(line.number), instance),
    };
    SourceLine {
        node,
        address: line.address,
        length: line.length,
        text: line.text,
        label,
        occam_line,
        instance,
    }
}

fn show(
    rt: &HostRuntime,
    record: &[u8],
    asked: &Showing,
    sources: &[SourceLine],
) -> Result<String, RecordStop> {
    let span = Span {
        from: asked.from,
        count: asked.count,
    };
    let mut meter = TerminalMeter::begin(rt, asked.most);
    let film = film_of(rt.alloc(), record, sources, span, &mut meter);
    meter.wipe();
    film
}
