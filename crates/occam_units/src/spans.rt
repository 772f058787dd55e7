//! Which statements of a program belong to which line of its text.
ghost use Rattle.std.specs.Prelude.{◌≡◌, IfOk, length};
ghost use Rattle.occam_code.specs.Code.{process_code};

use crate::unit::{CoreUnit, UnitInstance};
use occam_code::{FrameWords, LineMark, emit_process};
use occam_core::{CorePlace, CoreProcess};
use std::alloc::{AllocError, Global};
use std::collections::HashMap;

/// The statements of a process that begins in a line of the text, those of the processes below it among them.
#[derive(Clone, Copy)]
pub struct LineSpan {
    /// The place of the first of them, and the place after the last.
    pub first: usize,
    pub end: usize,
    /// The number of the line.
    pub line: u32,
    /// The line of the instance, if the process is in the body of a PROC that was put in place.
    pub instance: Option<u32>,
}

// A place of a text as a number.
fn key_of(line: u32, column: u32) -> u64 {
    (u64::from(line) << 32) | u64::from(column)
}

/// The index of the procedure of each instance, by its place.
pub(crate) fn procedures_at(
    alloc: Global,
    instances: &[UnitInstance],
) -> Result<HashMap<u64, usize>, AllocError> {
    let mut places = HashMap::new(alloc);
    for instance in instances {
        places.insert(key_of(instance.line, instance.column), instance.procedure)?;
    }
    Ok(places)
}

/// The index of the procedure of the instance at a place, if one begins there.
pub(crate) fn procedure_at(places: &HashMap<u64, usize>, place: CorePlace) -> Option<usize> {
    places.get(&key_of(place.line, place.column)).copied()
}

// What is noted while a program is looked through.
#[derive(Drop)]
struct Spans<'b> {
    alloc: Global,
    procedures: HashMap<u64, usize>,
    marks: &'b [LineMark],
    found: Vec<LineSpan>,
}

impl Spans<'_> {
    // Adds the span of the next line, whose process is this.
    fn add(
        &mut self,
        place: CorePlace,
        instance: Option<u32>,
        p: &CoreProcess,
    ) -> Result<(), AllocError> {
        let first = match self.marks.get(self.found.len()) {
            Some(mark) => mark.place,
            None => 0,
        };
        let count = statements_of(self.alloc, p)?;
        self.found.push(LineSpan {
            first,
            end: first.saturating_add(count),
            line: place.line,
            instance,
        })?;
        Ok(())
    }

    // Adds the spans of a process, in the order of its code.
    fn gather(&mut self, instance: Option<u32>, p: &CoreProcess) -> Result<(), AllocError> {
        match p {
            CoreProcess::Line(place, p) => {
                self.add(*place, instance, p)?;
                let inner = match procedure_at(&self.procedures, *place) {
                    Some(_) => Some(place.line),
                    None => instance,
                };
                self.gather(inner, p)
            }
            CoreProcess::While(_, p) | CoreProcess::Repeat(_, _, _, p) => self.gather(instance, p),
            CoreProcess::Sequence(p, q)
            | CoreProcess::Parallel(p, q)
            | CoreProcess::Choose(_, p, q)
            | CoreProcess::If(_, p, q) => {
                self.gather(instance, p)?;
                self.gather(instance, q)
            }
            _ => Ok(()),
        }
    }
}

/// How many statements the code of a process has, wherever its words are.
pub(crate) fn statements_of(alloc: Global, p: &CoreProcess) -> Result<usize, AllocError>
    ensures { IfOk result (λ count. count ≡ length (process_code 0 (record { base = 1; temporary = 1 }) p.now)) }
{
    let words = FrameWords {
        base: 1,
        temporary: 1,
    };
    let mut code = Vec::new(alloc);
    let mut marks = Vec::new(alloc);
    emit_process(&mut code, &mut marks, words, p)?;
    Ok(code.len())
}

/// The spans of a unit's process in the order of their first statements: one after the span that it is in. `marks` are the marks of
/// its code, one for each line of it.
pub(crate) fn spans_of(
    alloc: Global,
    unit: &CoreUnit,
    marks: &[LineMark],
) -> Result<Vec<LineSpan>, AllocError> {
    let mut spans = Spans {
        alloc,
        procedures: procedures_at(alloc, unit.instances.as_slice())?,
        marks,
        found: Vec::new(alloc),
    };
    spans.gather(None, &unit.process)?;
    let Spans { found, .. } = spans;
    Ok(found)
}
