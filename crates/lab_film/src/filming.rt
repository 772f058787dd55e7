//! A record becomes a film.
ghost use Rattle.std.specs.Prelude.{◌≡◌, length};

use crate::NoMemory;
use crate::changes::{FrameChanges, ShownFrame, changes_of};
use crate::code::KnownCode;
use crate::frame::{Frame, frame_of};
use crate::json::{LineFrames, json_text, line_told};
use crate::plan::plan_told;
use crate::shot::{Shot, shot_of};
use crate::sources::{SourceLine, write_sources};
use crate::steps::next_steps;
use plan_checker::AcceptedPlan;
use record_following::{
    LineStop, Record, RecordCursor, RecordStop, RecordedLine, ReplayedDomain, check_answer,
    read_record,
};
use script_text::TextWriter;
use std::alloc::Global;
use step_meter::StepMeter;

/// Which part of a record is shown.
#[derive(Clone, Copy)]
pub struct Span {
    /// How many events are done before the first frame.
    pub from: u64,
    /// How many frames follow it at most.
    pub count: u64,
}

// How far a record was done, what is known of its domain's memories, the last frame that was written, and how many frames may
// still follow.
struct Filming {
    alloc: Global,
    cursor: RecordCursor,
    known: KnownCode,
    last: ShownFrame,
    left: u64,
}

// Dropped by hand, since a derived `Drop` makes callers prove the drop of each field.
impl Drop for Filming {
    fn drop(self) {
        let Filming {
            alloc: _,
            cursor: _,
            known: _,
            last: _,
            left: _,
        } = self;
    }
}

impl Filming {
    // Makes this frame the last one, and returns what changed since the one before.
    fn turn_to(&mut self, frame: Frame) -> Result<FrameChanges, NoMemory> {
        let frame = ShownFrame::of(self.alloc, frame)?;
        let changes = changes_of(
            self.alloc,
            &mut self.known,
            &self.cursor.replayed,
            Some(&self.last),
            &frame,
        )?;
        self.last = frame;
        self.left = self.left.saturating_sub(1);
        Ok(changes)
    }

    // Does at most `most` of the events that are left of a line, and adds what changed.
    fn show_part<M: StepMeter>(
        &mut self,
        most: u64,
        frames: &mut LineFrames,
        meter: &mut M,
    ) -> Result<(), LineStop> {
        let Shot { outcome, frame } = shot_of(self.alloc, &mut self.cursor, most, meter)?;
        frames.outcome = Some(outcome);
        self.add_frame(frame, frames)?;
        Ok(())
    }

    // Adds what changed.
    fn add_frame(&mut self, frame: Frame, frames: &mut LineFrames) -> Result<(), NoMemory> {
        let changes = self.turn_to(frame)?;
        frames.then.push(changes)?;
        Ok(())
    }

    // Does what is left of a line, or as much as may follow, part by part.
    fn show_parts<M: StepMeter>(
        &mut self,
        frames: &mut LineFrames,
        meter: &mut M,
    ) -> Result<(), LineStop> {
        let times = self.cursor.rest.times;
        for _ in 0..self.left {
            let shown = times.saturating_sub(self.cursor.rest.times);
            if shown >= times {
                break;
            }
            self.show_part(next_steps(shown, times), frames, meter)?;
        }
        Ok(())
    }

    // The frames of what is left of a line, as many as may follow.
    fn frames_of<M: StepMeter>(
        &mut self,
        line: &RecordedLine,
        meter: &mut M,
    ) -> Result<LineFrames, LineStop> {
        let mut frames = LineFrames {
            outcome: None,
            then: Vec::new(self.alloc),
        };
        self.show_parts(&mut frames, meter)?;
        let Some(reply) = frames.reply() else {
            return Err(self.cursor.nothing_left());
        };
        check_answer(self.alloc, line, reply)?;
        Ok(frames)
    }

    // Writes the frames of what is left of a line.
    fn show_line<M: StepMeter>(
        &mut self,
        line: &RecordedLine,
        text: &mut TextWriter,
        meter: &mut M,
    ) -> Result<(), LineStop> {
        let done = line.call.times.saturating_sub(self.cursor.rest.times);
        let frames = self.frames_of(line, meter)?;
        write_line(self.alloc, line, done, frames, text)?;
        Ok(())
    }

    // Whether something is left of the record.
    fn goes_on(&self, lines: &[RecordedLine]) -> bool {
        self.cursor.rest.times > 0 || self.cursor.next < lines.len()
    }
}

// Writes a line with its frames.
fn write_line(
    alloc: Global,
    line: &RecordedLine,
    done: u64,
    frames: LineFrames,
    text: &mut TextWriter,
) -> Result<(), NoMemory> {
    let told = line_told(alloc, line, done, frames)?;
    text.push(json_text(serde_json::to_string(alloc, &told))?.as_str());
    Ok(())
}

// What ended it, with the line at which that came.
fn at_line(line: &RecordedLine, done: Result<(), LineStop>) -> Result<(), RecordStop> {
    match done {
        Ok(()) => Ok(()),
        Err(stop) => Err(stop.at(line.number)),
    }
}

// Does the first `from` events of a record.
fn apply_to<M: StepMeter>(
    alloc: Global,
    cursor: &mut RecordCursor,
    lines: &[RecordedLine],
    from: u64,
    meter: &mut M,
) -> Result<(), RecordStop> {
    for _ in 0..lines.len() {
        let left = from.saturating_sub(cursor.replayed.recorded_events());
        if left == 0 {
            break;
        }
        let Some(line) = cursor.line_to_do(lines) else {
            break;
        };
        at_line(&line, cursor.apply_line(alloc, &line, left, meter))?;
    }
    Ok(())
}

// Writes the first frame: what changed from a domain that nothing is known of.
fn write_first(
    alloc: Global,
    known: &mut KnownCode,
    replayed: &ReplayedDomain,
    first: &ShownFrame,
    text: &mut TextWriter,
) -> Result<(), NoMemory> {
    let changes = changes_of(alloc, known, replayed, None, first)?;
    text.push(json_text(serde_json::to_string(alloc, &changes))?.as_str());
    Ok(())
}

// Writes the first frame. What is known of the memories then, and the frame.
fn first_told(
    alloc: Global,
    replayed: &mut ReplayedDomain,
    text: &mut TextWriter,
) -> Result<(KnownCode, ShownFrame), NoMemory> {
    let mut known = KnownCode::none(alloc, replayed.part().nodes().len())?;
    let first = ShownFrame::of(alloc, frame_of(alloc, replayed)?)?;
    write_first(alloc, &mut known, replayed, &first, text)?;
    Ok((known, first))
}

// Writes the first frame.
fn begin(
    alloc: Global,
    cursor: RecordCursor,
    most: u64,
    text: &mut TextWriter,
) -> Result<Filming, NoMemory> {
    let mut cursor = cursor;
    let (known, last) = first_told(alloc, &mut cursor.replayed, text)?;
    Ok(Filming {
        alloc,
        cursor,
        known,
        last,
        left: most,
    })
}

// Writes lines with their frames, as many as may follow.
fn show_lines<M: StepMeter>(
    filming: &mut Filming,
    lines: &[RecordedLine],
    text: &mut TextWriter,
    meter: &mut M,
) -> Result<(), RecordStop> {
    for shown in 0..lines.len() {
        if filming.left == 0 {
            break;
        }
        let Some(line) = filming.cursor.line_to_do(lines) else {
            break;
        };
        text.push(if shown == 0 { "\n" } else { ",\n" });
        at_line(&line, filming.show_line(&line, text, meter))?;
    }
    Ok(())
}

// Writes the frames of a span, and whether more follows.
fn show_span<M: StepMeter>(
    alloc: Global,
    plan: &AcceptedPlan,
    lines: &[RecordedLine],
    span: Span,
    text: &mut TextWriter,
    meter: &mut M,
) -> Result<(), RecordStop>
    requires { length plan.now ≡ 1 }
{
    let mut cursor = RecordCursor::open(alloc, plan)?;
    apply_to(alloc, &mut cursor, lines, span.from, meter)?;
    text.push(",\n\"first\":");
    let mut filming = begin(alloc, cursor, span.count, text)?;
    text.push(",\n\"lines\":[");
    show_lines(&mut filming, lines, text, meter)?;
    text.push(if filming.goes_on(lines) {
        "\n],\n\"goes_on\":true}\n"
    } else {
        "\n],\n\"goes_on\":false}\n"
    });
    Ok(())
}

// Writes what the plan of a record says, the programs, and whether the record is cut off.
fn show_head(
    alloc: Global,
    plan: &AcceptedPlan,
    sources: &[SourceLine],
    is_cut: bool,
    text: &mut TextWriter,
) -> Result<(), NoMemory>
    requires { length plan.now ≡ 1 }
{
    let plan = plan_told(alloc, plan)?;
    text.push("{\"version\":1,\n\"plan\":");
    text.push(json_text(serde_json::to_string(alloc, &plan))?.as_str());
    text.push(",\n\"sources\":[");
    write_sources(alloc, sources, text)?;
    text.push("]");
    text.push(if is_cut {
        ",\n\"is_cut\":true"
    } else {
        ",\n\"is_cut\":false"
    });
    Ok(())
}

// The film of a record.
fn film_of_record<M: StepMeter>(
    alloc: Global,
    followed: &Record,
    sources: &[SourceLine],
    span: Span,
    meter: &mut M,
) -> Result<String, RecordStop>
    requires { length followed.now.plan ≡ 1 }
{
    let mut film = TextWriter::new(alloc);
    show_head(alloc, &followed.plan, sources, followed.is_cut, &mut film)?;
    let lines = followed.lines.as_slice();
    show_span(alloc, &followed.plan, lines, span, &mut film, meter)?;
    Ok(film.finish()?)
}

/// A record in JSON, as docs/LAB.md describes it: the plan of its domain, lines of programs, the domain where the film begins, and
/// for each line of the span what it asks, what it is answered, and what it changes. Each Step is a frame of its own, except those in the
/// middle of a line of more than 1,000. What changes is found from the frames of the moments before and after it
/// (`shot_of`).
///
/// # Errors
///
/// `Record` with those of `read_record`, and with `Line` and the first line that the domain refuses, doesn't record or answers
/// otherwise; `Steps` if more Steps are wanted than the meter allows.
pub fn film_of<M: StepMeter>(
    alloc: Global,
    text: &[u8],
    sources: &[SourceLine],
    span: Span,
    meter: &mut M,
) -> Result<String, RecordStop> {
    let record = read_record(alloc, text, u64::MAX)?;
    film_of_record(alloc, &record, sources, span, meter)
}
