//! A record is read.
ghost use Rattle.std.specs.Prelude.{◌≡◌, length, IfOk};

use crate::fault::WhyFault;
use crate::line::{RecordedLine, read_line};
use lab_words::line_as_str;
use plan_checker::{AcceptedPlan, check, read_plan};
use script_text::{NumberedLine, count_lines, divide_at_plan_end, is_passed_over, numbered_lines};
use std::alloc::Global;

/// What a record says.
#[derive(Drop)]
pub struct Record<'a> {
    /// The plan of its only domain.
    pub plan: AcceptedPlan,
    /// The lines of its events. The last one may be cut to the events that were asked for.
    pub lines: Vec<RecordedLine<'a>>,
    /// Whether something comes after its last line feed. It is left out.
    pub is_cut: bool,
}

// The plan at the head of a record, of one domain.
fn read_head(alloc: Global, text: &[u8]) -> Result<AcceptedPlan, WhyFault>
    ensures { IfOk result (λ plan. length plan ≡ 1) }
{
    let plan = check(alloc, read_plan(alloc, text)?)?;
    let domains = plan.domains();
    if domains == 1 {
        Ok(plan)
    } else {
        Err(WhyFault::Domains(domains))
    }
}

// What a text has up to its last line feed, that one included.
fn whole_lines(text: &[u8]) -> &[u8] {
    match text.iter().rposition(|byte| *byte == b'\n') {
        Some(place) => &text[..=place],
        None => &[],
    }
}

// A line, or the beginning of it, of as many events as are left to be done.
fn cut_line<'a>(line: RecordedLine<'a>, left: u64) -> RecordedLine<'a> {
    if line.call.times <= left {
        return line;
    }
    let mut cut = line;
    cut.call.times = left;
    cut.answer = None;
    cut
}

// The lines of the first `most` events. `before` is the number of lines that come before them in the whole text.
fn read_lines<'a>(
    alloc: Global,
    numbered: &[NumberedLine<'a>],
    before: u64,
    most: u64,
) -> Result<Vec<RecordedLine<'a>>, WhyFault> {
    let mut lines = Vec::new(alloc);
    let mut left = most;
    for line in numbered {
        if left == 0 {
            break;
        }
        if !is_passed_over(line.text) {
            let line = NumberedLine {
                number: line.number.saturating_add(before),
                text: line.text,
            };
            let read = read_numbered(alloc, line)?;
            let cut = cut_line(read, left);
            left = left.saturating_sub(cut.call.times);
            lines.push(cut)?;
        }
    }
    Ok(lines)
}

// A line by its number in the whole text.
fn read_numbered<'a>(alloc: Global, line: NumberedLine<'a>) -> Result<RecordedLine<'a>, WhyFault> {
    match read_line(alloc, line.number, line_as_str(line)?) {
        Ok(read) => Ok(read),
        Err(fault) => Err(WhyFault::of_line(line.number, fault)),
    }
}

/// The plan of a record and the lines of its first `most` events.
///
/// # Errors
///
/// `NoMark` if the text has no line `---`; `Plan` and `Domains` if what comes before that line is no plan of one domain;
/// `Wrong` and `Line` with the first line that asks no single event of domain 0; `Memory`.
pub fn read_record<'a>(alloc: Global, text: &'a [u8], most: u64) -> Result<Record<'a>, WhyFault>
    ensures { IfOk result (λ read. length read.plan ≡ 1) }
{
    let divided = divide_at_plan_end(text);
    if !divided.has_plan_end {
        return Err(WhyFault::NoMark);
    }
    let plan = read_head(alloc, divided.plan)?;
    let whole = whole_lines(divided.rest);
    let numbered = numbered_lines(alloc, whole)?;
    let before = (count_lines(divided.plan) as u64).saturating_add(1);
    Ok(Record {
        plan,
        lines: read_lines(alloc, numbered.as_slice(), before, most)?,
        is_cut: whole.len() < divided.rest.len(),
    })
}
