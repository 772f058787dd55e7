//! Plans in files, each with what the checker is to answer.

use crate::blocks::{HEADING, line_number_at, lines_as_text, lines_below, read_lines};
use lab_words::{Answered, NumberedLineFault, Question, Wanted, WordForm, WordMistake, WrongLine};
use plan_checker::{PlanFault, accept_plan};
use script_text::TextWriter;
use std::alloc::{AllocError, Global};

/// What comes before a text that is replaced.
const REPLACE: &str = "replace: ";

const CHANGES: Wanted = Wanted::Word("a line of a change", WordForm::OneOf(&["replace:"]));

const REPLACEMENTS: Wanted = Wanted::Word("a line of a change", WordForm::OneOf(&["with:"]));

// What a heading says: what is expected, and why, and whether the plan is the base of those that follow.
#[derive(Clone, Copy)]
struct Heading<'a> {
    expected: &'a str,
    why: &'a str,
    is_base: bool,
}

/// Tries each plan of a text. A plan is below a heading `=== EXPECTED`, where EXPECTED is `accepted` or the number of its fault;
/// ` - ` and why may follow. Below `=== base EXPECTED` is a plan that
/// the next ones change: each `replace: OLD` has a line `with: NEW` after it, and OLD is in the plan so far exactly once.
/// Empty lines are passed over. What is below `=== # ...` or before the first heading is a remark.
///
/// `Wrong` if a line isn't UTF-8 or a change can't be made.
pub fn try_plans(alloc: Global, text: &[u8]) -> Result<Vec<Answered<'_>>, NumberedLineFault> {
    let lines = read_lines(alloc, text)?;
    let mut trials = Trials {
        base: String::new(alloc),
        answers: Vec::new(alloc),
    };
    for (index, line) in lines.iter().enumerate() {
        if let Some(heading) = line.strip_prefix(HEADING) {
            let below = lines_below(lines.as_slice(), index);
            trials.try_block(alloc, line_number_at(index), heading, below)?;
        }
    }
    Ok(trials.answers)
}

// What the plans so far were answered, and the plan that the next may change.
#[derive(Drop)]
struct Trials<'a> {
    base: String,
    answers: Vec<Answered<'a>>,
}

impl<'a> Trials<'a> {
    // Tries the plan of the lines below a heading, whose line has this number, if they aren't a remark.
    fn try_block(
        &mut self,
        alloc: Global,
        number: u64,
        heading: &'a str,
        lines: &[&str],
    ) -> Result<(), NumberedLineFault> {
        if heading.starts_with("#") {
            return Ok(());
        }
        let heading = read_heading(heading);
        let plan = plan_of(alloc, self.base.as_str(), number, lines)?;
        self.answers
            .push(try_plan(alloc, number, heading, plan.as_str())?)?;
        if heading.is_base {
            self.base = plan;
        }
        Ok(())
    }
}

fn read_heading(text: &str) -> Heading<'_> {
    let (expected, why) = text.split_once(" - ").unwrap_or((text, "a plan"));
    let base = expected.strip_prefix("base ");
    Heading {
        expected: base.unwrap_or(expected),
        why,
        is_base: base.is_some(),
    }
}

// What the plan below a heading, whose line has this number, is answered.
fn try_plan<'a>(
    alloc: Global,
    line: u64,
    heading: Heading<'a>,
    plan: &str,
) -> Result<Answered<'a>, AllocError> {
    Ok(Answered {
        question: Question {
            line,
            text: heading.why,
            expected: Some(heading.expected),
        },
        answer: answer_plan(alloc, plan)?,
    })
}

// The plan below a heading, whose line has this number: the lines there, or the changed base.
fn plan_of(
    alloc: Global,
    base: &str,
    number: u64,
    lines: &[&str],
) -> Result<String, NumberedLineFault> {
    match lines.first() {
        Some(line) if line.starts_with(REPLACE) => changed_plan(alloc, base, number, lines),
        _ => Ok(lines_as_text(alloc, lines)?),
    }
}

// What a change replaces, and the number of the line that says it.
#[derive(Clone, Copy)]
struct ReplacedText<'a> {
    line: u64,
    text: &'a str,
}

// The base after the changes of lines. `number` is that of the line before the first of them.
fn changed_plan(
    alloc: Global,
    base: &str,
    number: u64,
    lines: &[&str],
) -> Result<String, NumberedLineFault> {
    let mut plan = String::from_str(alloc, base)?;
    let mut old = None;
    let mut number = number;
    for line in lines {
        number = number.saturating_add(1);
        if !line.is_empty() {
            old = change(alloc, &mut plan, old, line, number)?;
        }
    }
    match old {
        Some(_) => Err(wrong_change(number.saturating_add(1), "", REPLACEMENTS)),
        None => Ok(plan),
    }
}

// Reads a line that says what is replaced, or by what; then it is. What is to be replaced by the next line.
fn change<'a>(
    alloc: Global,
    plan: &mut String,
    old: Option<ReplacedText<'_>>,
    line: &'a str,
    number: u64,
) -> Result<Option<ReplacedText<'a>>, NumberedLineFault> {
    let Some(replaced) = old else {
        return match line.strip_prefix(REPLACE) {
            Some(text) => Ok(Some(ReplacedText { line: number, text })),
            None => Err(wrong_change(number, line, CHANGES)),
        };
    };
    let Some(new) = line.strip_prefix("with:") else {
        return Err(wrong_change(number, line, REPLACEMENTS));
    };
    let new = new.strip_prefix(" ").unwrap_or(new);
    match replaced_once(alloc, plan.as_str(), replaced.text, new)? {
        Some(changed) => *plan = changed,
        None => return Err(not_once(replaced)),
    }
    Ok(None)
}

// A line of a change isn't what is wanted.
fn wrong_change(number: u64, line: &str, wanted: Wanted) -> NumberedLineFault {
    NumberedLineFault::Wrong(WrongLine {
        line: number,
        mistake: WordMistake::of_text(1, line, wanted),
    })
}

// What is to be replaced isn't in the plan exactly once.
fn not_once(replaced: ReplacedText) -> NumberedLineFault {
    let wanted = Wanted::Word("what is replaced", WordForm::Once);
    let column = (REPLACE.len() as u64).saturating_add(1);
    NumberedLineFault::Wrong(WrongLine {
        line: replaced.line,
        mistake: WordMistake::of_text(column, replaced.text, wanted),
    })
}

// The plan with `new` instead of `old`, if `old` is in it exactly once.
fn replaced_once(
    alloc: Global,
    plan: &str,
    old: &str,
    new: &str,
) -> Result<Option<String>, AllocError> {
    match plan.split_once(old) {
        Some((before, after)) if !after.contains(old) => {
            let mut changed = TextWriter::new(alloc);
            changed.push(before);
            changed.push(new);
            changed.push(after);
            Ok(Some(changed.finish()?))
        }
        _ => Ok(None),
    }
}

// What the checker answers: `accepted`, or the number of the plan's fault.
fn answer_plan(alloc: Global, plan: &str) -> Result<String, AllocError> {
    match accept_plan(alloc, plan.as_bytes()) {
        Ok(_) => String::from_str(alloc, "accepted"),
        Err(PlanFault::NoMemory) => Err(AllocError),
        Err(fault) => format!(in alloc; "{}", fault.number()),
    }
}
