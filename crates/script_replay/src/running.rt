//! A script of the program, on one thread.

use crate::answering::{AnsweredLines, answer_asked_lines};
use crate::asks::AskedLine;
use crate::fault::RunFault;
use crate::reader::{LineReader, tell_wrong_line};
use crate::recording::record_of;
use farm_replay::FarmStop;
use lab_script::LoadedFile;
use plan_checker::{AcceptedPlan, accept_plan};
use script_lines::LineFault;
use script_text::{TextWriter, divide_at_plan_end, is_passed_over, numbered_lines};
use std::alloc::{AllocError, Global};
use step_meter::StepMeter;

/// Runs the script of a text, which comes after its plan and a line `---`, and gives the output lines of each user, in the
/// order of the plan. Shorthand lines may load these files.
///
/// # Errors
///
/// `Plan` if the plan is refused; `Lines` with a message about each line that is wrong, where lines are counted after the mark;
/// `Steps` if more Steps are wanted than the meter allows; `Memory` if memory runs out anywhere.
pub fn run_script<M: StepMeter>(
    alloc: Global,
    text: &[u8],
    files: &[LoadedFile<'_>],
    meter: &mut M,
) -> Result<String, RunFault> {
    let text = divide_at_plan_end(text);
    let plan = plan_of(alloc, text.plan, text.has_plan_end)?;
    let asked = read_lines(alloc, &plan, text.rest, files)?;
    Ok(screens_of(alloc, &plan, asked.as_slice(), meter)?)
}

/// Runs the script of a text as above, and gives the record of the domain of this number in the plan.
///
/// # Errors
///
/// Those of `run_script`; `Domain` if the plan has no such domain, and `Head` if its head can't be made, which never happens.
pub fn record_script<M: StepMeter>(
    alloc: Global,
    text: &[u8],
    files: &[LoadedFile<'_>],
    domain: u8,
    meter: &mut M,
) -> Result<String, RunFault> {
    let text = divide_at_plan_end(text);
    let plan = plan_of(alloc, text.plan, text.has_plan_end)?;
    if domain >= plan.domains() {
        return Err(RunFault::Domain(domain));
    }
    let asked = read_lines(alloc, &plan, text.rest, files)?;
    let AnsweredLines { texts: _, farm } = answer_asked_lines(
        alloc,
        &plan,
        asked.as_slice(),
        meter,
    )?;
    Ok(record_of(alloc, &plan, domain, &farm)?)
}

// The plan of a text. A mark comes after it or doesn't.
fn plan_of(alloc: Global, text: &[u8], is_marked: bool) -> Result<AcceptedPlan, RunFault> {
    match accept_plan(alloc, text) {
        Ok(plan) => Ok(plan),
        Err(fault) => Err(RunFault::of_plan(fault, is_marked)),
    }
}

/// How many wrong lines have a message of their own.
const MOST_TOLD: u64 = 100;

// The messages about the lines that are wrong: the first 100 of them, and how many more there are.
#[derive(Drop)]
struct WrongLines {
    text: TextWriter,
    count: u64,
}

impl WrongLines {
    // One more line is wrong, and this is the message about it.
    fn add(&mut self, told: &str) {
        if self.count < MOST_TOLD {
            self.text.push(told);
        }
        self.count = self.count.saturating_add(1);
    }

    // The text of all messages, which is empty if no line is wrong.
    fn finish(mut self) -> Result<String, AllocError> {
        let more = self.count.saturating_sub(MOST_TOLD);
        if more > 0 {
            self.text.push("and ");
            self.text.push_decimal(more);
            self.text.push(if more == 1 {
                " more line is wrong\n"
            } else {
                " more lines are wrong\n"
            });
        }
        let WrongLines { text, count: _ } = self;
        text.finish()
    }
}

// What the lines of a script ask.
fn read_lines<'a>(
    alloc: Global,
    plan: &AcceptedPlan,
    script: &'a [u8],
    files: &[LoadedFile<'_>],
) -> Result<Vec<AskedLine<'a>>, RunFault> {
    let reader = LineReader::new(alloc, plan, files);
    let mut asked = Vec::new(alloc);
    let mut wrong = WrongLines {
        text: TextWriter::new(alloc),
        count: 0,
    };
    for line in &numbered_lines(alloc, script)? {
        if is_passed_over(line.text) {
            continue;
        }
        let told = match reader.user_of(line.text) {
            Some(user) => reader.read(user, *line, &mut asked)?,
            None => Some(tell_wrong_line(alloc, line.number, LineFault::User)?),
        };
        if let Some(told) = told {
            wrong.add(told.as_str());
        }
    }
    let wrong = wrong.finish()?;
    if wrong.is_empty() {
        Ok(asked)
    } else {
        Err(RunFault::Lines(wrong))
    }
}

// The output lines of each user, in the order of the plan.
fn screens_of<M: StepMeter>(
    alloc: Global,
    plan: &AcceptedPlan,
    asked: &[AskedLine<'_>],
    meter: &mut M,
) -> Result<String, FarmStop> {
    let answered = answer_asked_lines(alloc, plan, asked, meter)?;
    let mut screens = TextWriter::new(alloc);
    for domain in 0..plan.domains() {
        for user in 0..plan.users(domain) {
            for (line, text) in asked.iter().zip(answered.texts.iter()) {
                if is_of(line, domain, user) {
                    screens.push(text.as_str());
                }
            }
        }
    }
    Ok(screens.finish()?)
}

// Whether a line is of the user of this number in this domain.
fn is_of(line: &AskedLine<'_>, domain: u8, user: u8) -> bool {
    match line {
        AskedLine::OfUser(line) => line.domain == domain && line.user == user,
        AskedLine::OfLab(_) => false,
    }
}
