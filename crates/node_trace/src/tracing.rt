//! The lines of a text, all read before any is done.

use crate::commands::{TraceCommand, read_command};
use crate::fault::TraceFault;
use crate::performing::{open_running, or_dash, perform};
use bootstrap::Node;
use lab_words::{Answered, NumberedLineFault, Question, WordFault, read_questions};
use script_text::TextWriter;
use std::alloc::Global;
use step_meter::StepMeter;

/// The answers to the lines of a text, in their order. Of the Steps for which `step` and `run` ask the meter allows each.
///
/// # Errors
///
/// `Line` with the first line that is wrong, and then none is done: all are read before. `Steps` if the meter allows no more
/// Steps; `Memory` if an allocation fails.
pub fn trace<'a, M: StepMeter>(
    alloc: Global,
    text: &'a [u8],
    meter: &mut M,
) -> Result<Vec<Answered<'a>>, TraceFault> {
    let questions = read_questions(alloc, text, 0)?;
    let commands = read_commands(alloc, questions.as_slice())?;
    answer_all(alloc, questions.as_slice(), commands.as_slice(), meter)
}

/// Reads a line, and does nothing. `Wrong` with the first word that is wrong or missing, or that comes after the end.
pub fn read_trace_line(alloc: Global, line: &str) -> Result<(), WordFault> {
    match read_command(alloc, line) {
        Ok(_) => Ok(()),
        Err(fault) => Err(fault),
    }
}

// What each line asks for.
fn read_commands(
    alloc: Global,
    questions: &[Question<'_>],
) -> Result<Vec<TraceCommand>, NumberedLineFault> {
    let mut commands = Vec::new(alloc);
    for question in questions {
        match read_command(alloc, question.text) {
            Ok(command) => commands.push(command)?,
            Err(fault) => return Err(fault.at(question.line)),
        }
    }
    Ok(commands)
}

// Does all on a node, one after another.
fn answer_all<'a, M: StepMeter>(
    alloc: Global,
    questions: &[Question<'a>],
    commands: &[TraceCommand],
    meter: &mut M,
) -> Result<Vec<Answered<'a>>, TraceFault> {
    let mut answers = Vec::new(alloc);
    let mut node = open_running(alloc, 4096)?;
    for (question, command) in questions.iter().zip(commands.iter()) {
        let (after, answer) = answer(alloc, node, command, meter)?;
        node = after;
        answers.push(Answered {
            question: *question,
            answer,
        })?;
    }
    Ok(answers)
}

// Does what a line asks for on a node, and gives it as it is then, with the answer.
fn answer<M: StepMeter>(
    alloc: Global,
    node: Node,
    command: &TraceCommand,
    meter: &mut M,
) -> Result<(Node, String), TraceFault> {
    let mut text = TextWriter::new(alloc);
    let node = perform(alloc, node, command, meter, &mut text)?;
    let answer = or_dash(alloc, text.finish()?.as_str())?;
    Ok((node, answer))
}
