//! Texts of farms and lines.

use crate::answering::{AnsweredLines, answer_asked_lines};
use crate::asks::AskedLine;
use crate::fault::ReplayFault;
use crate::reader::LineReader;
use event_text::{RepeatedRequest, read_request};
use farm_replay::{FarmStop, answer_requests};
use lab_script::{LoadedFile, file_loaded};
use lab_words::{Answered, NumberedLineFault, Question, read_questions};
use plan_checker::{AcceptedPlan, accept_plan};
use script_text::{
    NumberedLine, TextWriter, divide, divide_at_plan_end, is_passed_over, numbered_lines,
};
use std::alloc::{AllocError, Global};
use step_meter::StepMeter;

/// What divides one farm of a text from the next.
const BETWEEN_FARMS: &[u8] = b"===";

/// What divides what a line asks from the answer that it expects.
const BEFORE_ANSWERS: &str = " = ";

// What the lines of a farm ask.
#[derive(Drop)]
enum FarmLines<'a> {
    // All are the lab's own, one for each line.
    OfLab(Vec<RepeatedRequest>),
    // Some are of users, which may stand for several each.
    Mixed {
        asked: Vec<AskedLine<'a>>,
        counts: Vec<usize>,
    },
}

// A farm of a text: its plan, its lines, and what they ask.
#[derive(Drop)]
struct FarmText<'a> {
    plan: AcceptedPlan,
    questions: Vec<Question<'a>>,
    lines: FarmLines<'a>,
}

/// The names of the files that the lines of a text load, in their order.
pub fn files_loaded(alloc: Global, text: &[u8]) -> Result<Vec<&str>, AllocError> {
    let mut names = Vec::new(alloc);
    for line in &numbered_lines(alloc, text)? {
        if let Some(name) = file_of_line(line.text) {
            names.push(name)?;
        }
    }
    Ok(names)
}

fn file_of_line(line: &[u8]) -> Option<&str> {
    match std::str::from_utf8(line) {
        Ok(text) if !is_passed_over(line) => file_loaded(asked_part(text)),
        _ => None,
    }
}

// What a line asks, without the answer that it expects.
fn asked_part(line: &str) -> &str {
    match line.split_once(BEFORE_ANSWERS) {
        Some((asked, _)) => asked,
        None => line,
    }
}

/// Replays a text: for each of its farms, which lines `===` divide, a plan, a line `---`, and lines that ask. All
/// is read before any line asks; then the lines of all farms have their answers, in order. A line that begins with the name of a user of the
/// plan is a line of the program, which may load these files. If that name is a number, `words` or `reopen`, a line with `@` and
/// who asks as its last word, or with no verb of a user as its second, isn't that user's.
///
/// # Errors
///
/// The first fault of the text: `Plan` or `NoMark` if a plan is refused, and `Line` or `OfUser` if a line asks nothing that
/// there is; `Steps` if more Steps are wanted than the meter allows; `Memory` if memory runs out anywhere.
pub fn replay<'a, M: StepMeter>(
    alloc: Global,
    text: &'a [u8],
    files: &[LoadedFile<'_>],
    meter: &mut M,
) -> Result<Vec<Answered<'a>>, ReplayFault> {
    let farms = read_farms(alloc, text, files)?;
    let mut answers = Vec::new(alloc);
    for farm in farms {
        play(alloc, farm, &mut answers, meter)?;
    }
    Ok(answers)
}

fn read_farms<'a>(
    alloc: Global,
    text: &'a [u8],
    files: &[LoadedFile<'_>],
) -> Result<Vec<FarmText<'a>>, ReplayFault> {
    let mut farms = Vec::new(alloc);
    let mut before = 0;
    let mut rest = text;
    for _ in 0..=text.len() {
        let (farm, after) = divide(rest, BETWEEN_FARMS);
        farms.push(read_farm(alloc, farm, before, files)?)?;
        if farm.len() == rest.len() {
            break;
        }
        before = lines_with_mark(farm, before);
        rest = after;
    }
    Ok(farms)
}

// How many lines of the whole text come before what follows the mark after this part of it.
fn lines_with_mark(part: &[u8], before: u64) -> u64 {
    let lines = part.iter().filter(|byte| **byte == b'\n').count() as u64;
    lines.saturating_add(before).saturating_add(1)
}

// A farm whose plan begins after `before` lines of the text.
fn read_farm<'a>(
    alloc: Global,
    text: &'a [u8],
    before: u64,
    files: &[LoadedFile<'_>],
) -> Result<FarmText<'a>, ReplayFault> {
    let text = divide_at_plan_end(text);
    let plan = match accept_plan(alloc, text.plan) {
        Ok(plan) => plan,
        Err(fault) => {
            let first = before.saturating_add(1);
            return Err(ReplayFault::of_plan(fault, first, text.has_plan_end));
        }
    };
    let questions = read_questions(alloc, text.rest, lines_with_mark(text.plan, before))?;
    let lines = read_lines(alloc, &plan, questions.as_slice(), files)?;
    Ok(FarmText {
        plan,
        questions,
        lines,
    })
}

fn read_lines<'a>(
    alloc: Global,
    plan: &AcceptedPlan,
    questions: &[Question<'a>],
    files: &[LoadedFile<'_>],
) -> Result<FarmLines<'a>, ReplayFault> {
    let reader = LineReader::new(alloc, plan, files);
    if has_users(&reader, questions)? {
        read_mixed(alloc, &reader, questions)
    } else {
        Ok(FarmLines::OfLab(read_requests(alloc, questions)?))
    }
}

// Whether some line is a user's.
fn has_users(reader: &LineReader<'_>, questions: &[Question<'_>]) -> Result<bool, AllocError> {
    for question in questions {
        if reader.user_beside_lab(question.text)?.is_some() {
            return Ok(true);
        }
    }
    Ok(false)
}

fn read_requests(
    alloc: Global,
    questions: &[Question<'_>],
) -> Result<Vec<RepeatedRequest>, NumberedLineFault> {
    let mut requests = Vec::new(alloc);
    for question in questions {
        requests.push(read_question(alloc, question)?)?;
    }
    Ok(requests)
}

fn read_question(
    alloc: Global,
    question: &Question<'_>,
) -> Result<RepeatedRequest, NumberedLineFault> {
    match read_request(alloc, question.text) {
        Ok(request) => Ok(request),
        Err(fault) => Err(fault.at(question.line)),
    }
}

fn read_mixed<'a>(
    alloc: Global,
    reader: &LineReader<'_>,
    questions: &[Question<'a>],
) -> Result<FarmLines<'a>, ReplayFault> {
    let mut asked = Vec::new(alloc);
    let mut counts = Vec::new(alloc);
    for question in questions {
        let before = asked.len();
        read_line(alloc, reader, question, &mut asked)?;
        counts.push(asked.len().saturating_sub(before))?;
    }
    Ok(FarmLines::Mixed { asked, counts })
}

// Adds what a line asks.
fn read_line<'a>(
    alloc: Global,
    reader: &LineReader<'_>,
    question: &Question<'a>,
    asked: &mut Vec<AskedLine<'a>>,
) -> Result<(), ReplayFault> {
    let line = NumberedLine {
        number: question.line,
        text: question.text.as_bytes(),
    };
    let Some(user) = reader.user_beside_lab(question.text)? else {
        asked.push(AskedLine::OfLab(read_question(alloc, question)?))?;
        return Ok(());
    };
    match reader.read(user, line, asked)? {
        Some(told) => Err(ReplayFault::OfUser {
            told,
            line: Vec::from_slice(alloc, line.text)?,
        }),
        None => Ok(()),
    }
}

// Asks the farm of a text its lines.
fn play<'a, M: StepMeter>(
    alloc: Global,
    farm: FarmText<'a>,
    answers: &mut Vec<Answered<'a>>,
    meter: &mut M,
) -> Result<(), FarmStop> {
    let FarmText {
        plan,
        questions,
        lines,
    } = farm;
    let questions = questions.as_slice();
    match lines {
        FarmLines::OfLab(requests) => {
            play_requests(alloc, &plan, questions, requests.as_slice(), answers, meter)?;
        }
        FarmLines::Mixed { asked, counts } => {
            let AnsweredLines { texts, farm: _ } = answer_asked_lines(
                alloc,
                &plan,
                asked.as_slice(),
                meter,
            )?;
            share_out(
                alloc,
                questions,
                counts.as_slice(),
                texts.as_slice(),
                answers,
            )?;
        }
    }
    Ok(())
}

fn play_requests<'a, M: StepMeter>(
    alloc: Global,
    plan: &AcceptedPlan,
    questions: &[Question<'a>],
    requests: &[RepeatedRequest],
    answers: &mut Vec<Answered<'a>>,
    meter: &mut M,
) -> Result<(), FarmStop> {
    let lines = answer_requests(alloc, plan, requests, meter)?;
    for (question, answer) in questions.iter().zip(lines) {
        answers.push(Answered {
            question: *question,
            answer,
        })?;
    }
    Ok(())
}

// Gives each line as many of the texts as it asked for.
fn share_out<'a>(
    alloc: Global,
    questions: &[Question<'a>],
    counts: &[usize],
    texts: &[String],
    answers: &mut Vec<Answered<'a>>,
) -> Result<(), AllocError> {
    let mut rest = texts;
    for (question, count) in questions.iter().zip(counts.iter()) {
        let (own, after) = rest.split_at(rest.len().min(*count));
        rest = after;
        answers.push(Answered {
            question: *question,
            answer: join_texts(alloc, own)?,
        })?;
    }
    Ok(())
}

// Texts one after another, without the last line feed.
fn join_texts(alloc: Global, texts: &[String]) -> Result<String, AllocError> {
    let mut all = TextWriter::new(alloc);
    for (place, text) in texts.iter().enumerate() {
        if place > 0 {
            all.push("\n");
        }
        all.push(text.as_str().strip_suffix("\n").unwrap_or(text.as_str()));
    }
    all.finish()
}
