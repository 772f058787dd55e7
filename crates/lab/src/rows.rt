//! Worked rows in files, compared with the answers that they expect.

use crate::assembly::answer_row;
use crate::failure::wrong_replay;
use crate::mistakes::tell_mistake;
use crate::occam_texts::compile_rows;
use crate::plans::try_plans;
use crate::replays::replay_with_files;
use crate::scripts::folder_of;
use lab_command::{LabFailure, Report, RowFiles, TerminalMeter, read_file};
use lab_words::{Answered, NumberedLineFault, Question, read_questions};
use node_answers::wrong_trace;
use node_trace::{TraceFault, trace};
use script_text::TextWriter;
use std::alloc::{Alloc, Global};
use std::env::Env;
use std::fs::Files;

/// Compares the rows of files. Each wrong row has a line that names its file and line, what it asked, the answer and
/// what was expected; each file has a line that counts. The status is 1 if a row is wrong or a file has none.
pub fn report_rows(rt: &HostRuntime, asked: &RowFiles) -> Result<Report, LabFailure> {
    let mut meter = TerminalMeter::begin(rt, asked.most);
    let report = report_files(rt, asked.files.as_slice(), &mut meter);
    meter.wipe();
    report
}

fn report_files<R: Files + Env + Alloc<A = Global>>(
    rt: &R,
    files: &[&str],
    meter: &mut TerminalMeter,
) -> Result<Report, LabFailure> {
    let mut text = TextWriter::new(rt.alloc());
    let mut status = 0;
    for file in files {
        if !report_file(rt, file, meter, &mut text)? {
            status = 1;
        }
    }
    let text = text.finish()?;
    let warnings = None;
    Ok(Report {
        text,
        warnings,
        status,
    })
}

// Compares the rows of a file, and tells whether there are rows and all are right.
fn report_file<R: Files + Env + Alloc<A = Global>>(
    rt: &R,
    file: &str,
    meter: &mut TerminalMeter,
    text: &mut TextWriter,
) -> Result<bool, LabFailure> {
    let rows = read_file(rt, file)?;
    match answer_rows(rt, file, rows.as_slice(), meter) {
        Ok(answers) => Ok(compare(text, file, answers.as_slice())),
        Err(failure) => Err(failure.in_file(rt.alloc(), file)),
    }
}

// The answers to the rows of a file, which its name tells how to read.
fn answer_rows<'a, R: Files + Env + Alloc<A = Global>>(
    rt: &R,
    file: &str,
    text: &'a [u8],
    meter: &mut TerminalMeter,
) -> Result<Vec<Answered<'a>>, LabFailure> {
    if file.ends_with(".replay") {
        return answer_replayed(rt, file, text, meter);
    }
    match answer_lines(rt, file, text, meter) {
        Ok(answers) => Ok(answers),
        Err(fault) => Err(wrong_trace(rt.alloc(), fault)),
    }
}

fn answer_replayed<'a, R: Files + Env + Alloc<A = Global>>(
    rt: &R,
    file: &str,
    text: &'a [u8],
    meter: &mut TerminalMeter,
) -> Result<Vec<Answered<'a>>, LabFailure> {
    match replay_with_files(rt, folder_of(file), text, meter) {
        Ok(answers) => Ok(answers),
        Err(fault) => Err(wrong_replay(rt.alloc(), fault)),
    }
}

// The answers to rows that load no files.
fn answer_lines<'a, R: Files + Env + Alloc<A = Global>>(
    rt: &R,
    file: &str,
    text: &'a [u8],
    meter: &mut TerminalMeter,
) -> Result<Vec<Answered<'a>>, TraceFault> {
    let alloc = rt.alloc();
    if file.ends_with(".plans") {
        Ok(try_plans(alloc, text)?)
    } else if file.ends_with(".occam") {
        Ok(compile_rows(rt, text)?)
    } else if file.ends_with(".assembly") {
        Ok(answer_each(alloc, RowKind::Program, text)?)
    } else if file.ends_with(".mistakes") {
        Ok(answer_each(alloc, RowKind::Line, text)?)
    } else {
        trace(alloc, text, meter)
    }
}

// What is in rows that are answered one by one.
#[derive(Clone, Copy)]
enum RowKind {
    // A program, which is assembled, or code.
    Program,
    // A line, which is read.
    Line,
}

// The answers to the rows of a text. Each row is answered by itself.
fn answer_each(
    alloc: Global,
    kind: RowKind,
    text: &[u8],
) -> Result<Vec<Answered<'_>>, NumberedLineFault> {
    let questions = read_questions(alloc, text, 0)?;
    answer_all(alloc, kind, questions.as_slice())
}

fn answer_all<'a>(
    alloc: Global,
    kind: RowKind,
    questions: &[Question<'a>],
) -> Result<Vec<Answered<'a>>, NumberedLineFault> {
    let mut answers = Vec::new(alloc);
    for question in questions {
        add_answer(alloc, kind, &mut answers, *question)?;
    }
    Ok(answers)
}

fn add_answer<'a>(
    alloc: Global,
    kind: RowKind,
    answers: &mut Vec<Answered<'a>>,
    question: Question<'a>,
) -> Result<(), NumberedLineFault> {
    let answer = match kind {
        RowKind::Program => answer_row(alloc, question.text)?,
        RowKind::Line => tell_mistake(alloc, &question)?,
    };
    answers.push(Answered { question, answer })?;
    Ok(())
}

// Notes the wrong rows of a file and how many it has, and tells whether there are rows and all are right.
fn compare(text: &mut TextWriter, file: &str, answers: &[Answered]) -> bool {
    let (mut rows, mut wrong): (u64, u64) = (0, 0);
    for answered in answers {
        let Some(expected) = answered.question.expected else {
            continue;
        };
        rows = rows.saturating_add(1);
        if !answered.is_as_expected() {
            wrong = wrong.saturating_add(1);
            note_wrong(text, file, answered, expected);
        }
    }
    push_printable(text, file);
    text.push(": ");
    text.push_decimal(rows);
    text.push(" rows, ");
    text.push_decimal(wrong);
    text.push(" wrong\n");
    rows > 0 && wrong == 0
}

fn note_wrong(text: &mut TextWriter, file: &str, answered: &Answered, expected: &str) {
    push_printable(text, file);
    text.push(":");
    text.push_decimal(answered.question.line);
    text.push(": ");
    push_printable(text, answered.question.text);
    text.push(" = ");
    push_printable(text, answered.answer.as_str());
    text.push(", not ");
    push_printable(text, expected);
    text.push("\n");
}

// Appends a text on which no terminal acts: what isn't printable is escaped, but for the line feeds of an answer of several lines.
fn push_printable(text: &mut TextWriter, part: &str) {
    for letter in part.chars() {
        match letter {
            '"' | '\'' | '\\' | '\n' => text.push_letter(letter),
            _ => {
                for piece in letter.escape_debug() {
                    text.push_letter(piece);
                }
            }
        }
    }
}
