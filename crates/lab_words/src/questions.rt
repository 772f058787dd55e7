//! Lines that ask something, and the answers that a text expects of them.
ghost use Rattle.std.specs.Prelude.{◌≡◌, ◌<◌, ◌∷◌, ◌↔◌, [], IsTrue, None, IfSome, MatchOption, length, string_bytes};
ghost use Rattle.lab_words.specs.Rows.{expected_lines};

use crate::fault::NumberedLineFault;
use crate::utf8::line_as_str;
use script_text::{NumberedLine, is_passed_over, numbered_lines};
use std::alloc::Global;

/// A line that asks something.
#[derive(Clone, Copy)]
pub struct Question<'a> {
    /// The number of the line in its text, from 1.
    pub line: u64,
    /// What the line asks, without the answer that it expects.
    pub text: &'a str,
    /// The answer that the text expects, if it says one. The lines of a longer answer are joined by `; `.
    pub expected: Option<&'a str>,
}

/// What a line asked, and what it was answered.
#[derive(Drop)]
pub struct Answered<'a> {
    /// What was asked.
    pub question: Question<'a>,
    /// The answer, in lines without a line feed at the end.
    pub answer: String,
}

impl<'a> Answered<'a> {
    /// Whether the answer is what the text expects, line by line, or the text expects nothing.
    pub fn is_as_expected(&self) -> bool
        ensures nothing { self.now.question.expected ≡ None → IsTrue result }
        ensures lines { IfSome self.now.question.expected (λ text. IsTrue result ↔ (string_bytes self.now.answer ≡ expected_lines text.now)) }
    {
        match self.question.expected {
            Some(expected) => are_the_lines(self.answer.as_bytes(), expected.as_bytes()),
            None => true,
        }
    }
}

// Whether the answer is the lines that are expected, joined by `; `.
fn are_the_lines(answer: &[u8], expected: &[u8]) -> bool
    ensures { IsTrue result ↔ (answer.now ≡ expected_lines expected.now) }
{
    let mut rest = answer;
    let mut unmatched = expected;
    while let Some((next, after)) = next_expected(unmatched) {
        match rest {
            [first, left @ ..] if *first == next => rest = left,
            _ => return false,
        }
        unmatched = after;
    }
    rest.is_empty()
}

// The first byte of the lines that are expected, and what is expected after it.
fn next_expected(expected: &[u8]) -> Option<(u8, &[u8])>
    ensures next { MatchOption result (expected.now ≡ []) (λ n. expected_lines expected.now ≡ n.0 ∷ expected_lines n.1.now) }
    ensures shorter { MatchOption result (expected.now ≡ []) (λ n. length n.1.now < length expected.now) }
{
    match expected {
        [] => None,
        [b';', b' ', rest @ ..] => Some((b'\n', rest)),
        [first, rest @ ..] => Some((*first, rest)),
    }
}

/// The lines of a text that ask something, in their order: all but the empty ones and those that begin with `#`. What
/// follows the first ` = ` of a line is the answer that it expects. The text is part of a whole one, in which `before` lines
/// come before it, and its lines are counted in the whole one.
///
/// `Wrong` if a line isn't UTF-8, with the first byte that isn't.
pub fn read_questions<'a>(
    alloc: Global,
    text: &'a [u8],
    before: u64,
) -> Result<Vec<Question<'a>>, NumberedLineFault> {
    let lines = numbered_lines(alloc, text)?;
    let mut questions = Vec::new(alloc);
    for line in &lines {
        if !is_passed_over(line.text) {
            push_question(&mut questions, *line, before)?;
        }
    }
    Ok(questions)
}

// Reads the question of a line, and appends it to these. `before` lines of the whole text come before its part.
fn push_question<'a>(
    questions: &mut Vec<Question<'a>>,
    line: NumberedLine<'a>,
    before: u64,
) -> Result<(), NumberedLineFault> {
    questions.push(read_question(line, before)?)?;
    Ok(())
}

// The question of a line. `before` lines of the whole text come before its part.
fn read_question(line: NumberedLine<'_>, before: u64) -> Result<Question<'_>, NumberedLineFault> {
    let line = NumberedLine {
        number: line.number.saturating_add(before),
        text: line.text,
    };
    let whole = line_as_str(line)?;
    let (text, expected) = match whole.split_once(" = ") {
        Some((text, expected)) => (text, Some(expected)),
        None => (whole, None),
    };
    Ok(Question {
        line: line.number,
        text,
        expected,
    })
}
