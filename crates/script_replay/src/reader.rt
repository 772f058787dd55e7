//! Reading lines of users.

use crate::asks::{AskedLine, UserLine};
use lab_script::{Expanded, LoadedFile, expanded_line, is_shorthand_line};
use plan_checker::{AcceptedPlan, UserNumber};
use script_lines::{LineFault, LineWords, Unread, parse_request};
use script_text::{NumberedLine, numbered_lines};
use std::alloc::{AllocError, Global};

/// A user, with the name as it is in the user's line.
#[derive(Clone, Copy)]
pub(crate) struct NamedUser<'a> {
    name: &'a str,
    user: UserNumber,
}

/// What the lines of a plan's users are read with.
#[derive(Drop)]
pub(crate) struct LineReader<'p> {
    alloc: Global,
    plan: &'p AcceptedPlan,
    files: &'p [LoadedFile<'p>],
}

impl<'p> LineReader<'p> {
    /// A reader for the users of this plan, whose lines may load these files.
    pub(crate) fn new(
        alloc: Global,
        plan: &'p AcceptedPlan,
        files: &'p [LoadedFile<'p>],
    ) -> LineReader<'p> {
        LineReader { alloc, plan, files }
    }

    /// The user whose name a line begins with.
    pub(crate) fn user_of<'a>(&self, line: &'a [u8]) -> Option<NamedUser<'a>> {
        let mut words = LineWords::of(line);
        let word = words.take()?;
        let user = self.plan.user_named(word)?;
        match std::str::from_utf8(word) {
            Ok(name) => Some(NamedUser { name, user }),
            Err(_) => None,
        }
    }

    /// The user whose line this is in a text that has lines of the lab too. A user's name may begin such a line as well, as a
    /// number does. Then the line is the lab's if its last word says who asks, as `@0`, or if its second word is no verb of a
    /// user.
    pub(crate) fn user_beside_lab<'a>(
        &self,
        line: &'a str,
    ) -> Result<Option<NamedUser<'a>>, AllocError> {
        let Some(user) = self.user_of(line.as_bytes()) else {
            return Ok(None);
        };
        if begins_requests(user.name) && self.is_of_lab(line)? {
            return Ok(None);
        }
        Ok(Some(user))
    }

    // Whether a line that begins with a user's name is no line of a user.
    fn is_of_lab(&self, line: &str) -> Result<bool, AllocError> {
        if is_shorthand_line(line) {
            return Ok(false);
        }
        if says_who_asks(line) {
            return Ok(true);
        }
        let mut words = LineWords::of(line.as_bytes());
        let _ = words.take();
        match parse_request(self.alloc, words) {
            Err(Unread::Faulty(LineFault::Verb)) => Ok(true),
            Err(Unread::NoMemory) => Err(AllocError),
            Ok(_) | Err(Unread::Faulty(_)) => Ok(false),
        }
    }

    /// Adds what a line of this user asks: one line of the program, or those into which it is spelled out if it is a shorthand line.
    /// Returns the message about it if it is wrong.
    pub(crate) fn read<'a>(
        &self,
        user: NamedUser<'a>,
        line: NumberedLine<'_>,
        asked: &mut Vec<AskedLine<'a>>,
    ) -> Result<Option<String>, AllocError> {
        let Some(expanded) = self.expansion_of(line)? else {
            return self.read_plain(user, line, asked);
        };
        let Expanded { text, wrong } = expanded;
        if !wrong.is_empty() {
            return Ok(Some(wrong));
        }
        self.read_all(user, line.number, text.as_bytes(), asked)
    }

    // The plain lines into which a line is spelled out, if it is a shorthand line.
    fn expansion_of(&self, line: NumberedLine<'_>) -> Result<Option<Expanded>, AllocError> {
        match std::str::from_utf8(line.text) {
            Ok(text) => expanded_line(self.alloc, line.number, text, self.files),
            Err(_) => Ok(None),
        }
    }

    // Adds the plain lines of a text, which stand for the line of this number.
    fn read_all<'a>(
        &self,
        user: NamedUser<'a>,
        number: u64,
        text: &[u8],
        asked: &mut Vec<AskedLine<'a>>,
    ) -> Result<Option<String>, AllocError> {
        for line in &numbered_lines(self.alloc, text)? {
            let line = NumberedLine {
                number,
                text: line.text,
            };
            let wrong = self.read_plain(user, line, asked)?;
            if wrong.is_some() {
                return Ok(wrong);
            }
        }
        Ok(None)
    }

    fn read_plain<'a>(
        &self,
        user: NamedUser<'a>,
        line: NumberedLine<'_>,
        asked: &mut Vec<AskedLine<'a>>,
    ) -> Result<Option<String>, AllocError> {
        match plain_line(self.alloc, user, line.text) {
            Ok(line) => {
                asked.push(AskedLine::OfUser(line))?;
                Ok(None)
            }
            Err(Unread::Faulty(fault)) => {
                Ok(Some(tell_wrong_line(self.alloc, line.number, fault)?))
            }
            Err(Unread::NoMemory) => Err(AllocError),
        }
    }
}

/// The message about a line of this number that is wrong, in the words of the program `farm`.
pub(crate) fn tell_wrong_line(
    alloc: Global,
    number: u64,
    fault: LineFault,
) -> Result<String, AllocError> {
    format!(in alloc; "line {number}: {fault}\n")
}

// Whether a line of the lab may begin with this word.
fn begins_requests(name: &str) -> bool {
    name == "words" || name == "reopen" || name.bytes().all(|byte| byte.is_ascii_digit())
}

// Whether the last word of a line begins with `@`. The first word doesn't count.
fn says_who_asks(line: &str) -> bool {
    match line.rsplit_once(' ') {
        Some((_, last)) => last.starts_with("@"),
        None => false,
    }
}

// What a plain line asks, which begins with the name of this user.
fn plain_line<'a>(alloc: Global, user: NamedUser<'a>, line: &[u8]) -> Result<UserLine<'a>, Unread> {
    let mut words = LineWords::of(line);
    let _ = words.take();
    Ok(UserLine {
        name: user.name,
        domain: user.user.domain,
        user: user.user.user,
        command: parse_request(alloc, words)?,
    })
}
