//! The shorthand lines, and their words.

use script_text::TextWriter;
use shorthand_lines::{LOAD, ShorthandVerb};

/// What a shorthand line does.
#[derive(Clone, Copy)]
pub enum Shorthand {
    /// A program is assembled and booted, long code through pokes.
    Load,
    /// It asks what a plain line asks.
    Asks(ShorthandVerb),
}

impl Shorthand {
    // What a line with this verb does, if it is a shorthand line.
    fn of(verb: &str) -> Option<Shorthand> {
        if verb == LOAD {
            return Some(Shorthand::Load);
        }
        match ShorthandVerb::of(verb.as_bytes()) {
            Some(verb) => Some(Shorthand::Asks(verb)),
            None => None,
        }
    }

    // What comes after the user's name in a line.
    fn form(self) -> &'static str {
        match self {
            Shorthand::Load => " load HOST FILE",
            Shorthand::Asks(ShorthandVerb::Join) => " join PORT PORT",
            Shorthand::Asks(ShorthandVerb::Send) => " send HOST \"TEXT\"",
            Shorthand::Asks(ShorthandVerb::Text) => " text HOST",
        }
    }

    fn name(self) -> &'static str {
        match self {
            Shorthand::Load => LOAD,
            Shorthand::Asks(verb) => verb.name(),
        }
    }
}

/// The words of a shorthand line: who asks, what the verb does, and what comes after the verb.
#[derive(Clone, Copy)]
pub struct ShorthandLine<'a> {
    /// The number of the line in its script, from 1.
    pub number: u64,
    pub user: &'a str,
    pub shorthand: Shorthand,
    pub rest: &'a str,
}

/// Whether a line's second word is the verb of a shorthand line.
pub fn is_shorthand_line(line: &str) -> bool {
    shorthand_line(0, line).is_some()
}

/// The words of a line, if it is a shorthand line.
pub fn shorthand_line(number: u64, line: &str) -> Option<ShorthandLine<'_>> {
    match line.split_once(' ') {
        Some((user, behind)) => match behind.split_once(' ') {
            Some((verb, rest)) => with_verb(number, user, verb, rest),
            None => with_verb(number, user, behind, ""),
        },
        None => None,
    }
}

fn with_verb<'a>(
    number: u64,
    user: &'a str,
    verb: &str,
    rest: &'a str,
) -> Option<ShorthandLine<'a>> {
    match Shorthand::of(verb) {
        Some(shorthand) => Some(ShorthandLine {
            number,
            user,
            shorthand,
            rest,
        }),
        None => None,
    }
}

impl<'a> ShorthandLine<'a> {
    /// The first word after the verb, and what comes after that word; both are empty if there is none.
    pub fn halves(self) -> (&'a str, &'a str) {
        self.rest.split_once(' ').unwrap_or((self.rest, ""))
    }

    /// Appends the number of the line, who asks and the verb: `line 3, ann load: `.
    pub fn write_head(self, text: &mut TextWriter) {
        text.push("line ");
        text.push_decimal(self.number);
        text.push(", ");
        text.push(self.user);
        text.push(" ");
        text.push(self.shorthand.name());
        text.push(": ");
    }

    /// Appends the form that the line should have.
    pub fn write_form(self, text: &mut TextWriter) {
        text.push(self.user);
        text.push(self.shorthand.form());
    }
}
