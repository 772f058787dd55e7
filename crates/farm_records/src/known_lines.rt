//! The lines that a domain did again last. In a loop the same lines come again.
ghost use Rattle.std.specs.Prelude.{◌≡◌, IfSome, string_bytes};
ghost use Rattle.farm_records.specs.RecordText.{line_of_call, record_line_text};

use crate::line::RecordedCall;
use domain_core::{By, NoMemory, Reply};
use std::alloc::Global;

/// How many lines are kept, at most.
const MOST_LINES: usize = 16;

/// What a line says: a call, and how often it was made, and what it was answered.
#[derive(Clone, Copy)]
pub(crate) struct LineMeaning {
    pub call: RecordedCall,
    pub reply: Reply,
}

// A line, with its line feed, and what it says.
struct KnownLine {
    text: String,
    meaning: LineMeaning,
    ghost is_text: { record_line_text (line_of_call meaning.call meaning.reply) ≡ string_bytes text },
}

// Dropped by hand, since a derived `Drop` makes callers prove the drop of each field.
impl Drop for KnownLine {
    fn drop(self) {
        let KnownLine {
            text: _,
            meaning: _,
        } = self;
    }
}

/// A few lines with what they say, so that a line that comes again is neither read nor written again.
pub(crate) struct KnownLines {
    lines: Vec<KnownLine>,
    // Which of them the next line replaces, once there are as many as are kept at most.
    oldest: usize,
}

// Dropped by hand, since a derived `Drop` makes callers prove the drop of each field.
impl Drop for KnownLines {
    fn drop(self) {
        let KnownLines {
            lines: _,
            oldest: _,
        } = self;
    }
}

impl KnownLines {
    /// None. They take no memory yet.
    pub(crate) fn new(alloc: Global) -> KnownLines {
        KnownLines {
            lines: Vec::new(alloc),
            oldest: 0,
        }
    }

    /// What a line says, if it is kept.
    pub(crate) fn find(&self, line: &[u8]) -> Option<LineMeaning>
        ensures { IfSome result (λ meaning. record_line_text (line_of_call meaning.call meaning.reply) ≡ line.now) }
    {
        for known in &self.lines {
            if known.text.as_bytes() == line {
                return Some(known.meaning);
            }
        }
        None
    }

    /// Keeps a line for which the farm asked, and what it says, in the place of the oldest one if there are too many. A user's
    /// line isn't kept: it seldom comes again.
    pub(crate) fn keep(
        &mut self,
        alloc: Global,
        text: &str,
        meaning: LineMeaning,
    ) -> Result<(), NoMemory>
        requires { record_line_text (line_of_call meaning.call meaning.reply) ≡ text.now }
    {
        if meaning.call.by != By::Farm {
            return Ok(());
        }
        let known = KnownLine {
            text: String::from_str(alloc, text)?,
            meaning,
        };
        let place = self.oldest;
        if self.lines.len() < MOST_LINES || place >= self.lines.len() {
            self.lines.push(known)?;
        } else {
            self.lines[place] = known;
            self.oldest = (place + 1) % MOST_LINES;
        }
        Ok(())
    }
}
