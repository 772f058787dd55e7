//! What is wrong with a script.
ghost use Rattle.std.specs.Prelude.{◌≡◌};
ghost use Rattle.script_lines.specs.Faults.{fault_word, line_fault_number, script_fault_number};
ghost use Rattle.script_lines.specs.declared.fault.Unread.TheVariants.{NoMemory};

use std::alloc::AllocError;
use std::fmt;
use thiserror::Error;

/// What is wrong with a script line, in the order of the tests.
#[derive(Clone, Copy, Debug)]
pub enum LineFault {
    /// The first word is no user's name.
    User,
    /// The second word is no verb, or there is none.
    Verb,
    /// The verb takes another number of words, or the number of a host or node isn't a decimal number to 255.
    Args,
    /// Bytes aren't an even number of hexadecimal digits, at least two, or an address or word isn't eight of them.
    Hex,
}

impl LineFault {
    /// The number of the fault, in the order of the tests: 1 for the user, 2 for the verb, 3 for the arguments, 4 for digits.
    pub fn number(self) -> u8
        ensures { result ≡ line_fault_number self }
    {
        match self {
            LineFault::User => 1,
            LineFault::Verb => 2,
            LineFault::Args => 3,
            LineFault::Hex => 4,
        }
    }

    /// The word for the fault, as outputs and answers show it.
    pub fn word(self) -> &'static str
        ensures { result.now ≡ fault_word self }
    {
        match self {
            LineFault::User => "user",
            LineFault::Verb => "verb",
            LineFault::Args => "args",
            LineFault::Hex => "hex",
        }
    }
}

impl fmt::Display for LineFault {
    fn fmt<W: fmt::Write>(&self, f: &mut fmt::Formatter<W>) -> fmt::Result {
        f.write_str(self.word())
    }
}

impl std::error::Error for LineFault {}

/// Why a script isn't read.
#[derive(Clone, Copy, Debug, Error)]
pub enum ScriptFault {
    /// A line is wrong: the first that is, with its number, from 1.
    #[error("line {number}: {fault}")]
    Line { number: u64, fault: LineFault },
    /// There is no memory for the lines.
    #[error("out of memory")]
    NoMemory,
}

impl ScriptFault {
    /// The number of the fault, whatever is wrong with the line: 1 where a line is wrong, 2 if memory ran out.
    pub fn number(self) -> u8
        ensures { result ≡ script_fault_number self }
    {
        match self {
            ScriptFault::Line { .. } => 1,
            ScriptFault::NoMemory => 2,
        }
    }
}

/// Why a line isn't read.
#[derive(Clone, Copy)]
pub enum Unread {
    /// It is wrong.
    Faulty(LineFault),
    /// There is no memory for it.
    NoMemory,
}

impl From<AllocError> for Unread {
    ghost from_gives = { λ _ unread. unread ≡ NoMemory };

    fn from(_error: AllocError) -> Unread {
        Unread::NoMemory
    }
}
