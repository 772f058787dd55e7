//! What the processes of a PAR may not use at the same time.

use crate::unit::CoreUnit;
use occam_uses::{Clash, ClashSubject, UsageWay};
use std::alloc::{AllocError, Global};
use std::fmt;

// A channel between two processes carries a value from one to the other.
const SEND_IT: &str = "A channel between them carries its value";

const ONE_CHANNEL_EACH: &str = "Each process has a channel of its own";

const KNOWN_SUBSCRIPTS: &str =
    "Subscripts of two processes must be constants, or an index of SEQ with constant bounds";

/// Two processes of a PAR that use the same variable or channel, as they may not: one of them changes the variable, or both
/// send by the channel, or both receive.
///
/// Source: occam 2 reference manual, parallel.
#[derive(Drop)]
pub struct UseMistake {
    clash: Clash,
    // What both use, and the line that declares it.
    name: String,
    line: u32,
}

impl UseMistake {
    /// What is said of a clash in a program.
    pub fn of(alloc: Global, clash: Clash, unit: &CoreUnit) -> Result<UseMistake, AllocError> {
        let (name, line) = match clash.subject() {
            ClashSubject::Variable(number) | ClashSubject::Inside(number) => {
                declared_at(unit, number)
            }
            ClashSubject::Link(number) => placed_at(unit, number),
        };
        let name = String::from_str(alloc, name)?;
        Ok(UseMistake { clash, name, line })
    }
}

// The name of a variable or of a channel within the node, and the line that declares it. What has no name is in an instance of a
// procedure that is in no text of the user.
fn declared_at(unit: &CoreUnit, number: u32) -> (&str, u32) {
    for variable in &unit.variables {
        if number.wrapping_sub(variable.first) < variable.words {
            return match &variable.name {
                Some(name) => (name.as_str(), variable.line),
                None => ("a variable", variable.line),
            };
        }
    }
    ("a variable", 0)
}

// The name of the channel at a link, and the line that declares it.
fn placed_at(unit: &CoreUnit, number: u8) -> (&str, u32) {
    for link in &unit.links {
        if link.number == number {
            return (link.name.as_str(), link.line);
        }
    }
    ("a channel", 0)
}

impl fmt::Display for UseMistake {
    fn fmt<W: fmt::Write>(&self, f: &mut fmt::Formatter<W>) -> fmt::Result {
        let Clash { earlier, later } = self.clash;
        let (expected, does, hint) = match (earlier.way, later.way) {
            (UsageWay::Sends, _) => ("one sender by", "is sent to", ONE_CHANNEL_EACH),
            (UsageWay::Receives, _) => ("one receiver by", "is received from", ONE_CHANNEL_EACH),
            (UsageWay::Changes, _) => ("no use of", "changes", SEND_IT),
            (UsageWay::Reads, _) => ("no change of", "is used", SEND_IT),
        };
        let (number, hint) = match earlier.way {
            UsageWay::Sends | UsageWay::Receives => (36, hint),
            _ if self.clash.is_known() => (35, hint),
            _ => (37, KNOWN_SUBSCRIPTS),
        };
        write!(
            f,
            "line {}, column {}: fault {number}: expected {expected} {} (line {}), which {does} in line {} at the same time. {hint}",
            later.place.line, later.place.column, self.name, self.line, earlier.place.line
        )
    }
}
