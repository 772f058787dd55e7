//! What becomes of a line that was read.
ghost use Rattle.std.specs.Prelude.{◌≡◌, map};
ghost use Rattle.live_farm.specs.Fates.{begins_comment, IsWhose, IsFate, IsFateOfBeginning, IsFateOfFault, IsFateOfLine};

use crate::queued::QueuedRequest;
use crate::texts::NotDone;
use live_lines::{
    LiveFault, LiveLine, LiveRequest, OperatorRequest, is_operators, parse_live_line,
};
use script_lines::{LineWords, user_named};
use script_text::{InputLine, is_passed_over, split_line};
use std::alloc::Global;

/// What becomes of a line that was read.
#[derive(Drop)]
pub enum LineFate {
    /// The input has ended.
    End,
    /// It asks nothing.
    PassedOver,
    /// It asks something of a user's domain. `user` is the place of the user's name among all.
    Asks { user: usize, request: LiveRequest },
    /// It isn't done, and a user is answered why. `user` is the place of the user's name among all.
    Refused { user: usize, why: NotDone },
    /// The operator asks something.
    Operator(OperatorRequest),
    /// It isn't done, and the operator is answered why.
    OperatorRefused(NotDone),
    /// It isn't done, and whose it is isn't known.
    Nobodys,
}

// Whether a line is a comment, whatever follows this beginning.
fn begins_comment(beginning: &[u8]) -> bool
    ensures { result ≡ begins_comment beginning.now }
{
    match beginning {
        [] => false,
        [first, ..] => *first == b'#',
    }
}

// The user whose name is the first word of a line, whatever follows this beginning.
fn called_by(names: &[&str], beginning: &[u8]) -> Option<usize>
    ensures { IsWhose (map (λ n. n.now) names.now) beginning.now result }
{
    let mut words = LineWords::of(beginning);
    let name = words.take()?;
    // Without a blank after it the word may go on.
    words.take()?;
    user_named(names, name)
}

// What becomes of a line if only its beginning is known.
fn fate_of_beginning(names: &[&str], beginning: &[u8], why: NotDone) -> LineFate
    ensures { IsFateOfBeginning (map (λ n. n.now) names.now) beginning.now why result }
{
    if begins_comment(beginning) {
        return LineFate::PassedOver;
    }
    if is_operators(beginning) {
        return LineFate::OperatorRefused(why);
    }
    match called_by(names, beginning) {
        Some(user) => LineFate::Refused { user, why },
        None => LineFate::Nobodys,
    }
}

// What becomes of a line that asks nothing.
fn fate_of_fault(fault: LiveFault) -> LineFate
    ensures { IsFateOfFault fault result }
{
    match fault {
        LiveFault::User { user, fault } => LineFate::Refused {
            user,
            why: NotDone::Fault(fault),
        },
        LiveFault::Operator(fault) => LineFate::OperatorRefused(NotDone::Fault(fault)),
        LiveFault::UnknownUser => LineFate::Nobodys,
        LiveFault::NoMemory { user } => LineFate::Refused {
            user,
            why: NotDone::Memory,
        },
    }
}

// What becomes of a line that was read whole.
fn fate_of_line(alloc: Global, names: &[&str], line: &[u8]) -> LineFate
    ensures { IsFateOfLine (map (λ n. n.now) names.now) line.now result }
{
    if is_passed_over(line) {
        return LineFate::PassedOver;
    }
    match parse_live_line(alloc, names, line) {
        Ok(LiveLine::User { user, request }) => LineFate::Asks { user, request },
        Ok(LiveLine::Operator(request)) => LineFate::Operator(request),
        Err(fault) => fate_of_fault(fault),
    }
}

/// What becomes of a line that was read. If the line isn't whole, its beginning says whose it is: it is passed over if it is a
/// comment, it is the operator's if it begins with `!`, and it is a user's if it begins with the user's name and a blank.
pub fn fate_of(alloc: Global, names: &[&str], read: &InputLine) -> LineFate
    ensures { IsFate (map (λ n. n.now) names.now) read.now result }
{
    match read {
        InputLine::End => LineFate::End,
        InputLine::Whole(bytes) => {
            let (line, _) = split_line(bytes.as_slice());
            fate_of_line(alloc, names, line)
        }
        InputLine::Long(bytes) => fate_of_beginning(names, bytes.as_slice(), NotDone::Long),
        InputLine::NoMemory(bytes) => fate_of_beginning(names, bytes.as_slice(), NotDone::Memory),
    }
}
