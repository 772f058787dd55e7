//! Processes of the core.

use crate::channel::{CoreChannel, CoreGuard, MessageKind};
use crate::expression::{CoreArray, Expression};

/// Where a process is in the text.
#[derive(Clone, Copy)]
pub struct CorePlace {
    /// The number of the line, from 1.
    pub line: u32,
    /// The number of the character in the line, from 1.
    pub column: u32,
}

/// A process of the core. Variables are named by their numbers, from 0.
///
/// Source: occam 2 reference manual, processes.
pub enum CoreProcess {
    /// It ends immediately.
    Skip,
    /// It is an error.
    Stop,
    /// The process, which begins at this place of the text.
    Line(CorePlace, Box<CoreProcess>),
    /// The variable of this number gets the value.
    Assign(u32, Expression),
    /// The element of an array at the first value gets the second value. It is an error unless the array has the element.
    AssignElement(CoreArray, Expression, Expression),
    /// The first array gets the elements of the second, which has as many of the same kind.
    Copy(CoreArray, CoreArray),
    /// The variables from this number on become channels by which nothing is sent yet, as many as the second number says.
    Channels(u32, u32),
    /// The variable of this number gets a message from the channel.
    Input(CoreChannel, MessageKind, u32),
    /// The element of an array at the value gets a message from the channel.
    InputElement(CoreChannel, CoreArray, Expression),
    /// The array gets a message of all its bytes from the channel.
    InputArray(CoreChannel, CoreArray),
    /// The value is sent by the channel.
    Output(CoreChannel, MessageKind, Expression),
    /// All bytes of the array are sent by the channel.
    OutputArray(CoreChannel, CoreArray),
    /// One process after the other.
    Sequence(Box<CoreProcess>, Box<CoreProcess>),
    /// Both processes at the same time. It ends when both have ended.
    Parallel(Box<CoreProcess>, Box<CoreProcess>),
    /// The first process, if its guard is ready before those of the second; else the second. If several guards are ready, it
    /// is the first of them. It waits until one is, and is an error if none is open. The guards of another `Choose` are its
    /// own and those of its second process. No other process has guards.
    Choose(CoreGuard, Box<CoreProcess>, Box<CoreProcess>),
    /// The first process unless the value is 0, and then the second.
    If(Expression, Box<CoreProcess>, Box<CoreProcess>),
    /// The process, as often as the value, evaluated before each turn, isn't 0.
    While(Expression, Box<CoreProcess>),
    /// The process, as often as the second value says, which is an error if it is negative. The variable of this number is
    /// the first value in the first turn, and one more in each turn after it, modulo 2^32. The next variable counts the
    /// turns that are left.
    Repeat(u32, Expression, Expression, Box<CoreProcess>),
}

// Dropped by hand, since a derived `Drop` makes callers prove the drop of each part.
impl Drop for CoreProcess {
    fn drop(self) {
        match self {
            CoreProcess::Skip | CoreProcess::Stop | CoreProcess::Line(_, _) => {}
            CoreProcess::Assign(_, _) | CoreProcess::AssignElement(_, _, _) => {}
            CoreProcess::Copy(_, _) | CoreProcess::Channels(_, _) => {}
            CoreProcess::Input(_, _, _) | CoreProcess::InputElement(_, _, _) => {}
            CoreProcess::InputArray(_, _) => {}
            CoreProcess::Output(_, _, _) | CoreProcess::OutputArray(_, _) => {}
            CoreProcess::Sequence(_, _) | CoreProcess::Parallel(_, _) => {}
            CoreProcess::Choose(_, _, _) | CoreProcess::If(_, _, _) => {}
            CoreProcess::While(_, _) | CoreProcess::Repeat(_, _, _, _) => {}
        }
    }
}
