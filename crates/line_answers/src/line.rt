//! Script lines, from what they ask to their output lines.
ghost use Rattle.std.specs.Prelude.{◌≡◌, [], OnOk, map, string_bytes};
ghost use Rattle.line_answers.specs.Sessions.{GainsSome, IsAnswered, AreAnswered};

use crate::asking::{ask_line, settle};
use crate::quantum::Quantum;
use answer_text::write_line;
use domain_core::{NoMemory, Refusal};
use farm_service::Session;
use script_lines::Command;
use std::alloc::Global;
use std::sync::Wait;

/// Asks what a line asks in its user's session, and appends its output line to the user's screen. A peek settles before
/// it reads, and nothing else does. If that settling is refused since the journal has no room, so is the peek.
///
/// # Errors
///
/// `NoMemory` if a command, a boot message, the settling of a peek or the text ran out of memory. What was taken before
/// it stays, and so may the beginning of the output line.
pub fn answer_line<R: Wait>(
    rt: &R,
    alloc: Global,
    session: &mut Session<'_>,
    quantum: Quantum,
    name: &str,
    command: &Command,
    screen: &mut String,
) -> Result<(), NoMemory>
    ensures list { GainsSome session.old session.new }
    ensures line { OnOk result (IsAnswered name.now command.now session.old session.new (string_bytes screen.old) (string_bytes screen.new)) }
{
    let before = session.commands().len();
    let ended = ask_line(rt, alloc, session, quantum, command);
    write_line(screen, name, command, &session.commands()[before..], ended)
}

/// Answers a user's lines in the user's session, one after another on the user's screen, which is empty. After each
/// line the domain settles. It is no error if that is refused since the journal is full.
///
/// # Errors
///
/// `NoMemory` as [`answer_line`], and if a settling ran out of memory. The lines after it are not answered.
pub fn answer_lines<R: Wait>(
    rt: &R,
    alloc: Global,
    session: &mut Session<'_>,
    quantum: Quantum,
    name: &str,
    commands: &[&Command],
    screen: &mut String,
) -> Result<(), NoMemory>
    requires { string_bytes screen.old ≡ [] }
    ensures list { GainsSome session.old session.new }
    ensures lines { OnOk result (AreAnswered name.now (map (λ c. c.now) commands.now) session.old session.new (string_bytes screen.new)) }
{
    for command in commands {
        answer_line(rt, alloc, session, quantum, name, command, screen)?;
        if matches!(settle(rt, alloc, session, quantum), Err(Refusal::NoMemory)) {
            return Err(NoMemory);
        }
    }
    Ok(())
}
