//! A script.
ghost use Rattle.std.specs.Prelude.{◌≡◌, ◌<◌, length, map, All, IfOk, IfErr};
ghost use Rattle.std.specs.Str.Lines.{lines};
ghost use Rattle.script_lines.specs.Script.{IsScript, IsScriptFault};

use crate::command::Command;
use crate::fault::{ScriptFault, Unread};
use crate::line::parse_line;
use script_text::{is_passed_over, split_line};
use std::alloc::Global;

/// What a line asks, and for which user.
pub struct ScriptLine {
    /// The place of the user's name among all names.
    pub user: usize,
    /// What the line asks.
    pub command: Command,
}

// Dropped by hand, since a derived `Drop` makes callers prove the drop of each field.
impl Drop for ScriptLine {
    fn drop(self) {
        let ScriptLine {
            user: _,
            command: _,
        } = self;
    }
}

/// The lines of a script that ask something, in order. Empty lines and those that begin with `#` ask nothing, but count.
///
/// `Line` for the first line that is wrong, and `NoMemory` if there is no memory for the lines.
pub fn read_script(
    alloc: Global,
    names: &[&str],
    script: &[u8],
) -> Result<Vec<ScriptLine>, ScriptFault>
    ensures lines { IfOk result (λ asked. IsScript (map (λ n. n.now) names.now) (lines script.now) asked.items) }
    ensures users { IfOk result (λ asked. All (λ l. l.user < length names.now) asked.items) }
    ensures fault { IfErr result (IsScriptFault (map (λ n. n.now) names.now) (lines script.now)) }
{
    let mut asked = Vec::new(alloc);
    let mut number: u64 = 0;
    let mut rest = script;
    while !rest.is_empty() {
        let (line, after) = split_line(rest);
        rest = after;
        number += 1;
        if is_passed_over(line) {
            continue;
        }
        match parse_line(alloc, names, line) {
            Ok(line) => {
                if asked.push(line).is_err() {
                    return Err(ScriptFault::NoMemory);
                }
            }
            Err(Unread::Faulty(fault)) => return Err(ScriptFault::Line { number, fault }),
            Err(Unread::NoMemory) => return Err(ScriptFault::NoMemory),
        }
    }
    Ok(asked)
}
