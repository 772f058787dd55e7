//! Reading a line.
ghost use Rattle.std.specs.Prelude.{◌≡◌, ◌∷◌, [], ℕ, List, map, IfOk, IfErr, MatchOption};
ghost use Rattle.script_lines.specs.declared.command.Command.{Command as SpecCommand};
ghost use Rattle.script_lines.specs.declared.fault.LineFault.{LineFault as SpecLineFault};
ghost use Rattle.script_lines.specs.declared.fault.Unread.TheVariants.{Faulty};
ghost use Rattle.script_lines.specs.Lines.{Requests, IsRequest, IsArgumentFault, IsRestFault, IsLineFault, IsUserName};
ghost use Rattle.script_lines.specs.Script.{IsAsked};
ghost use Rattle.script_lines.specs.Words.{words_between};

use crate::command::Command;
use crate::fault::{LineFault, Unread};
use crate::numbers::{parse_bytes, parse_target, parse_word};
use crate::script::ScriptLine;
use crate::verb::Verb;
use crate::words::LineWords;
use std::alloc::Global;

// What a verb with one word asks.
fn with_one(alloc: Global, verb: Verb, word: &[u8]) -> Result<Command, Unread>
    ensures asked { IfOk result (Requests verb (word.now ∷ [])) }
    ensures fault { IfErr result (λ u. (f : SpecLineFault) → u ≡ Faulty f → IsArgumentFault verb (word.now ∷ []) f) }
{
    match verb {
        Verb::Config => Ok(Command::Config(parse_bytes(alloc, word)?)),
        Verb::Collect => Ok(Command::Collect {
            host: parse_target(word)?,
        }),
        Verb::Reset => Ok(Command::Reset {
            node: parse_target(word)?,
        }),
        Verb::Look => Ok(Command::Look {
            node: parse_target(word)?,
        }),
        Verb::Write | Verb::Boot | Verb::Poke | Verb::Peek => {
            Err(Unread::Faulty(LineFault::Args))
        }
    }
}

// What a verb with two words asks.
#[tactic(auto, using(crate::proofs::Arguments::peek_refused))]
fn with_two(alloc: Global, verb: Verb, place: &[u8], digits: &[u8]) -> Result<Command, Unread>
    ensures asked { IfOk result (Requests verb (place.now ∷ digits.now ∷ [])) }
    ensures fault { IfErr result (λ u. (f : SpecLineFault) → u ≡ Faulty f → IsArgumentFault verb (place.now ∷ digits.now ∷ []) f) }
{
    match verb {
        Verb::Write => Ok(Command::Write {
            host: parse_target(place)?,
            bytes: parse_bytes(alloc, digits)?,
        }),
        Verb::Boot => Ok(Command::Boot {
            host: parse_target(place)?,
            code: parse_bytes(alloc, digits)?,
        }),
        Verb::Peek => Ok(Command::Peek {
            host: parse_target(place)?,
            address: parse_word(alloc, digits)?,
        }),
        Verb::Config | Verb::Poke | Verb::Collect | Verb::Reset | Verb::Look => {
            Err(Unread::Faulty(LineFault::Args))
        }
    }
}

// What a verb with three words asks.
#[tactic(auto, using(crate::proofs::Arguments::poke_refused_at, crate::proofs::Arguments::poke_refused_of))]
fn with_three(
    alloc: Global,
    verb: Verb,
    place: &[u8],
    address: &[u8],
    word: &[u8],
) -> Result<Command, Unread>
    ensures asked { IfOk result (Requests verb (place.now ∷ address.now ∷ word.now ∷ [])) }
    ensures fault { IfErr result (λ u. (f : SpecLineFault) → u ≡ Faulty f → IsArgumentFault verb (place.now ∷ address.now ∷ word.now ∷ []) f) }
{
    if verb != Verb::Poke {
        return Err(Unread::Faulty(LineFault::Args));
    }
    Ok(Command::Poke {
        host: parse_target(place)?,
        address: parse_word(alloc, address)?,
        word: parse_word(alloc, word)?,
    })
}

// What a verb asks with the words after it.
fn parse_command(alloc: Global, verb: Verb, mut words: LineWords<'_>) -> Result<Command, Unread>
    ensures asked { IfOk result (Requests verb words.entry) }
    ensures fault { IfErr result (λ u. (f : SpecLineFault) → u ≡ Faulty f → IsArgumentFault verb words.entry f) }
{
    let first = words.take();
    let second = words.take();
    let third = words.take();
    match (first, second, third, words.take()) {
        (Some(word), None, _, _) => with_one(alloc, verb, word),
        (Some(place), Some(digits), None, _) => with_two(alloc, verb, place, digits),
        (Some(place), Some(address), Some(word), None) => {
            with_three(alloc, verb, place, address, word)
        }
        _ => Err(Unread::Faulty(LineFault::Args)),
    }
}

/// The place of a name among all.
pub fn user_named(names: &[&str], name: &[u8]) -> Option<usize>
    ensures { MatchOption result ((user : ℕ) → ¬ IsUserName (map (λ n. n.now) names.now) name.now user) (IsUserName (map (λ n. n.now) names.now) name.now) }
{
    for (user, other) in names.iter().enumerate() {
        if other.as_bytes() == name {
            return Some(user);
        }
    }
    None
}

/// What the words after a user's name ask, tested in the order verb, args, hex.
pub fn parse_request(alloc: Global, mut words: LineWords<'_>) -> Result<Command, Unread>
    ensures asked { IfOk result (IsRequest words.entry) }
    ensures fault { IfErr result (λ u. (f : SpecLineFault) → u ≡ Faulty f → IsRestFault words.entry f) }
{
    let Some(word) = words.take() else {
        return Err(Unread::Faulty(LineFault::Verb));
    };
    let Some(verb) = Verb::of(word) else {
        return Err(Unread::Faulty(LineFault::Verb));
    };
    parse_command(alloc, verb, words)
}

/// A line that asks something, tested in the order user, verb, args, hex.
pub(crate) fn parse_line(alloc: Global, names: &[&str], line: &[u8]) -> Result<ScriptLine, Unread>
    ensures asked { IfOk result (IsAsked (map (λ n. n.now) names.now) line.now) }
    ensures fault { IfErr result (λ u. (f : SpecLineFault) → u ≡ Faulty f → IsLineFault (map (λ n. n.now) names.now) (words_between line.now) f) }
{
    let mut words = LineWords::of(line);
    let Some(name) = words.take() else {
        return Err(Unread::Faulty(LineFault::User));
    };
    let Some(user) = user_named(names, name) else {
        return Err(Unread::Faulty(LineFault::User));
    };
    let command = parse_request(alloc, words)?;
    Ok(ScriptLine { user, command })
}
