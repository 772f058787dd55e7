//! Reading the words after a shorthand verb.
ghost use Rattle.std.specs.Prelude.{◌≡◌, ◌≢◌, ◌∷◌, [], IfOk, IfErr, MatchOption};
ghost use Rattle.script_lines.specs.declared.command.Command.{Command as SpecCommand};
ghost use Rattle.shorthand_lines.specs.declared.fault.ShorthandFault.TheVariants.{NoMemory};
ghost use Rattle.shorthand_lines.specs.declared.verb.ShorthandVerb.TheVariants.{Join, Send, Text};
ghost use Rattle.shorthand_lines.specs.ShorthandLines.{IsPort, IsPortNumber, ShorthandAsks};
ghost use Rattle.shorthand_lines.specs.ShorthandFaults.{IsShorthandFault};

use crate::fault::ShorthandFault;
use crate::quoted::quoted_bytes;
use crate::verb::ShorthandVerb;
use script_lines::{Command, LineWords, parse_target};
use std::alloc::Global;

/// How many ports a switch has. Source: IMS C004 data sheet.
const PORTS: u8 = 32;

// The port's number that a word spells.
#[tactic(auto, using(crate::proofs::Refusals::no_port_unless_decimal, crate::proofs::Refusals::no_port_past_the_last))]
fn port_number(word: &[u8]) -> Option<u8>
    ensures { MatchOption result (¬ IsPortNumber word.now) (IsPort word.now) }
{
    let Ok(port) = parse_target(word) else {
        return None;
    };
    if port < PORTS { Some(port) } else { None }
}

// What `join` asks with two words. The messages are those of the IMS C004 that connect two ports in both directions (01) and
// make them ready (03).
fn join_ports(alloc: Global, first: &[u8], second: &[u8]) -> Result<Command, ShorthandFault>
    ensures asked { IfOk result (ShorthandAsks Join (first.now ∷ second.now ∷ [])) }
    ensures fault { IfErr result (IsShorthandFault Join (first.now ∷ second.now ∷ [])) }
{
    let Some(one) = port_number(first) else {
        return Err(ShorthandFault::FirstPort);
    };
    let Some(other) = port_number(second) else {
        return Err(ShorthandFault::SecondPort);
    };
    let bytes = Vec::from_slice(alloc, &[0x01, one, other, 0x03])?;
    Ok(Command::Config(bytes))
}

// What is wrong with `join` if there is one word alone.
fn fault_of_one(word: &[u8]) -> ShorthandFault
    ensures { IsShorthandFault Join (word.now ∷ []) result }
{
    match port_number(word) {
        Some(_) => ShorthandFault::TooFewWords,
        None => ShorthandFault::FirstPort,
    }
}

// What `join` asks.
fn parse_join(alloc: Global, mut words: LineWords<'_>) -> Result<Command, ShorthandFault>
    ensures asked { IfOk result (ShorthandAsks Join words.entry) }
    ensures fault { IfErr result (IsShorthandFault Join words.entry) }
{
    let first = words.take();
    let second = words.take();
    match (first, second, words.take()) {
        (None, _, _) => Err(ShorthandFault::TooFewWords),
        (Some(first), None, _) => Err(fault_of_one(first)),
        (Some(first), Some(second), None) => join_ports(alloc, first, second),
        (Some(_), Some(_), Some(_)) => Err(ShorthandFault::TooManyWords),
    }
}

// What `send` asks.
#[tactic(auto, using(crate::proofs::Refusals::quoted_again))]
fn parse_send(alloc: Global, mut words: LineWords<'_>) -> Result<Command, ShorthandFault>
    ensures asked { IfOk result (ShorthandAsks Send words.entry) }
    ensures fault { IfErr result (IsShorthandFault Send words.entry) }
{
    let Some(place) = words.take() else {
        return Err(ShorthandFault::TooFewWords);
    };
    let Ok(host) = parse_target(place) else {
        return Err(ShorthandFault::Host);
    };
    let Some(quoted) = words.rest_of_line() else {
        return Err(ShorthandFault::TooFewWords);
    };
    let found = quoted_bytes(alloc, quoted)?;
    let Some(bytes) = found else {
        return Err(ShorthandFault::Text);
    };
    Ok(Command::Write { host, bytes })
}

// What `text` asks with one word.
fn collect_at(place: &[u8]) -> Result<Command, ShorthandFault>
    ensures asked { IfOk result (ShorthandAsks Text (place.now ∷ [])) }
    ensures fault { IfErr result (IsShorthandFault Text (place.now ∷ [])) }
{
    let Ok(host) = parse_target(place) else {
        return Err(ShorthandFault::Host);
    };
    Ok(Command::Collect { host })
}

// What `text` asks.
fn parse_text(mut words: LineWords<'_>) -> Result<Command, ShorthandFault>
    ensures asked { IfOk result (ShorthandAsks Text words.entry) }
    ensures fault { IfErr result (IsShorthandFault Text words.entry) }
{
    let place = words.take();
    match (place, words.take()) {
        (None, _) => Err(ShorthandFault::TooFewWords),
        (Some(place), None) => collect_at(place),
        (Some(_), Some(_)) => Err(ShorthandFault::TooManyWords),
    }
}

/// What a shorthand verb asks with the words after it, or what is wrong with them. Too many words come first among faults,
/// then a wrong word, from the left, and then too few words.
#[tactic(auto, using(crate::proofs::Refusals::nothing_is_asked))]
pub fn parse_shorthand(
    alloc: Global,
    verb: ShorthandVerb,
    words: LineWords<'_>,
) -> Result<Command, ShorthandFault>
    ensures asked { IfOk result (ShorthandAsks verb words.entry) }
    ensures fault { IfErr result (IsShorthandFault verb words.entry) }
    ensures nothing { IfErr result (λ f. f ≢ NoMemory → (c : SpecCommand) → ¬ ShorthandAsks verb words.entry c) }
{
    match verb {
        ShorthandVerb::Join => parse_join(alloc, words),
        ShorthandVerb::Send => parse_send(alloc, words),
        ShorthandVerb::Text => parse_text(words),
    }
}
