//! Reading a line.
ghost use Rattle.std.specs.Prelude.{◌≡◌, ◌≢◌, ◌∷◌, [], ℕ, List, map, IfOk, IfErr};
ghost use Rattle.script_lines.specs.declared.command.Command.{Command as SpecCommand};
ghost use Rattle.script_lines.specs.declared.fault.LineFault.{LineFault as SpecLineFault};
ghost use Rattle.script_lines.specs.declared.fault.LineFault.TheVariants.{Args};
ghost use Rattle.script_lines.specs.declared.fault.Unread.TheVariants.{Faulty, NoMemory};
ghost use Rattle.shorthand_lines.specs.declared.fault.ShorthandFault.TheVariants as shorthand_fault;
ghost use Rattle.shorthand_lines.specs.ShorthandLines.{ShorthandAsks};
ghost use Rattle.live_lines.specs.LiveLines.{is_operators, DomainAsks, HasDomainArguments, AsksLive, IsLiveRestFault, IsUserLine, IsUserFault};
ghost use Rattle.live_lines.specs.LiveLines.{OperatorAsks, IsOperatorArgumentFault, IsOperatorLine, IsOperatorFault, IsLiveLine, IsLiveFault};

use crate::asked::{LiveLine, LiveRequest, OperatorRequest, WholeRequest};
use crate::fault::LiveFault;
use crate::verbs::{DomainVerb, OperatorVerb};
use script_lines::{
    Command, LineFault, LineWords, Unread, parse_request, parse_target, user_named,
};
use shorthand_lines::{ShorthandFault, ShorthandVerb, parse_shorthand};
use std::alloc::Global;

/// The most bytes of a line, with its line feed: 1 MiB.
pub const MOST_LINE_BYTES: u32 = 1_048_576;

/// Whether a line is the operator's: it begins with `!`.
pub fn is_operators(line: &[u8]) -> bool
    ensures { result ≡ is_operators line.now }
{
    match line {
        [] => false,
        [first, ..] => *first == b'!',
    }
}

// What a verb asks of the domain as a whole with no word after it.
fn of_all(verb: DomainVerb) -> WholeRequest
    ensures { DomainAsks verb [] result }
{
    match verb {
        DomainVerb::Rest => WholeRequest::Rest,
        DomainVerb::Restart => WholeRequest::Restart,
        DomainVerb::Why => WholeRequest::Why { node: None },
    }
}

// What it asks with a word after it.
fn of_one(verb: DomainVerb, word: &[u8]) -> Result<WholeRequest, Unread>
    ensures asked { IfOk result (DomainAsks verb (word.now ∷ [])) }
    ensures fault { IfErr result (λ u. (u ≡ Faulty Args) × (¬ HasDomainArguments verb (word.now ∷ []))) }
{
    match verb {
        DomainVerb::Rest | DomainVerb::Restart => Err(Unread::Faulty(LineFault::Args)),
        DomainVerb::Why => {
            let node = parse_target(word)?;
            Ok(WholeRequest::Why { node: Some(node) })
        }
    }
}

// What it asks with the words after it.
fn parse_domain_arguments(
    verb: DomainVerb,
    mut words: LineWords<'_>,
) -> Result<WholeRequest, Unread>
    ensures asked { IfOk result (DomainAsks verb words.entry) }
    ensures fault { IfErr result (λ u. (u ≡ Faulty Args) × (¬ HasDomainArguments verb words.entry)) }
{
    let first = words.take();
    match (first, words.take()) {
        (None, _) => Ok(of_all(verb)),
        (Some(word), None) => of_one(verb, word),
        (Some(_), Some(_)) => Err(Unread::Faulty(LineFault::Args)),
    }
}

// Why a shorthand line isn't read.
fn unread_of(fault: ShorthandFault) -> Unread
    ensures wrong { (f : SpecLineFault) → result ≡ Faulty f → (f ≡ Args) × (fault ≢ shorthand_fault.NoMemory) }
    ensures memory { result ≡ NoMemory → fault ≡ shorthand_fault.NoMemory }
{
    match fault {
        ShorthandFault::NoMemory => Unread::NoMemory,
        ShorthandFault::TooFewWords
        | ShorthandFault::TooManyWords
        | ShorthandFault::FirstPort
        | ShorthandFault::SecondPort
        | ShorthandFault::Host
        | ShorthandFault::Text => Unread::Faulty(LineFault::Args),
    }
}

// What a shorthand verb asks with the words after it.
fn parse_shorthand_arguments(
    alloc: Global,
    verb: ShorthandVerb,
    words: LineWords<'_>,
) -> Result<Command, Unread>
    ensures asked { IfOk result (ShorthandAsks verb words.entry) }
    ensures fault { IfErr result (λ u. (f : SpecLineFault) → u ≡ Faulty f → (f ≡ Args) × ((c : SpecCommand) → ¬ ShorthandAsks verb words.entry c)) }
{
    match parse_shorthand(alloc, verb, words) {
        Ok(command) => Ok(command),
        Err(fault) => Err(unread_of(fault)),
    }
}

// What the words after a user's name ask.
fn parse_rest(alloc: Global, words: LineWords<'_>) -> Result<LiveRequest, Unread>
    ensures asked { IfOk result (AsksLive words.entry) }
    ensures fault { IfErr result (λ u. (f : SpecLineFault) → u ≡ Faulty f → IsLiveRestFault words.entry f) }
{
    let mut behind = words.copy();
    let Some(word) = behind.take() else {
        return Err(Unread::Faulty(LineFault::Verb));
    };
    if let Some(verb) = DomainVerb::of(word) {
        return Ok(LiveRequest::Domain(parse_domain_arguments(verb, behind)?));
    }
    let Some(verb) = ShorthandVerb::of(word) else {
        return Ok(LiveRequest::Script(parse_request(alloc, words)?));
    };
    Ok(LiveRequest::Script(parse_shorthand_arguments(alloc, verb, behind)?))
}

// What a user's line asks.
fn parse_user_line(
    alloc: Global,
    names: &[&str],
    mut words: LineWords<'_>,
) -> Result<LiveLine, LiveFault>
    ensures asked { IfOk result (IsUserLine (map (λ n. n.now) names.now) words.entry) }
    ensures fault { IfErr result (IsUserFault (map (λ n. n.now) names.now) words.entry) }
{
    let Some(name) = words.take() else {
        return Err(LiveFault::UnknownUser);
    };
    let Some(user) = user_named(names, name) else {
        return Err(LiveFault::UnknownUser);
    };
    match parse_rest(alloc, words) {
        Ok(request) => Ok(LiveLine::User { user, request }),
        Err(Unread::Faulty(fault)) => Err(LiveFault::User { user, fault }),
        Err(Unread::NoMemory) => Err(LiveFault::NoMemory { user }),
    }
}

// What an operator's verb asks with no word after it.
fn with_none(verb: OperatorVerb) -> Result<OperatorRequest, LineFault>
    ensures asked { IfOk result (λ r. (names : List (List ℕ)) → OperatorAsks names verb [] r) }
    ensures fault { IfErr result (λ f. (names : List (List ℕ)) → IsOperatorArgumentFault names verb [] f) }
{
    match verb {
        OperatorVerb::Words => Ok(OperatorRequest::Words),
        OperatorVerb::Users => Ok(OperatorRequest::Users),
        OperatorVerb::Memory => Ok(OperatorRequest::Memory),
        OperatorVerb::Stop => Ok(OperatorRequest::Stop),
        OperatorVerb::Restart => Err(LineFault::Args),
    }
}

// What an operator's verb asks with a name after it.
fn with_name(names: &[&str], verb: OperatorVerb, name: &[u8]) -> Result<OperatorRequest, LineFault>
    ensures asked { IfOk result (OperatorAsks (map (λ n. n.now) names.now) verb (name.now ∷ [])) }
    ensures fault { IfErr result (IsOperatorArgumentFault (map (λ n. n.now) names.now) verb (name.now ∷ [])) }
{
    if verb != OperatorVerb::Restart {
        return Err(LineFault::Args);
    }
    match user_named(names, name) {
        Some(user) => Ok(OperatorRequest::Restart { user }),
        None => Err(LineFault::User),
    }
}

// What an operator's verb asks with the words after it.
fn parse_arguments(
    names: &[&str],
    verb: OperatorVerb,
    mut words: LineWords<'_>,
) -> Result<OperatorRequest, LineFault>
    ensures asked { IfOk result (OperatorAsks (map (λ n. n.now) names.now) verb words.entry) }
    ensures fault { IfErr result (IsOperatorArgumentFault (map (λ n. n.now) names.now) verb words.entry) }
{
    let first = words.take();
    match (first, words.take()) {
        (None, _) => with_none(verb),
        (Some(name), None) => with_name(names, verb, name),
        (Some(_), Some(_)) => Err(LineFault::Args),
    }
}

// What an operator's line asks.
fn parse_operator_line(
    names: &[&str],
    mut words: LineWords<'_>,
) -> Result<OperatorRequest, LineFault>
    ensures asked { IfOk result (IsOperatorLine (map (λ n. n.now) names.now) words.entry) }
    ensures fault { IfErr result (IsOperatorFault (map (λ n. n.now) names.now) words.entry) }
{
    let Some(word) = words.take() else {
        return Err(LineFault::Verb);
    };
    let Some(verb) = OperatorVerb::of(word) else {
        return Err(LineFault::Verb);
    };
    parse_arguments(names, verb, words)
}

/// What a line asks, and who. The tests of a user's line come in the order user, verb, args, hex, those of an operator's in
/// the order verb, args, user.
pub fn parse_live_line(alloc: Global, names: &[&str], line: &[u8]) -> Result<LiveLine, LiveFault>
    ensures asked { IfOk result (IsLiveLine (map (λ n. n.now) names.now) line.now) }
    ensures fault { IfErr result (IsLiveFault (map (λ n. n.now) names.now) line.now) }
{
    if !is_operators(line) {
        return parse_user_line(alloc, names, LineWords::of(line));
    }
    match parse_operator_line(names, LineWords::of(line)) {
        Ok(request) => Ok(LiveLine::Operator(request)),
        Err(fault) => Err(LiveFault::Operator(fault)),
    }
}
