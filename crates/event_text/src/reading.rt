//! Reading a line.

use crate::request::{DomainRequest, RepeatedRequest, Request};
use domain_core::{By, Event, TICKET_STEPS};
use lab_words::{Wanted, WordFault, WordForm, Words};
use script_text::decimal_number;
use std::alloc::{AllocError, Global};

/// The most times that one line is asked, unless it asks the farm for Steps.
const MOST_TIMES: u64 = 1_000_000;

/// The greatest quantum, in Steps.
const MOST_QUANTUM: u64 = 4096;

// The word after the number of a domain.
#[derive(Clone, Copy)]
enum RequestVerb {
    Quiet,
    Word,
    Recorded,
    Restart,
    Journal,
    Checkout,
    Burst,
    Commit,
    Settle,
    Events(EventVerb),
}

// The word that asks for events.
#[derive(Clone, Copy)]
enum EventVerb {
    One(EventKind),
    Moves,
    Configs,
    Writes,
}

#[derive(Clone, Copy)]
enum EventKind {
    Step,
    Move,
    Config,
    Write,
    Read,
    Reset,
    Look,
}

const VERBS: [(&str, RequestVerb); 19] = [
    ("quiet", RequestVerb::Quiet),
    ("word", RequestVerb::Word),
    ("recorded", RequestVerb::Recorded),
    ("restart", RequestVerb::Restart),
    ("journal", RequestVerb::Journal),
    ("checkout", RequestVerb::Checkout),
    ("burst", RequestVerb::Burst),
    ("commit", RequestVerb::Commit),
    ("settle", RequestVerb::Settle),
    ("moves", RequestVerb::Events(EventVerb::Moves)),
    ("configs", RequestVerb::Events(EventVerb::Configs)),
    ("writes", RequestVerb::Events(EventVerb::Writes)),
    ("step", RequestVerb::Events(EventVerb::One(EventKind::Step))),
    ("move", RequestVerb::Events(EventVerb::One(EventKind::Move))),
    (
        "config",
        RequestVerb::Events(EventVerb::One(EventKind::Config)),
    ),
    (
        "write",
        RequestVerb::Events(EventVerb::One(EventKind::Write)),
    ),
    ("read", RequestVerb::Events(EventVerb::One(EventKind::Read))),
    (
        "reset",
        RequestVerb::Events(EventVerb::One(EventKind::Reset)),
    ),
    ("look", RequestVerb::Events(EventVerb::One(EventKind::Look))),
];

// The names of the verbs, as messages list them.
const VERB_NAMES: [&str; 19] = [
    "config", "configs", "write", "writes", "read", "reset", "look", "step", "move", "moves",
    "word", "quiet", "recorded", "journal", "restart", "checkout", "burst", "commit", "settle",
];

/// What a line asks, and how often. `Wrong` with the first word that is wrong or missing, or that comes after the end.
pub fn read_request(alloc: Global, line: &str) -> Result<RepeatedRequest, WordFault> {
    let mut words = Words::of(line);
    let begin = words.place();
    let times = read_times(&mut words);
    let request = read_once(alloc, &mut words)?;
    if times > most_times(&request) {
        let wanted = Wanted::decimal("a number of times", 0, MOST_TIMES);
        words.reject(begin, wanted);
    }
    words.finish(RepeatedRequest { times, request })
}

// The number before `times`, if the line begins so.
fn read_times(words: &mut Words) -> u64 {
    let mut ahead = *words;
    let _ = ahead.take(Wanted::End);
    if ahead.peek() != "times" {
        return 1;
    }
    let times = words.decimal("a number of times", TICKET_STEPS);
    let _ = words.take_if("times");
    times
}

// How often a line may ask this. Steps for which the farm asks may be as many as those of a ticket.
fn most_times(request: &Request) -> u64 {
    match request.one_event() {
        Some((_, By::Farm, Event::Step(_))) => TICKET_STEPS,
        _ => MOST_TIMES,
    }
}

fn read_once(alloc: Global, words: &mut Words) -> Result<Request, AllocError> {
    if words.take_if("words") {
        return Ok(Request::Words);
    }
    if words.take_if("reopen") {
        return Ok(Request::Reopen);
    }
    let domain = words.small_decimal("a domain's number");
    let wanted = Wanted::Word("a verb of a domain", WordForm::OneOf(&VERB_NAMES));
    Ok(match words.value_in(&VERBS, RequestVerb::Quiet, wanted) {
        RequestVerb::Quiet => Request::Domain(domain, DomainRequest::Quiet),
        RequestVerb::Word => Request::Domain(
            domain,
            DomainRequest::Word(words.small_decimal("an output's number")),
        ),
        RequestVerb::Recorded => Request::Domain(domain, DomainRequest::Recorded),
        RequestVerb::Restart => Request::Domain(domain, DomainRequest::Restart),
        RequestVerb::Journal => Request::Domain(domain, DomainRequest::Journal),
        RequestVerb::Checkout => Request::Domain(
            domain,
            DomainRequest::Checkout(words.small_decimal("a node's number")),
        ),
        RequestVerb::Burst => Request::Domain(domain, read_burst(words)),
        RequestVerb::Commit => Request::Domain(domain, DomainRequest::Commit(read_ticket(words))),
        RequestVerb::Settle => Request::Domain(domain, read_settle(words)),
        RequestVerb::Events(verb) => {
            let events = read_events(alloc, verb, words)?;
            Request::Events(domain, read_asker(usual_asker(verb), words), events)
        }
    })
}

fn read_burst(words: &mut Words) -> DomainRequest {
    DomainRequest::Burst(
        read_ticket(words),
        words.decimal("a number of Steps", u64::MAX),
    )
}

fn read_ticket(words: &mut Words) -> usize {
    words.decimal("a ticket's number", u64::MAX) as usize
}

fn read_settle(words: &mut Words) -> DomainRequest {
    let quantum = words.decimal_from("a quantum of Steps", 1, MOST_QUANTUM);
    DomainRequest::Settle(quantum, words.decimal("a number of rounds", u64::MAX))
}

// Who asks if the line doesn't say it: the farm steps and moves, and user 0 asks for the rest.
fn usual_asker(verb: EventVerb) -> By {
    match verb {
        EventVerb::Moves | EventVerb::One(EventKind::Step | EventKind::Move) => By::Farm,
        _ => By::User(0),
    }
}

// Who asks, if the next word says so after `@`.
fn read_asker(usual: By, words: &mut Words) -> By {
    let place = words.place();
    match words.peek().strip_prefix("@") {
        Some(name) => {
            let wanted = Wanted::Word("the user who asks", WordForm::Asker);
            let _ = words.take(wanted);
            words.or_reject(place, asker_named(name), usual, wanted)
        }
        None => usual,
    }
}

fn asker_named(name: &str) -> Option<By> {
    if name == "farm" {
        return Some(By::Farm);
    }
    let user = u8::try_from(decimal_number(name)?).ok()?;
    Some(By::User(user))
}

// The events that a verb asks for. A plural asks for several.
fn read_events(
    alloc: Global,
    verb: EventVerb,
    words: &mut Words,
) -> Result<Vec<Event>, AllocError> {
    match verb {
        EventVerb::One(kind) => Vec::from_slice(alloc, &[read_event(kind, words)]),
        EventVerb::Moves => read_moves(alloc, words),
        EventVerb::Configs => read_configs(alloc, words),
        EventVerb::Writes => read_writes(alloc, words),
    }
}

// A Move of each port, up to the asker.
fn read_moves(alloc: Global, words: &mut Words) -> Result<Vec<Event>, AllocError> {
    let mut events = Vec::new(alloc);
    for _ in 0..words.count() {
        if words.peek().starts_with("@") {
            break;
        }
        events.push(Event::Move(words.small_decimal("a port's number")))?;
    }
    Ok(events)
}

fn read_configs(alloc: Global, words: &mut Words) -> Result<Vec<Event>, AllocError> {
    let bytes = words.bytes(alloc)?;
    let mut events = Vec::new(alloc);
    for byte in &bytes {
        events.push(Event::Config(*byte))?;
    }
    Ok(events)
}

fn read_writes(alloc: Global, words: &mut Words) -> Result<Vec<Event>, AllocError> {
    let host = words.small_decimal("a host's number");
    let bytes = words.bytes(alloc)?;
    let mut events = Vec::new(alloc);
    for byte in &bytes {
        events.push(Event::Write(host, *byte))?;
    }
    Ok(events)
}

fn read_event(kind: EventKind, words: &mut Words) -> Event {
    match kind {
        EventKind::Step => Event::Step(words.small_decimal("a node's number")),
        EventKind::Move => Event::Move(words.small_decimal("a port's number")),
        EventKind::Config => Event::Config(words.byte(WordForm::TwoDigits)),
        EventKind::Write => Event::Write(
            words.small_decimal("a host's number"),
            words.byte(WordForm::TwoDigits),
        ),
        EventKind::Read => Event::Read(words.small_decimal("a host's number")),
        EventKind::Reset => Event::Reset(words.small_decimal("a node's number")),
        EventKind::Look => Event::Look(words.small_decimal("a node's number")),
    }
}
