//! A farm on one thread out of memory: a refused call changes nothing, and the next does what the first would have done.

use crate::parts::{Otherwise, holds, plan_again};
use crate::plans::TrialPlan;
use bootstrap::Stepped;
use domain_core::{By, Committed, Entry, Event, Refusal, Reply, Ticket};
use farm_core::{PlainFarm, run};
use std::alloc::Global;
use virtual_switch::ConfigReply;

/// The domains of the plan.
const ANN: u8 = 0;

const BOB: u8 = 1;

/// Joins ann's node to her host.
const JOINED: [Event; 4] = [
    Event::Config(1),
    Event::Config(0),
    Event::Config(7),
    Event::Config(3),
];

/// Writes a loop of two instruction bytes to ann's host.
const WRITTEN: [Event; 3] = [
    Event::Write(0, 0x02),
    Event::Write(0, 0x60),
    Event::Write(0, 0x0e),
];

/// Connects bob's input 2 to bob's output 5, makes that ready, and asks what drives it.
const ENQUIRED: [Event; 6] = [
    Event::Config(0),
    Event::Config(2),
    Event::Config(5),
    Event::Config(3),
    Event::Config(2),
    Event::Config(5),
];

/// Connects ann's input 0 to ann's output 1, and asks what drives output 0.
const CALLS: [(u8, By, Event); 6] = [
    (ANN, USER, Event::Config(1)),
    (ANN, USER, Event::Config(0)),
    (ANN, USER, Event::Config(1)),
    (ANN, USER, Event::Config(3)),
    (ANN, USER, Event::Config(2)),
    (ANN, USER, Event::Config(0)),
];

/// The user of a domain that has one.
const USER: By = By::User(0);

/// What is seen of ann's domain without an event.
#[derive(Drop, PartialEq, Eq)]
struct Sight {
    recorded: Option<u64>,
    entries: usize,
    last: Option<Entry>,
    words: [Option<u64>; 8],
    quiet: bool,
}

// An entry of a domain's journal.
fn entry(farm: &PlainFarm, domain: u8, index: usize) -> Option<Entry> {
    farm.journal(domain)?.get(index)
}

fn sight_of(farm: &mut PlainFarm) -> Sight {
    let mut words = [None; 8];
    for output in 0..8u8 {
        words[usize::from(output)] = farm.domain_word(ANN, output).map(|word| word.bits);
    }
    let quiet = farm.domains() > 0 && farm.quiet(ANN);
    let entries = match farm.journal(ANN) {
        Some(journal) => journal.len(),
        None => 0,
    };
    Sight {
        recorded: farm.recorded_events(ANN),
        entries,
        last: entry(farm, ANN, entries.wrapping_sub(1)),
        words,
        quiet,
    }
}

// The farm of ann and bob, opened again after a refusal.
fn opened_again(alloc: Global) -> Result<PlainFarm, Otherwise> {
    let plan = plan_again(alloc, TrialPlan::AnnAndBob)?;
    let farm = match PlainFarm::open(alloc, &plan) {
        Err(_) => PlainFarm::open(alloc, &plan),
        opened => opened,
    };
    match farm {
        Ok(farm) => Ok(farm),
        Err(_) => Err(Otherwise),
    }
}

// The answer to an event, asked for again after a refusal.
fn asked_again(
    alloc: Global,
    farm: &mut PlainFarm,
    domain: u8,
    by: By,
    event: Event,
) -> Result<Reply, Otherwise> {
    let before = sight_of(farm);
    let answer = match farm.apply(alloc, domain, by, event) {
        Err(Refusal::NoMemory) => {
            holds(sight_of(farm) == before)?;
            farm.apply(alloc, domain, by, event)
        }
        answer => answer,
    };
    match answer {
        Ok(reply) => Ok(reply),
        Err(_) => Err(Otherwise),
    }
}

// A ticket of ann's node, asked for again after a refusal.
fn checked_out_again(alloc: Global, farm: &mut PlainFarm) -> Result<Ticket, Otherwise> {
    let before = sight_of(farm);
    let answer = match farm.checkout(alloc, ANN, 0) {
        Err(Refusal::NoMemory) => {
            holds(sight_of(farm) == before)?;
            farm.checkout(alloc, ANN, 0)
        }
        answer => answer,
    };
    match answer {
        Ok(ticket) => Ok(ticket),
        Err(_) => Err(Otherwise),
    }
}

// What became of a ticket of ann's node that does 100 Steps and is committed.
fn commit_of_ticket(
    alloc: Global,
    farm: &mut PlainFarm,
) -> Result<Result<Committed, Refusal>, Otherwise> {
    let mut ticket = checked_out_again(alloc, farm)?;
    ticket.burst(100);
    Ok(farm.commit(alloc, ANN, ticket))
}

// A ticket comes home. If memory is refused then, the ticket is spent, and another does the Steps.
fn come_home_again(alloc: Global, farm: &mut PlainFarm) -> Result<(), Otherwise> {
    let before = sight_of(farm);
    let told = match commit_of_ticket(alloc, farm)? {
        Err(Refusal::NoMemory) => {
            holds(sight_of(farm) == before)?;
            commit_of_ticket(alloc, farm)?
        }
        told => told,
    };
    holds(told == Ok(Committed::Done))
}

// Asks for events of one user one after another, and gives the last answer.
fn send_again(
    alloc: Global,
    farm: &mut PlainFarm,
    domain: u8,
    events: &[Event],
) -> Result<Reply, Otherwise> {
    let mut last = Reply::Written;
    for event in events {
        last = asked_again(alloc, farm, domain, USER, *event)?;
    }
    Ok(last)
}

// Boots ann's node with a loop: 16 events of hers, and as many entries.
fn boot_again(alloc: Global, farm: &mut PlainFarm) -> Result<(), Otherwise> {
    send_again(alloc, farm, ANN, &JOINED)?;
    holds(send_again(alloc, farm, ANN, &WRITTEN)? == Reply::Written)?;
    for _ in 0..3u32 {
        for event in [Event::Move(7), Event::Step(0), Event::Move(0)] {
            asked_again(alloc, farm, ANN, By::Farm, event)?;
        }
    }
    Ok(())
}

// A farm in which ann's node runs a loop. Bob's input 2 is connected to bob's output 5, which is made ready and enquired.
fn loaded_again(alloc: Global) -> Result<PlainFarm, Otherwise> {
    let mut farm = opened_again(alloc)?;
    boot_again(alloc, &mut farm)?;
    let enquired = send_again(alloc, &mut farm, BOB, &ENQUIRED)?;
    holds(enquired == Reply::Config(ConfigReply::Answer(0x82)))?;
    Ok(farm)
}

// A farm in which that node did 100 Steps more: one entry in ann's journal.
fn stepped_again(alloc: Global) -> Result<(PlainFarm, Sight), Otherwise> {
    let mut farm = loaded_again(alloc)?;
    holds(sight_of(&mut farm).entries == 16)?;
    come_home_again(alloc, &mut farm)?;
    let seen = sight_of(&mut farm);
    Ok((farm, seen))
}

// Whether this is seen after the 100 Steps.
fn is_stepped(seen: &Sight) -> bool {
    let run = Entry::Run {
        by: By::Farm,
        node: 0,
        count: 100,
        last: Stepped::Ran,
    };
    seen.entries == 17 && seen.recorded == Some(116) && seen.last == Some(run)
}

// Whether both journals of two farms have the same entries.
fn are_journals_alike(farm: &PlainFarm, other: &PlainFarm) -> bool {
    for domain in [ANN, BOB] {
        for index in 0..18usize {
            if entry(farm, domain, index) != entry(other, domain, index) {
                return false;
            }
        }
    }
    true
}

// Goes on if another farm, which refuses no call, comes to the same.
fn compare(alloc: Global, farm: &PlainFarm, seen: &Sight) -> Result<(), Otherwise> {
    let (other, told) = stepped_again(alloc)?;
    holds(told == *seen && are_journals_alike(farm, &other))
}

// Goes on if the journals that are handed out at the end are those that were shown.
fn hand_out(farm: PlainFarm) -> Result<(), Otherwise> {
    for domain in farm.into_domains() {
        let shown = domain.journal().len();
        let is_so = (shown == 17 || shown == 6) && domain.into_journal().len() == shown;
        holds(is_so)?;
    }
    Ok(())
}

/// The journal grows at the first, fifth, ninth and seventeenth entry; the last of these comes with the commit. Only one of two
/// farms meets the refusal.
pub fn refuse_calls(alloc: Global) -> Result<(), Otherwise> {
    let (mut farm, seen) = stepped_again(alloc)?;
    holds(is_stepped(&seen) && farm.word(13).bits == 0x2ca)?;
    compare(alloc, &farm, &seen)?;
    hand_out(farm)
}

/// A run of a whole farm that met a refusal is done again.
pub fn run_again(alloc: Global) -> Result<(), Otherwise> {
    let plan = plan_again(alloc, TrialPlan::AnnAndBob)?;
    let told = match run(alloc, &plan, &CALLS) {
        Err(Refusal::NoMemory) => run(alloc, &plan, &CALLS),
        told => told,
    };
    let Ok(told) = told else {
        return Err(Otherwise);
    };
    let enquired = Some(Ok(Reply::Config(ConfigReply::Answer(0x81))));
    holds(told.as_slice().last().copied() == enquired && told.len() == 6)
}
