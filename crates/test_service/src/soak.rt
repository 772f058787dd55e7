//! Users, workers and an operator who do anything at the same time, and what they left done again on one thread.

use crate::actions::Action::{self, Config, Read, Write};
use crate::actions::SETTLE;
use crate::comparison::is_alike;
use crate::farm::Ground;
use crate::gates::Hold;
use crate::losses::LOSSES;
use crate::rows::SAYS_41;
use crate::sized::Size;
use crate::stages::{Stage, StageOutcome, Trial, run as run_trial};
use crate::users::Doing;
use domain_core::Entry;
use farm_service::Closed;
use std::alloc::{AllocError, Global};
use std::io;
use std::sync::Wait;
use std::thread::Threads;

/// What a user does first in a domain of one node, of four, or of seven: the user boots node 0 with a program that sends 41,
/// and reads it. So the domain's journal begins with Steps and bytes, and none of them can be lost unnoticed.
const BESIDE_1: [Action; 4] = [
    Config(&[1, 0, 1, 3]),
    Write(0, &SAYS_41),
    SETTLE,
    Read(0, 2),
];

const BESIDE_4: [Action; 4] = [
    Config(&[1, 0, 4, 3]),
    Write(0, &SAYS_41),
    SETTLE,
    Read(0, 2),
];

const BESIDE_7: [Action; 4] = [
    Config(&[1, 0, 7, 3]),
    Write(0, &SAYS_41),
    SETTLE,
    Read(0, 2),
];

/// 16 domains; 28 nodes; 16 users in 4 domains; 16 users in 4 domains whose journals are soon full. After each comes what
/// the first user of the first domain does first.
const SIZES: [(Size, &[&[Action]]); 4] = [
    (
        Size {
            domains: 16,
            nodes: 1,
            users: 1,
            limit: 1 << 40,
        },
        &[&BESIDE_1],
    ),
    (
        Size {
            domains: 4,
            nodes: 7,
            users: 1,
            limit: 1 << 40,
        },
        &[&BESIDE_7],
    ),
    (
        Size {
            domains: 4,
            nodes: 4,
            users: 4,
            limit: 1 << 40,
        },
        &[&BESIDE_4],
    ),
    (
        Size {
            domains: 4,
            nodes: 4,
            users: 4,
            limit: 20_000,
        },
        &[&BESIDE_4],
    ),
];

// The number that a word of the command line spells, or else this one.
fn number(words: &[String], place: usize, usual: u64) -> u64 {
    words
        .get(place)
        .and_then(|word| word.parse::<u64>().ok())
        .unwrap_or(usual)
}

// How many rounds, the seed of the first, and what each of them has.
#[derive(Clone, Copy)]
struct Rounds {
    count: u64,
    seed: u64,
    workers: u8,
    // For each user.
    commands: u64,
}

// How many events and words are compared.
fn compared_counts(closed: &Closed) -> (u64, u64) {
    let (mut events, mut words) = (0_u64, 0_u64);
    for domain in closed.domains.iter() {
        for index in 0..domain.journal.len() {
            let count = match domain.journal.get(index) {
                Some(Entry::Run { count, .. }) => count,
                _ => 1,
            };
            events = events.saturating_add(count);
        }
        words = words.saturating_add(domain.words.len() as u64);
    }
    (events, words)
}

// How much of what is left isn't what the farm on one thread comes to. Losses that are planted and not noticed are wrong, too.
fn wrong_of(
    alloc: Global,
    size: Size,
    seed: u64,
    ended: &StageOutcome,
    plants: bool,
) -> Result<u64, AllocError> {
    let Some(plan) = Ground::Sized(size).plan(alloc) else {
        return Err(AllocError);
    };
    let StageOutcome { watch, closed, .. } = ended;
    let mut wrong = watch.wrong;
    if !is_alike(alloc, &plan, closed, watch, seed)? {
        wrong = wrong.saturating_add(1);
    }
    if plants {
        for loss in LOSSES {
            if !loss.is_noticed(alloc, &plan, closed, watch)? {
                wrong = wrong.saturating_add(1);
            }
        }
    }
    Ok(wrong)
}

// A service of a size: users ask for anything while workers work and the operator surveys.
fn soak_service<R: Threads + Wait + Sync>(
    rt: &R,
    alloc: Global,
    size: Size,
    first: &'static [&'static [Action]],
    rounds: Rounds,
    seed: u64,
) -> Result<StageOutcome, AllocError> {
    let doing = Doing::Anything(size, rounds.commands);
    let trial = Trial {
        ground: Ground::Sized(size),
        workers: rounds.workers,
        stages: &[Stage::AtOnce(first), Stage::Meet(doing, Hold::EachThird)],
        seed,
    };
    run_trial(rt, alloc, trial)
}

// What was compared of a service, and how much was wrong.
#[derive(Clone, Copy)]
struct SoakCounts {
    wrong: u64,
    answered: u64,
    changes: u64,
    events: u64,
    words: u64,
}

// A service of a size whose rounds end, and what it left compared.
fn compare_services<R: Threads + Wait + Sync>(
    rt: &R,
    alloc: Global,
    (size, first): (Size, &'static [&'static [Action]]),
    rounds: Rounds,
    seed: u64,
    plants: bool,
) -> Result<SoakCounts, AllocError> {
    let ended = soak_service(rt, alloc, size, first, rounds, seed)?;
    let (events, words) = compared_counts(&ended.closed);
    Ok(SoakCounts {
        wrong: wrong_of(alloc, size, seed, &ended, plants)?,
        answered: ended.answered,
        changes: ended.watch.changes(),
        events,
        words,
    })
}

// Runs the rounds, which each open a service of each size, and prints what was compared if `is_told`. Returns how much was
// wrong. In the first round losses are planted.
fn run<R: Threads + Wait + Sync + Print>(
    rt: &R,
    alloc: Global,
    rounds: Rounds,
    is_told: bool,
) -> io::Result<u64> {
    let mut wrong = 0_u64;
    for count in 0..rounds.count {
        let seed = rounds.seed.wrapping_add(count);
        for sized in SIZES {
            let Ok(counts) = compare_services(rt, alloc, sized, rounds, seed, count == 0) else {
                return Err(io::Error::from(io::ErrorKind::OutOfMemory));
            };
            wrong = wrong.saturating_add(counts.wrong);
            if is_told {
                let SoakCounts {
                    answered,
                    changes,
                    events,
                    words,
                    ..
                } = counts;
                println!(rt;
                    "{answered} commands, {changes} changes, {events} events, {words} words"
                )?;
            }
        }
    }
    Ok(wrong)
}

/// Rounds as the words after `soak` say: `ROUNDS SEED WORKERS [COMMANDS]`. What was compared is printed, and how much was
/// wrong.
pub fn soak<R: Threads + Wait + Sync + Print>(
    rt: &R,
    alloc: Global,
    words: &[String],
) -> io::Result<()> {
    let rounds = Rounds {
        count: number(words, 0, 1),
        seed: number(words, 1, 1),
        workers: number(words, 2, 8).clamp(1, 8) as u8,
        commands: number(words, 3, 60),
    };
    let wrong = run(rt, alloc, rounds, true)?;
    println!(rt; "{wrong} wrong")
}

/// One short round by 8 workers. Only how much was wrong is printed, since the rest depends on the schedule.
pub fn short_soak<R: Threads + Wait + Sync + Print>(rt: &R, alloc: Global) -> io::Result<()> {
    let rounds = Rounds {
        count: 1,
        seed: 1,
        workers: 8,
        commands: 60,
    };
    let wrong = run(rt, alloc, rounds, false)?;
    println!(rt; "soak: {wrong} wrong")
}
