//! Rows of farms on one thread: a host that is full, and a domain that is answered alike wherever its ports lie.

use crate::parts::{Otherwise, holds, plan_again};
use crate::plans::TrialPlan;
use crate::rows::SAYS_41;
use bootstrap::{Activity, Seen};
use domain_core::{By, Event, Moved, Refusal, Reply};
use farm_core::{PlainFarm, run};
use std::alloc::{AllocError, Global};

/// The first user of a domain.
const USER: By = By::User(0);

/// The first domain, and one that no plan here has.
const FIRST: u8 = 0;

const SIXTH: u8 = 5;

/// How often node and packets have their turn. The boot message of nine bytes takes one round each, and so does each Step of
/// the program, and the packet to the host with its acknowledge.
const ROUNDS: u32 = 40;

// The answer to an event in the first domain, asked for again after a refusal.
fn asked_again(
    alloc: Global,
    farm: &mut PlainFarm,
    by: By,
    event: Event,
) -> Result<Reply, Otherwise> {
    let answer = match farm.apply(alloc, FIRST, by, event) {
        Err(Refusal::NoMemory) => farm.apply(alloc, FIRST, by, event),
        answer => answer,
    };
    answer.map_err(|_| Otherwise)
}

// The farm of two nodes and two hosts, in which host 0 sends to host 1, opened again after a refusal.
fn farm_of_hosts(alloc: Global) -> Result<PlainFarm, Otherwise> {
    let plan = plan_again(alloc, TrialPlan::TwoNodes)?;
    let farm = match PlainFarm::open(alloc, &plan) {
        Err(_) => PlainFarm::open(alloc, &plan),
        opened => opened,
    };
    let Ok(mut farm) = farm else {
        return Err(Otherwise);
    };
    for byte in [0x01, 0x02, 0x03, 0x03] {
        asked_again(alloc, &mut farm, USER, Event::Config(byte))?;
    }
    Ok(farm)
}

// What becomes of the packet at a port.
fn moved_again(alloc: Global, farm: &mut PlainFarm, port: u8) -> Result<Reply, Otherwise> {
    asked_again(alloc, farm, By::Farm, Event::Move(port))
}

/// Host 1 has room for 4,096 bytes. The next is acknowledged as soon as one is read.
pub fn fill_a_host(alloc: Global) -> Result<(), Otherwise> {
    let mut farm = farm_of_hosts(alloc)?;
    for byte in 1..=4097u32 {
        let written = asked_again(alloc, &mut farm, USER, Event::Write(0, 0x5a))?;
        holds(written == Reply::Written)?;
        let there = moved_again(alloc, &mut farm, 3)?;
        holds(there == Reply::Moved(Moved::Passed))?;
        let acknowledge = if byte <= 4096 {
            Moved::Passed
        } else {
            Moved::Nothing
        };
        let back = moved_again(alloc, &mut farm, 2)?;
        holds(back == Reply::Moved(acknowledge))?;
    }
    let read = asked_again(alloc, &mut farm, USER, Event::Read(1))?;
    holds(read == Reply::Read(Some(0x5a)))?;
    let back = moved_again(alloc, &mut farm, 2)?;
    holds(back == Reply::Moved(Moved::Passed))
}

// What ann asks, with the Steps and Moves between: she joins host and node, boots a program that sends 41, reads twice and looks
// at the node. The last is asked of a domain that isn't there.
fn calls_of_ann(alloc: Global) -> Result<Vec<(u8, By, Event)>, AllocError> {
    let mut calls = Vec::new(alloc);
    for byte in [0x01, 0x00, 0x07, 0x03] {
        calls.push((FIRST, USER, Event::Config(byte)))?;
    }
    for byte in SAYS_41 {
        calls.push((FIRST, USER, Event::Write(0, byte)))?;
    }
    for _round in 0..ROUNDS {
        calls.push((FIRST, By::Farm, Event::Step(0)))?;
        for port in 0..8u8 {
            calls.push((FIRST, By::Farm, Event::Move(port)))?;
        }
    }
    for event in [Event::Read(0), Event::Read(0), Event::Look(0)] {
        calls.push((FIRST, USER, event))?;
    }
    calls.push((SIXTH, USER, Event::Config(0x03)))?;
    Ok(calls)
}

// The answers of a run of a plan's farm, which is run again after a refusal.
fn answers_again(
    alloc: Global,
    plan: TrialPlan,
    calls: &[(u8, By, Event)],
) -> Result<Vec<Result<Reply, Refusal>>, Otherwise> {
    let plan = plan_again(alloc, plan)?;
    let answers = match run(alloc, &plan, calls) {
        Err(Refusal::NoMemory) => run(alloc, &plan, calls),
        answers => answers,
    };
    answers.map_err(|_| Otherwise)
}

/// Ann is answered alike beside bob, alone at other ports, and alone at two ranges of them. Her program sends 41 and stops.
pub fn run_elsewhere(alloc: Global) -> Result<(), Otherwise> {
    let calls = match calls_of_ann(alloc) {
        Err(AllocError) => calls_of_ann(alloc),
        made => made,
    };
    let Ok(calls) = calls else {
        return Err(Otherwise);
    };
    let beside_bob = answers_again(alloc, TrialPlan::AnnAndBob, calls.as_slice())?;
    let seen = Seen {
        state: Activity::Idle,
        overruns: [0; 4],
    };
    let last = [
        Ok(Reply::Read(Some(0x41))),
        Ok(Reply::Read(None)),
        Ok(Reply::Look(seen)),
        Err(Refusal::NoSuch),
    ];
    holds(beside_bob.len() == calls.len() && beside_bob.as_slice().ends_with(&last))?;
    for plan in [TrialPlan::AnnAtTheEnd, TrialPlan::AnnInTwoRanges] {
        let elsewhere = answers_again(alloc, plan, calls.as_slice())?;
        holds(elsewhere.as_slice() == beside_bob.as_slice())?;
    }
    Ok(())
}
