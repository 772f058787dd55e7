//! The service on trial: users, workers and an operator, on one thread and in threads of their own. It prints a line for
//! each part below it that may be out of memory, one for each row, the same whatever the schedule, and then that of a short
//! soak, in which they do anything at the same time.
//!
//! `rows` prints only the parts and the rows. `soak ROUNDS SEED WORKERS [COMMANDS]` only soaks, and prints what it compared.
#![tactic(auto)]

mod actions;
mod chance;
mod comparison;
mod draws;
mod farm;
mod gates;
mod losses;
mod meeting;
mod parts;
mod plans;
mod refusals;
mod rows;
mod runs;
mod sized;
mod soak;
mod stages;
mod telling;
mod users;
mod watch;

use crate::farm::Ground;
use crate::rows::{ROWS, WorkedRow};
use crate::soak::{short_soak, soak};
use crate::stages::{Stage, StageOutcome, Trial, run};
use crate::telling::{OutcomeReport, tell_left, verdict};
use std::alloc::{AllocError, Global};
use std::sync::Wait;
use std::thread::Threads;
use std::{env, io};

// What a row tells.
fn report_of_row<R: Threads + Wait + Sync>(
    rt: &R,
    alloc: Global,
    ground: Ground,
    workers: u8,
    stages: &[Stage],
    left: OutcomeReport,
) -> Result<String, AllocError> {
    let trial = Trial {
        ground,
        workers,
        stages,
        seed: 1,
    };
    let StageOutcome {
        mut said,
        watch,
        closed,
        ..
    } = run(rt, alloc, trial)?;
    let Some(plan) = ground.plan(alloc) else {
        return Err(AllocError);
    };
    tell_left(alloc, &plan, &closed, &watch, left, &mut said)?;
    Ok(said)
}

// Prints a row's name and what it tells.
fn show(rt: &impl Print, name: &str, told: Result<String, AllocError>) -> io::Result<()> {
    match told {
        Ok(said) => {
            let said = said.as_str();
            println!(rt; "{name}:{said}")
        }
        Err(AllocError) => println!(rt; "{name}: no memory"),
    }
}

// A line for each part of a farm, and for a farm on one thread.
fn tell_parts(rt: &impl Print, alloc: Global) -> io::Result<()> {
    for (name, came) in [
        ("memory", parts::open_and_copy_memory(alloc)),
        ("node", parts::open_and_copy_node(alloc)),
        ("boot message", parts::make_boot_message(alloc)),
        ("host", parts::open_host(alloc)),
        ("switch", parts::feed_switch(alloc)),
        ("change count", parts::change_the_greatest_count()),
        ("farm", refusals::refuse_calls(alloc)),
        ("run", refusals::run_again(alloc)),
        ("settings", parts::read_settings(alloc)),
        ("full host", runs::fill_a_host(alloc)),
        ("runs elsewhere", runs::run_elsewhere(alloc)),
    ] {
        let told = verdict(came.is_ok());
        println!(rt; "{name}: {told}")?;
    }
    Ok(())
}

// A line for each row.
fn tell_rows<R: Threads + Wait + Sync + Print>(rt: &R, alloc: Global) -> io::Result<()> {
    tell_parts(rt, alloc)?;
    for row in &ROWS {
        let WorkedRow {
            name,
            ground,
            workers,
            stages,
            left,
        } = *row;
        show(
            rt,
            name,
            report_of_row(rt, alloc, ground, workers, stages, left),
        )?;
    }
    Ok(())
}

fn main(rt: HostRuntime) -> io::Result<()> {
    let alloc = rt.alloc();
    let words: Vec<String> = env::args(&rt)?.collect(alloc)?;
    match words.as_slice() {
        [_, work, rest @ ..] if work.as_str() == "soak" => soak(&rt, alloc, rest),
        [_, work] if work.as_str() == "rows" => tell_rows(&rt, alloc),
        _ => {
            tell_rows(&rt, alloc)?;
            short_soak(&rt, alloc)
        }
    }
}
