//! Works of the parts of the farm, so that their rates can be measured: `WORK [COUNT [NAME]]`, where WORK is one of
//!
//! - `step`: the processor's step through loops of instruction bytes;
//! - `node`: a node's bursts beside the step;
//! - `domain`: events through a domain, and Steps of tickets.
//!
//! COUNT is how many rounds, and NAME one of the work's names, which are listed at the head of its module; without NAME
//! all of them run. Without words there is a short run of every work, and `--help` prints these words.
#![tactic(auto)]

mod domain;
mod faults;
mod node;
mod processor;
mod selection;
mod step;

use crate::selection::Selection;
use std::alloc::Global;
use std::{env, io};

/// What is measured.
#[derive(Clone, Copy)]
enum Measurement {
    Step,
    Node,
    Domain,
}

const WORKS: [Measurement; 3] = [Measurement::Step, Measurement::Node, Measurement::Domain];

const USAGE: &str = "usage: bench [WORK [COUNT [NAME]]], where WORK is step, node or domain";

impl Measurement {
    // The work of this name.
    fn of(word: &str) -> Option<Measurement> {
        match word {
            "step" => Some(Measurement::Step),
            "node" => Some(Measurement::Node),
            "domain" => Some(Measurement::Domain),
            _ => None,
        }
    }

    // How many rounds a short run has.
    fn few(self) -> u64 {
        match self {
            Measurement::Step | Measurement::Node => 1000,
            Measurement::Domain => 100,
        }
    }

    // Does what is asked for, and prints what came of it.
    fn measure(self, rt: &impl Print, alloc: Global, selection: Selection<'_>) -> io::Result<()> {
        match self {
            Measurement::Step => step::measure(rt, alloc, selection),
            Measurement::Node => node::measure(rt, alloc, selection),
            Measurement::Domain => domain::measure(rt, alloc, selection),
        }
    }
}

// A short run of every work.
fn measure_all(rt: &impl Print, alloc: Global) -> io::Result<()> {
    for work in WORKS {
        let count = work.few();
        work.measure(rt, alloc, Selection { count, name: None })?;
    }
    Ok(())
}

fn main(rt: HostRuntime) -> io::Result<()> {
    let alloc = rt.alloc();
    let words: Vec<String> = env::args(&rt)?.collect(alloc)?;
    let Some(word) = words.get(1) else {
        return measure_all(&rt, alloc);
    };
    if word.as_str() == "--help" {
        return println!(rt; "{USAGE}");
    }
    let Some(work) = Measurement::of(word.as_str()) else {
        return Err(io::Error::from(io::ErrorKind::InvalidInput));
    };
    let count = words
        .get(2)
        .and_then(|word| word.parse::<u64>().ok())
        .unwrap_or(work.few());
    let name = words.get(3).map(|word| word.as_str());
    work.measure(&rt, alloc, Selection { count, name })
}
