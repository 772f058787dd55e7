//! A farm in a program of one's own: on one thread, and beside a neighbour. Ann's node sends a byte, and both print it. docs/guides/EMBEDDING.md explains the program, and shows parts of it.
//!
//! What it must print follows from the instruction handbook. `PROGRAM` is: `b5` ajw 5, so that the workspace lies above the
//! code; `24 f2` mint, so that A is 80000000, the address of link 0's output channel; `24 41` ldc 41 hexadecimal, so that A is
//! 41 and B is 80000000; `fe` outbyte, which sends the byte in A by the channel in B; `21 f5` stopp, and no process is left.
//! Link 0 is joined with ann's host, so the host receives 41 and nothing else.
#![tactic(auto)]

mod alone;
mod one_thread;

use crate::alone::answers_of;
use crate::one_thread::{FarmCall, ask_on_one_thread};
use domain_core::{By, Event, NoMemory, Refusal, Reply};
use plan_checker::accept_plan;
use std::alloc::Global;
use std::io;

/// Ann has ports 0 to 7 and bob ports 8 to 15. Each has a node whose link 0 is at port 0, and a host at port 7, as they
/// count their ports.
const PLAN: &str = "
version = 1

[[domain]]
name = 'ann'
first = 0
last = 7
limit = 1000000
host = [7]
node = [{ memory = 4096, links = [0, -1, -1, -1] }]

[[domain]]
name = 'bob'
first = 8
last = 15
limit = 1000000
host = [7]
node = [{ memory = 4096, links = [0, -1, -1, -1] }]
";

/// The number of ann's domain in the plan.
const ANN: u8 = 0;

/// The number of bob's.
const BOB: u8 = 1;

/// What ann sends before she reads: ports 0 and 7 are joined and made ready, and the node boots from the eight bytes of the program.
const ASKED: [Event; 13] = [
    Event::Config(1),
    Event::Config(0),
    Event::Config(7),
    Event::Config(3),
    Event::Write(0, 8),
    Event::Write(0, 0xb5),
    Event::Write(0, 0x24),
    Event::Write(0, 0xf2),
    Event::Write(0, 0x24),
    Event::Write(0, 0x41),
    Event::Write(0, 0xfe),
    Event::Write(0, 0x21),
    Event::Write(0, 0xf5),
];

// The same calls, with one of bob's after each: it disconnects all outputs of bob's domain.
fn beside_bob(alloc: Global, calls: &[FarmCall]) -> Result<Vec<FarmCall>, NoMemory> {
    let mut both = Vec::new(alloc);
    for call in calls {
        both.push(*call)?;
        both.push((BOB, By::User(0), Event::Config(4)))?;
    }
    Ok(both)
}

// Prints the byte that was read last, as two digits.
fn show(rt: &impl Print, name: &str, last: Option<Reply>) -> io::Result<()> {
    match last {
        Some(Reply::Read(Some(byte))) => println!(rt; "{name}: {byte:02x}"),
        _ => println!(rt; "{name}: nothing came"),
    }
}

// Asks the same in two ways, and prints what came.
fn show_all(rt: &impl Print, alloc: Global) -> io::Result<()> {
    let plan = match accept_plan(alloc, PLAN.as_bytes()) {
        Ok(plan) => plan,
        Err(fault) => return println!(rt; "the plan is refused: {fault}"),
    };
    let asked = match ask_on_one_thread(alloc, &plan) {
        Ok(asked) => asked,
        Err(refusal) => return println!(rt; "on one thread: {refusal}"),
    };
    show(rt, "on one thread", asked.replies.last().copied())?;
    let both = beside_bob(alloc, asked.calls.as_slice())?;
    match answers_of(alloc, &plan, both.as_slice(), ANN) {
        Ok(answers) => {
            let last = answers.last().copied();
            show(rt, "beside bob", last.and_then(|answer| answer.ok()))
        }
        Err(refusal) => println!(rt; "beside bob: {refusal}"),
    }
}

fn main(rt: HostRuntime) -> io::Result<()> {
    let alloc = rt.alloc();
    show_all(&rt, alloc)
}
