//! Events through a domain, and Steps of tickets, by these names:
//!
//! - `steps`: Steps of a node that runs a loop of two instruction bytes;
//! - `pings`: a byte from host to host, and its acknowledge back: a Write, two Moves and a Read each;
//! - `configs`: three configuration bytes that connect an output, and two that enquire it;
//! - `checkouts-2048`, `checkouts-65536`: tickets of a node with that many bytes of memory, dropped immediately;
//! - `turns-2048`, `turns-65536`: such tickets that do 256 Steps and are committed;
//! - `checkouts-used`, `turns-used`: the same with 65,536 bytes, where the last word was written too.

use crate::faults::{error_of_fault, error_of_refusal};
use crate::selection::Selection;
use crossbar::{Outputs, PlainOutputs};
use domain_core::{By, Committed, Domain, Event, Moved, Refusal, Reply};
use plan_rules::{DomainPlan, NodePlan, Plan, PlanFault, RangePlan, UserPlan, check};
use std::alloc::{AllocError, Global};
use std::io;
use t414_step::Stepped;
use virtual_switch::ConfigReply;

/// Each host is joined to the node of its number.
const NODES_JOINED: [u8; 7] = [1, 0, 3, 1, 1, 2, 3];

/// The hosts are joined to each other.
const HOSTS_JOINED: [u8; 4] = [1, 2, 3, 3];

/// The boot message of a loop of two instruction bytes, with room where the process saves its place.
const LOOP: [u8; 7] = [0x06, 0x60, 0x0e, 0, 0, 0, 0];

/// The poke of the last word of 65,536 bytes, which lies outside a smaller memory.
const LAST_WORD_POKED: [u8; 9] = [0, 0xfc, 0xff, 0, 0x80, 1, 2, 3, 4];

/// A ticket's Steps.
const QUANTUM: u64 = 256;

/// How many pings or rounds of configuration bytes a journal holds before it is emptied.
const ROUNDS: u64 = 200_000;

const ANN: By = By::User(0);

/// What is measured.
#[derive(Clone, Copy)]
enum TimedWork {
    Pings,
    Configs,
    Steps,
    /// Of a node.
    Checkouts(u8),
    Turns(u8),
    /// Of node 1, whose last word was written.
    CheckoutsUsed,
    TurnsUsed,
}

/// All of it, by name.
const WORKS: [(&str, TimedWork); 9] = [
    ("pings", TimedWork::Pings),
    ("configs", TimedWork::Configs),
    ("steps", TimedWork::Steps),
    ("checkouts-2048", TimedWork::Checkouts(0)),
    ("turns-2048", TimedWork::Turns(0)),
    ("checkouts-65536", TimedWork::Checkouts(1)),
    ("turns-65536", TimedWork::Turns(1)),
    ("checkouts-used", TimedWork::CheckoutsUsed),
    ("turns-used", TimedWork::TurnsUsed),
];

type Plain = Domain<PlainOutputs>;

// A node with its link 0 at a port.
fn node_at(port: i64, memory: i64) -> NodePlan {
    NodePlan {
        memory,
        links: [port, -1, -1, -1],
    }
}

// Ann, whose hosts are at ports 3 and 2.
fn ann(alloc: Global) -> Result<UserPlan, AllocError> {
    Ok(UserPlan {
        name: String::from_str(alloc, "ann")?,
        hosts: vec![in alloc; 3, 2]?,
    })
}

// One domain of ports 0 to 7. Node 0 has the least memory and node 1 the most.
fn ann_with_two_nodes(alloc: Global) -> Result<DomainPlan, AllocError> {
    Ok(DomainPlan {
        users: vec![in alloc; ann(alloc)?]?,
        ranges: vec![in alloc; RangePlan { first: 0, last: 7 }]?,
        limit: 1_i64 << 40,
        nodes: vec![in alloc; node_at(0, 2048), node_at(1, 65_536)]?,
    })
}

// The domain of the plan, as it is opened.
fn open_domain(alloc: Global) -> Result<Plain, PlanFault> {
    let domains = vec![in alloc; ann_with_two_nodes(alloc)?]?;
    let plan = check(alloc, Plan { domains })?;
    if plan.domains() == 0 {
        return Err(PlanFault::DomainCount);
    }
    let part = plan.part(0).copy(alloc)?;
    let outputs = PlainOutputs::new(plan.ranges(0));
    if outputs.count() != part.count() {
        return Err(PlanFault::DomainCount);
    }
    Ok(Domain::open(alloc, part, outputs)?)
}

// Restarts the domain, and sends its switch the bytes.
fn begin(alloc: Global, domain: &mut Plain, bytes: &[u8]) -> Result<(), Refusal> {
    domain.restart();
    for byte in bytes {
        domain.apply(alloc, ANN, Event::Config(*byte))?;
    }
    Ok(())
}

// Restarts the domain, and sends both nodes the bytes, each by its own host.
fn load(alloc: Global, domain: &mut Plain, bytes: &[u8]) -> Result<(), Refusal> {
    begin(alloc, domain, &NODES_JOINED)?;
    send(alloc, domain, bytes)
}

// Sends both nodes the bytes, each by its own host.
fn send(alloc: Global, domain: &mut Plain, bytes: &[u8]) -> Result<(), Refusal> {
    for byte in bytes {
        domain.apply(alloc, ANN, Event::Write(0, *byte))?;
        domain.apply(alloc, ANN, Event::Write(1, *byte))?;
        for port in [3, 2] {
            domain.apply(alloc, By::Farm, Event::Move(port))?;
        }
        for node in 0..2 {
            domain.apply(alloc, By::Farm, Event::Step(node))?;
        }
        for port in 0..2 {
            domain.apply(alloc, By::Farm, Event::Move(port))?;
        }
    }
    Ok(())
}

// Restarts the domain, writes node 1's last word, and lets both nodes loop.
fn load_used(alloc: Global, domain: &mut Plain) -> Result<(), Refusal> {
    load(alloc, domain, &LAST_WORD_POKED)?;
    send(alloc, domain, &LOOP)
}

// Steps node 0 until a Step doesn't run, at most `count` times; returns how many ran.
fn steps(alloc: Global, domain: &mut Plain, count: u64) -> u64 {
    for done in 0..count {
        let answer = domain.apply(alloc, By::Farm, Event::Step(0));
        if !matches!(answer, Ok(Reply::Stepped(Stepped::Ran))) {
            return done;
        }
    }
    count
}

// Moves the packet that waits at a port; whether it passed.
fn passes(alloc: Global, domain: &mut Plain, port: u8) -> bool {
    let answer = domain.apply(alloc, By::Farm, Event::Move(port));
    matches!(answer, Ok(Reply::Moved(Moved::Passed)))
}

// Sends a byte from host 0 to host 1, and its acknowledge back; whether it came.
fn ping(alloc: Global, domain: &mut Plain, byte: u8) -> bool {
    let written = domain.apply(alloc, ANN, Event::Write(0, byte));
    if !matches!(written, Ok(Reply::Written))
        || !passes(alloc, domain, 3)
        || !passes(alloc, domain, 2)
    {
        return false;
    }
    let read = domain.apply(alloc, ANN, Event::Read(1));
    matches!(read, Ok(Reply::Read(Some(came))) if came == byte)
}

// Pings until a byte doesn't come, at most `count` times; returns how many came.
fn pings(alloc: Global, domain: &mut Plain, count: u64) -> Result<u64, Refusal> {
    for done in 0..count {
        if done % ROUNDS == 0 {
            begin(alloc, domain, &HOSTS_JOINED)?;
        }
        if !ping(alloc, domain, (done % 256) as u8) {
            return Ok(done);
        }
    }
    Ok(count)
}

// Connects input 2 to output 5, and enquires it; whether that is answered.
fn is_connected(alloc: Global, domain: &mut Plain) -> bool {
    for byte in [0, 2, 5, 2] {
        let answer = domain.apply(alloc, ANN, Event::Config(byte));
        if !matches!(answer, Ok(Reply::Config(ConfigReply::Nothing))) {
            return false;
        }
    }
    let answer = domain.apply(alloc, ANN, Event::Config(5));
    matches!(answer, Ok(Reply::Config(ConfigReply::Answer(0x82))))
}

// At most `count` rounds of five configuration bytes; returns how many were answered.
fn configs(alloc: Global, domain: &mut Plain, count: u64) -> Result<u64, Refusal> {
    for done in 0..count {
        if done % ROUNDS == 0 {
            begin(alloc, domain, &[])?;
        }
        if !is_connected(alloc, domain) {
            return Ok(done);
        }
    }
    Ok(count)
}

// Tickets of a node, each dropped immediately.
fn checkouts(alloc: Global, domain: &Plain, node: u8, count: u64) -> Result<u64, Refusal> {
    for done in 0..count {
        let ticket = domain.checkout(alloc, 0, node)?;
        if ticket.number() != node {
            return Ok(done);
        }
    }
    Ok(count)
}

// Tickets of a node that do Steps and are committed, until one doesn't do them all; how many did.
fn turns(alloc: Global, domain: &mut Plain, node: u8, count: u64) -> Result<u64, Refusal> {
    for done in 0..count {
        let mut ticket = domain.checkout(alloc, 0, node)?;
        ticket.burst(QUANTUM);
        if ticket.steps() != QUANTUM {
            return Ok(done);
        }
        if domain.commit(alloc, ticket)? != Committed::Done {
            return Ok(done);
        }
    }
    Ok(count)
}

// Does `count` rounds of a work, in a domain that is restarted for it; returns how many were done.
fn do_work(alloc: Global, domain: &mut Plain, work: TimedWork, count: u64) -> Result<u64, Refusal> {
    match work {
        TimedWork::Pings => pings(alloc, domain, count),
        TimedWork::Configs => configs(alloc, domain, count),
        TimedWork::Steps => {
            load(alloc, domain, &LOOP)?;
            Ok(steps(alloc, domain, count))
        }
        TimedWork::Checkouts(node) => {
            load(alloc, domain, &LOOP)?;
            checkouts(alloc, domain, node, count)
        }
        TimedWork::Turns(node) => {
            load(alloc, domain, &LOOP)?;
            turns(alloc, domain, node, count)
        }
        TimedWork::CheckoutsUsed => {
            load_used(alloc, domain)?;
            checkouts(alloc, domain, 1, count)
        }
        TimedWork::TurnsUsed => {
            load_used(alloc, domain)?;
            turns(alloc, domain, 1, count)
        }
    }
}

// The same, with the name of the work and how many rounds were done.
fn print_done(
    rt: &impl Print,
    alloc: Global,
    domain: &mut Plain,
    name: &str,
    work: TimedWork,
    count: u64,
) -> io::Result<()> {
    let done = do_work(alloc, domain, work, count).map_err(error_of_refusal)?;
    println!(rt; "{name}: {done}")
}

// Does COUNT rounds of each of those that are asked for, on this domain.
fn measure_on(
    rt: &impl Print,
    alloc: Global,
    domain: &mut Plain,
    selection: Selection<'_>,
) -> io::Result<()> {
    for (name, work) in WORKS {
        if selection.runs(name) {
            print_done(rt, alloc, domain, name, work, selection.count)?;
        }
    }
    Ok(())
}

/// Does COUNT rounds of each of those that are asked for.
pub fn measure(rt: &impl Print, alloc: Global, selection: Selection<'_>) -> io::Result<()> {
    let mut domain = open_domain(alloc).map_err(error_of_fault)?;
    measure_on(rt, alloc, &mut domain, selection)
}
