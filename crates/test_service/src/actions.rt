//! What users do in a session, and what is written of its answers. A user who is answered NoMemory asks once more.

use bootstrap::{Activity, Seen};
use domain_core::{Event, Refusal, Reply};
use farm_service::{Session, Settled};
use std::alloc::{AllocError, Global};
use std::sync::Wait;
use virtual_switch::ConfigReply;

/// How many Steps of a node a round or a turn has at most.
pub const QUANTUM: u64 = 256;

/// What a user does.
#[derive(Clone, Copy)]
pub enum Action {
    /// Sends configuration bytes.
    Config(&'static [u8]),
    /// Writes bytes to a host.
    Write(u8, &'static [u8]),
    /// Reads a host this number of times.
    Read(u8, usize),
    /// Looks at a node.
    Look(u8),
    /// Settles: how many Steps each node does in a round, and how many rounds there are at most.
    Rounds(u64, u64),
}

/// Settles.
pub const SETTLE: Action = Action::Rounds(QUANTUM, 10_000);

impl Action {
    // What is asked in this place, `None` after the last.
    fn event(self, place: usize) -> Option<Event> {
        match self {
            Action::Config(bytes) => Some(Event::Config(*bytes.get(place)?)),
            Action::Write(host, bytes) => Some(Event::Write(host, *bytes.get(place)?)),
            Action::Read(host, count) if place < count => Some(Event::Read(host)),
            Action::Look(node) if place == 0 => Some(Event::Look(node)),
            _ => None,
        }
    }
}

// Tells what is seen of a node: its state, and the overruns of each link.
fn tell_seen(said: &mut String, seen: Seen) -> Result<(), AllocError> {
    match seen.state {
        Activity::Booting => said.push_str(" booting")?,
        Activity::Running => said.push_str(" running")?,
        Activity::Idle => said.push_str(" idle")?,
        Activity::Halted(_) => said.push_str(" halted")?,
    }
    for overruns in seen.overruns {
        write!(said, " {overruns}")?;
    }
    Ok(())
}

// Tells what a command was answered, where that says more than that it was done.
fn tell(said: &mut String, told: Result<Reply, Refusal>) -> Result<(), AllocError> {
    match told {
        Ok(Reply::Config(ConfigReply::Answer(byte)) | Reply::Read(Some(byte))) => {
            write!(said, " {byte:02x}")
        }
        Ok(Reply::Config(ConfigReply::BadCommand | ConfigReply::BadPort)) => said.push_str(" bad"),
        Ok(Reply::Read(None)) => said.push_str(" none"),
        Ok(Reply::Full) => said.push_str(" full"),
        Ok(Reply::Look(seen)) => tell_seen(said, seen),
        Ok(_) => Ok(()),
        Err(refusal) => write!(said, " {refusal}"),
    }
}

// Asks once.
fn ask_once<R: Wait>(
    rt: &R,
    alloc: Global,
    session: &mut Session<'_>,
    event: Event,
) -> Result<Reply, Refusal> {
    match event {
        Event::Config(byte) => session.configure(rt, alloc, byte),
        Event::Write(host, byte) => session.write(rt, alloc, host, byte),
        Event::Read(host) => session.read(rt, alloc, host),
        Event::Reset(node) => session.reset(rt, alloc, node),
        Event::Look(node) => session.look(rt, alloc, node),
        Event::Step(_) | Event::Move(_) => Err(Refusal::NoSuch),
    }
}

/// Asks, and asks again if there was no memory: what was refused has changed nothing.
pub fn ask<R: Wait>(
    rt: &R,
    alloc: Global,
    session: &mut Session<'_>,
    event: Event,
) -> Result<Reply, Refusal> {
    match ask_once(rt, alloc, session, event) {
        Err(Refusal::NoMemory) => ask_once(rt, alloc, session, event),
        told => told,
    }
}

/// Settles, and settles again if there was no memory, by 1 to 4,096 Steps.
pub fn settle<R: Wait>(
    rt: &R,
    alloc: Global,
    session: &Session<'_>,
    quantum: u64,
    rounds: u64,
) -> Result<Settled, Refusal> {
    let quantum = quantum.clamp(1, 4096);
    match session.settle(rt, alloc, quantum, rounds) {
        Err(Refusal::NoMemory) => session.settle(rt, alloc, quantum, rounds),
        told => told,
    }
}

// Tells how a settling ended, where it wasn't quiet.
fn tell_settled(said: &mut String, told: Result<Settled, Refusal>) -> Result<(), AllocError> {
    match told {
        Ok(Settled::Quiet) => Ok(()),
        Ok(Settled::Busy) => said.push_str(" busy"),
        Err(refusal) => write!(said, " {refusal}"),
    }
}

/// Does it, and writes what was answered.
pub fn perform<R: Wait>(
    rt: &R,
    alloc: Global,
    session: &mut Session<'_>,
    act: Action,
    said: &mut String,
) -> Result<(), AllocError> {
    if let Action::Rounds(quantum, rounds) = act {
        return tell_settled(said, settle(rt, alloc, session, quantum, rounds));
    }
    for place in 0..usize::MAX {
        let Some(event) = act.event(place) else {
            break;
        };
        tell(said, ask(rt, alloc, session, event))?;
    }
    Ok(())
}
