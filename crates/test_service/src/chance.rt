//! Commands by chance.

use crate::actions::{ask, settle};
use crate::draws::Draws;
use crate::sized::Size;
use domain_core::{Event, Refusal, Reply};
use farm_service::Session;
use std::alloc::Global;
use std::sync::Wait;

/// Boot messages: a loop of two instruction bytes, a program that sends 41, and two that destroy what they depend on.
const PROGRAMS: [&[u8]; 4] = [
    &[6, 0x60, 0x0e, 0, 0, 0, 0],
    &[8, 0xb5, 0x24, 0xf2, 0x24, 0x41, 0xfe, 0x21, 0xf5],
    &[7, 0x24, 0xf2, 0x60, 0x4f, 0xd0, 0x60, 0x08],
    &[5, 0x24, 0xf2, 0xf3, 0x60, 0x0d],
];

/// The most commands of a line.
const MOST: usize = 48;

// Commands that follow one another.
#[derive(Clone, Copy)]
struct Line {
    events: [Event; MOST],
    count: usize,
}

impl Line {
    // A line of one command.
    fn of(event: Event) -> Line {
        Line {
            events: [event; MOST],
            count: 1,
        }
    }

    // Adds a command, if there is room.
    fn add(&mut self, event: Event) {
        if self.count < MOST {
            self.events[self.count] = event;
            self.count += 1;
        }
    }
}

// A configuration message, with ports that are there or one past them.
fn message(draws: &mut Draws, ports: u8) -> Line {
    let command = draws.byte(6);
    let mut line = Line::of(Event::Config(command));
    let others = match command {
        0 | 1 | 6 => 2,
        2 | 5 => 1,
        _ => 0,
    };
    for _ in 0..others {
        line.add(Event::Config(draws.byte(ports)));
    }
    line
}

// Joins a host to a node in both directions, resets the node as a rule, and writes it a program or bytes of any kind.
fn boot(draws: &mut Draws, size: Size) -> Line {
    let host = draws.byte(size.users);
    let node = draws.byte(size.nodes.saturating_sub(1));
    let mut line = Line::of(Event::Config(1));
    line.add(Event::Config(node));
    line.add(Event::Config(size.nodes.saturating_add(host)));
    line.add(Event::Config(3));
    if draws.byte(3) > 0 {
        line.add(Event::Reset(node));
    }
    if draws.byte(2) == 0 {
        let length = draws.byte(38).saturating_add(2);
        line.add(Event::Write(host, length));
        for _ in 0..length {
            line.add(Event::Write(host, draws.byte(255)));
        }
    } else {
        for byte in PROGRAMS[usize::from(draws.byte(3))] {
            line.add(Event::Write(host, *byte));
        }
    }
    line
}

// A line of any kind: a message, bytes of any kind, a program, a Read, a Reset or a Look, also of what isn't there.
fn any_line(draws: &mut Draws, size: Size) -> Line {
    match draws.byte(17) {
        0..=6 => message(draws, size.nodes.saturating_add(size.users)),
        7 => Line::of(Event::Config(draws.byte(255))),
        8..=9 => Line::of(Event::Write(draws.byte(size.users), draws.byte(255))),
        10..=11 => boot(draws, size),
        12..=14 => Line::of(Event::Read(draws.byte(size.users))),
        15 => Line::of(Event::Reset(draws.byte(size.nodes))),
        _ => Line::of(Event::Look(draws.byte(size.nodes))),
    }
}

// Asks a line until it is refused or a queue is full; how many commands were answered.
fn ask_line<R: Wait>(
    rt: &R,
    alloc: Global,
    session: &mut Session<'_>,
    line: &Line,
) -> Result<u64, Refusal> {
    let mut answered = 0_u64;
    for event in line.events.iter().take(line.count) {
        if ask(rt, alloc, session, *event)? == Reply::Full {
            break;
        }
        answered = answered.saturating_add(1);
    }
    Ok(answered)
}

/// Asks for anything `count` times, and settles now and then. Returns how many commands were answered, or `NoMemory` if one
/// met NoMemory twice.
pub fn ask_anything<R: Wait>(
    rt: &R,
    alloc: Global,
    session: &mut Session<'_>,
    draws: &mut Draws,
    size: Size,
    count: u64,
) -> Result<u64, Refusal> {
    let mut answered = 0_u64;
    for _ in 0..count {
        let told = if draws.byte(9) == 0 {
            settle(rt, alloc, session, draws.below(4097), draws.below(12)).map(|_| 1)
        } else {
            ask_line(rt, alloc, session, &any_line(draws, size))
        };
        match told {
            Ok(commands) => answered = answered.saturating_add(commands),
            Err(Refusal::NoMemory) => return Err(Refusal::NoMemory),
            Err(_) => {}
        }
    }
    Ok(answered)
}
