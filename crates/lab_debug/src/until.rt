//! The next or the last moment at which something happened.

use crate::code::next_address;
use bootstrap::{Node, Packet};
use domain_core::{Event, Moved};
use farm_records::RecordedCall;
use lab_timeline::Timeline;
use record_following::{EventNotes, FollowFault};
use std::alloc::AllocError;

/// What is looked for in a record.
#[derive(Clone, Copy)]
pub enum Goal<'a> {
    /// A node comes to the instruction at one of these addresses.
    At { node: u8, addresses: &'a [u32] },
    /// A node comes to an instruction byte that doesn't follow the one that it did.
    Jump { node: u8 },
    /// A node meets a fault.
    Fault,
    /// A byte leaves a virtual port, or comes to it.
    Byte(u8),
    /// The word at an address of a node becomes another.
    Write { node: u8, address: u32 },
    /// A packet is lost.
    Lost,
}

/// Which of several events that meet a goal is taken.
#[derive(Clone, Copy)]
enum Taken {
    First,
    Last,
}

impl Goal<'_> {
    // The node at which it is looked for.
    fn node(self) -> Option<u8> {
        match self {
            Goal::At { node, .. } | Goal::Jump { node } | Goal::Write { node, .. } => Some(node),
            Goal::Fault | Goal::Byte(_) | Goal::Lost => None,
        }
    }

    // What is seen of it in a node: where that goes on, or a word.
    fn seen_in(self, node: &Node) -> Result<Option<u32>, AllocError> {
        match self {
            Goal::At { .. } | Goal::Jump { .. } => next_address(node),
            Goal::Write { address, .. } => Ok(node.memory().word(address).ok()),
            Goal::Fault | Goal::Byte(_) | Goal::Lost => Ok(None),
        }
    }

    // Whether an event made it so, which was a Step of the node or not.
    fn is_met(self, before: Option<u32>, after: Option<u32>, is_step: bool) -> bool {
        match self {
            Goal::At { addresses, .. } => {
                is_any(after, addresses) && (is_step || before != after)
            }
            Goal::Jump { .. } => is_step && is_jump(before, after),
            Goal::Write { .. } => before != after,
            Goal::Fault | Goal::Byte(_) | Goal::Lost => false,
        }
    }
}

// Whether an address is one of these.
fn is_any(address: Option<u32>, addresses: &[u32]) -> bool {
    match address {
        Some(address) => addresses.contains(&address),
        None => false,
    }
}

// Whether a Step at the first address led to another than the next.
fn is_jump(before: Option<u32>, after: Option<u32>) -> bool {
    match (before, after) {
        (Some(from), Some(to)) => to != from.wrapping_add(1),
        _ => false,
    }
}

// What is seen of a goal at the moment that is shown.
fn step_that_meets(timeline: &Timeline, goal: Goal) -> Result<Option<u32>, AllocError> {
    let Some(number) = goal.node() else {
        return Ok(None);
    };
    match timeline.here().node(number) {
        Some(node) => goal.seen_in(node),
        None => Ok(None),
    }
}

// Whether the next event is a Move that takes the byte in question.
fn moves_byte(timeline: &mut Timeline, goal: Goal, event: Event) -> bool {
    let (Goal::Byte(port), Event::Move(from)) = (goal, event) else {
        return false;
    };
    let Some(state) = timeline.port_state(from) else {
        return false;
    };
    match (state.packet, state.moved) {
        (Some(Packet::Byte(_)), Moved::Lost) => from == port,
        (Some(Packet::Byte(_)), Moved::Passed) => {
            from == port || (port < 32 && state.drives >> port & 1 == 1)
        }
        _ => false,
    }
}

// Whether the last event was a fault, or a loss, if that is looked for.
fn was_noted(timeline: &Timeline, goal: Goal) -> bool {
    let (notes, event) = (timeline.here().notes(), timeline.here().recorded_events());
    match goal {
        Goal::Fault => is_fault(notes, event),
        Goal::Lost => is_loss(notes, event),
        Goal::At { .. } | Goal::Jump { .. } | Goal::Byte(_) | Goal::Write { .. } => false,
    }
}

// Whether a node met its fault in an event.
fn is_fault(notes: &EventNotes, event: u64) -> bool {
    for node in 0..8u8 {
        if let Some(fault) = notes.node(node).fault
            && fault.event == event
        {
            return true;
        }
    }
    false
}

// Whether a packet was lost in an event.
fn is_loss(notes: &EventNotes, event: u64) -> bool {
    for port in 0..32u8 {
        let lost = notes.port(port);
        if lost.byte == Some(event) || lost.acknowledge == Some(event) {
            return true;
        }
    }
    false
}

// After how many of the next `most` Steps of a node a goal is met: the first time, or the last, as `taken` says. `None` if it
// isn't met. All these Steps run.
fn steps_to(goal: Goal, node: &Node, most: u64, taken: Taken) -> Result<Option<u64>, AllocError> {
    let mut copy = node.copy(node.memory().allocator())?;
    let mut before = goal.seen_in(&copy)?;
    let mut found = None;
    for done in 0..most {
        let _ = copy.step();
        let after = goal.seen_in(&copy)?;
        if goal.is_met(before, after, true) {
            found = Some(done + 1);
            if taken == Taken::First {
                break;
            }
        }
        before = after;
    }
    Ok(found)
}

// Does one event. Which one it is, if it is looked for.
fn pass_one(timeline: &mut Timeline, goal: Goal, event: Event) -> Result<Option<u64>, FollowFault> {
    let before = step_that_meets(timeline, goal)?;
    let is_byte = moves_byte(timeline, goal, event);
    let next = timeline.here().recorded_events().saturating_add(1);
    timeline.go(next)?;
    let after = step_that_meets(timeline, goal)?;
    let is_step = match event {
        Event::Step(node) => goal.node() == Some(node),
        _ => false,
    };
    if is_byte || goal.is_met(before, after, is_step) || was_noted(timeline, goal) {
        return Ok(Some(timeline.here().recorded_events()));
    }
    Ok(None)
}

// Does `times` Steps of a node, which are in one line, but only those up to the first that is looked for if that is the one to
// take. Returns the event that is looked for, if it is among them.
fn pass_steps(
    timeline: &mut Timeline,
    goal: Goal,
    number: u8,
    times: u64,
    taken: Taken,
) -> Result<Option<u64>, FollowFault> {
    let recorded = timeline.here().recorded_events();
    let found = match timeline.here().node(number) {
        Some(node) if goal.node() == Some(number) => steps_to(goal, node, times, taken)?,
        _ => None,
    };
    let done = match (taken, found) {
        (Taken::First, Some(found)) => found,
        _ => times,
    };
    timeline.go(recorded.saturating_add(done))?;
    Ok(match found {
        Some(found) => Some(recorded.saturating_add(found)),
        None => None,
    })
}

// Does a call, but at most `most` events of it. Returns the event that is looked for, if it is among them.
fn pass(
    timeline: &mut Timeline,
    goal: Goal,
    call: RecordedCall,
    most: u64,
    taken: Taken,
) -> Result<Option<u64>, FollowFault> {
    match call.event {
        Event::Step(node) if call.times > 1 => {
            pass_steps(timeline, goal, node, call.times.min(most), taken)
        }
        event => pass_one(timeline, goal, event),
    }
}

// Looks for a goal in the events up to this one.
fn look_through(
    timeline: &mut Timeline,
    goal: Goal,
    last: u64,
    taken: Taken,
) -> Result<Option<u64>, FollowFault> {
    let mut found = None;
    for _ in timeline.here().recorded_events()..last {
        let left = last.saturating_sub(timeline.here().recorded_events());
        let Some(line) = timeline.upcoming() else {
            break;
        };
        if left == 0 || (found.is_some() && taken == Taken::First) {
            break;
        }
        found = pass(timeline, goal, line.call, left, taken)?.or(found);
    }
    Ok(found)
}

/// Goes on to the next event that is looked for, and returns whether there is one.
pub fn seek(timeline: &mut Timeline, goal: Goal) -> Result<bool, FollowFault> {
    let last = timeline.events();
    Ok(look_through(timeline, goal, last, Taken::First)?.is_some())
}

/// Goes back from the moment that is shown to the last event before it that is looked for, and returns whether there is one.
pub fn seek_back(timeline: &mut Timeline, goal: Goal) -> Result<bool, FollowFault> {
    let mut last = timeline.here().recorded_events().saturating_sub(1);
    for _ in 0..last {
        if last == 0 {
            break;
        }
        let start = timeline.kept_before(last.saturating_sub(1));
        timeline.go(start)?;
        if let Some(found) = look_through(timeline, goal, last, Taken::Last)? {
            timeline.go(found)?;
            return Ok(true);
        }
        last = start;
    }
    Ok(false)
}
