//! The last events of a domain, which can be done again. Only that shows what a node did right before a fault.

use crate::notes::ZerosNotes;
use bootstrap::Node;
use domain_core::{Event, Moment, NoMemory};
use farm_records::RecordedCall;
use node_memory::{MEMORY_START, Memory};
use std::alloc::Global;
use t414_step::Cpu;

/// After this much work a new part begins. A Step is 1, and an event is 64.
const MOST_WORK: u64 = 1 << 20;

/// No more Steps than this are done again.
const MOST_AGAIN: u64 = 1 << 25;

/// What an event counts, beside Steps.
const WORK_OF_AN_EVENT: u64 = 64;

/// How many zeros lie one after another at least, if a node is said to have run through them.
const FEWEST_ZEROS: u32 = 8;

/// The most bytes that a memory has.
const MOST_BYTES: u32 = 65_536;

// A moment and the calls since then.
struct TrailPart {
    from: Moment,
    calls: Vec<RecordedCall>,
    work: u64,
}

// Dropped by hand, since a derived `Drop` makes callers prove the drop of each field.
impl Drop for TrailPart {
    fn drop(self) {
        let TrailPart {
            from: _,
            calls: _,
            work: _,
        } = self;
    }
}

/// The last calls of a domain, in two parts that follow one another. They have at least `MOST_WORK` in all, or are all calls.
pub struct Trail {
    older: Option<TrailPart>,
    newer: Option<TrailPart>,
}

// Dropped by hand, since a derived `Drop` makes callers prove the drop of each field.
impl Drop for Trail {
    fn drop(self) {
        let Trail { older: _, newer: _ } = self;
    }
}

// What is looked for while calls are done again: how a process of this workspace came to zeros.
#[derive(Drop)]
struct Search {
    node: u8,
    workspace: u32,
    // How many of the node's next Steps are done in bursts. After them each Step is done by itself.
    skipped: u64,
    found: Option<ZerosNotes>,
}

// How many zeros lie right below an address.
fn zeros_below(memory: &Memory, address: u32) -> u32 {
    let mut zeros: u32 = 0;
    for _ in 0..MOST_BYTES {
        let place = address.wrapping_sub(zeros).wrapping_sub(1);
        if place < MEMORY_START || memory.byte(place) != Ok(0) {
            break;
        }
        zeros = zeros.saturating_add(1);
    }
    zeros
}

// The registers of a node in which a process runs, and the byte that is done next.
fn running_at(node: Option<&Node>) -> Option<(Cpu, u8)> {
    let node = node?;
    let cpu = node.registers()?;
    if !cpu.running {
        return None;
    }
    let byte = node.memory().byte(cpu.instruction).ok()?;
    Some((cpu, byte))
}

impl Search {
    // Notes what one Step of the node did.
    fn note(&mut self, before: Option<(Cpu, u8)>, after: Option<(Cpu, u8)>) {
        let Some((registers, byte)) = before else {
            return;
        };
        if byte == 0 && registers.operand == 0 {
            return;
        }
        match after {
            Some((cpu, 0)) if cpu.workspace == self.workspace && cpu.operand == 0 => {
                self.found = Some(ZerosNotes {
                    registers,
                    byte,
                    first: cpu.instruction,
                });
            }
            _ if registers.workspace == self.workspace => self.found = None,
            _ => {}
        }
    }

    // Does Steps of the node again, the last of them one by one.
    fn step(&mut self, moment: &mut Moment, times: u64) -> Result<(), NoMemory> {
        let some = times.min(self.skipped);
        if some > 0 {
            self.skipped -= some;
            let _ = moment.burst(self.node, some);
        }
        for _ in some..times {
            let before = running_at(moment.node(self.node));
            let _ = moment.burst(self.node, 1);
            self.note(before, running_at(moment.node(self.node)));
        }
        Ok(())
    }

    // Does calls again.
    fn follow(&mut self, moment: &mut Moment, calls: &[RecordedCall]) -> Result<(), NoMemory> {
        for call in calls {
            match call.event {
                Event::Step(node) if node == self.node => self.step(moment, call.times)?,
                Event::Step(node) => {
                    let _ = moment.burst(node, call.times);
                }
                event => {
                    let _ = moment.apply(call.by, event);
                }
            }
        }
        Ok(())
    }
}

// How much work a part is.
fn work_of(part: &Option<TrailPart>) -> u64 {
    match part {
        Some(part) => part.work,
        None => 0,
    }
}

// How many Steps of a node some calls are.
fn steps_of(node: u8, part: &Option<TrailPart>) -> u64 {
    let mut steps: u64 = 0;
    if let Some(part) = part {
        for call in part.calls.as_slice() {
            match call.event {
                Event::Step(number) if number == node => {
                    steps = steps.saturating_add(call.times);
                }
                _ => {}
            }
        }
    }
    steps
}

impl Trail {
    /// Nothing was done.
    pub fn new() -> Trail {
        Trail {
            older: None,
            newer: None,
        }
    }

    /// A call comes next, at this moment.
    pub fn note(
        &mut self,
        alloc: Global,
        moment: &Moment,
        call: RecordedCall,
    ) -> Result<(), NoMemory> {
        let is_full = match &self.newer {
            Some(part) => part.work >= MOST_WORK,
            None => true,
        };
        if is_full {
            let part = TrailPart {
                from: moment.copy(alloc)?,
                calls: Vec::new(alloc),
                work: 0,
            };
            self.older = self.newer.replace(part);
        }
        if let Some(part) = &mut self.newer {
            part.calls.push(call)?;
            part.work = part
                .work
                .saturating_add(call.times)
                .saturating_add(WORK_OF_AN_EVENT);
        }
        Ok(())
    }

    /// How a node came to the zeros right below the place at which it met a fault with these registers, if it ran through zeros
    /// there, and if that isn't too long ago.
    pub fn zeros_before(
        &self,
        alloc: Global,
        number: u8,
        node: &Node,
        registers: Cpu,
    ) -> Result<Option<ZerosNotes>, NoMemory> {
        let zeros = zeros_below(node.memory(), registers.instruction);
        let first = match (&self.older, &self.newer) {
            (Some(part), _) | (None, Some(part)) => part,
            (None, None) => return Ok(None),
        };
        let work = work_of(&self.older).saturating_add(work_of(&self.newer));
        if zeros < FEWEST_ZEROS || work > MOST_AGAIN {
            return Ok(None);
        }
        let steps = steps_of(number, &self.older).saturating_add(steps_of(number, &self.newer));
        let mut search = Search {
            node: number,
            workspace: registers.workspace,
            skipped: steps.saturating_sub(u64::from(zeros) * 4),
            found: None,
        };
        let mut moment = first.from.copy(alloc)?;
        for part in [&self.older, &self.newer] {
            if let Some(part) = part {
                search.follow(&mut moment, part.calls.as_slice())?;
            }
        }
        Ok(search.found)
    }
}
