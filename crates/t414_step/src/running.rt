//! Many steps of one processor, in one loop.

ghost use Rattle.std.specs.Prelude.{◌≡◌, ◌+◌, ◌<◌, ◌≤◌, Some, true, false, min};
ghost use Rattle.link_channels.specs.Links.{any_has_work};
ghost use Rattle.t414_step.specs.Answers.{step_answer_of};
ghost use Rattle.t414_step.specs.Next.{completed};
ghost use Rattle.t414_step.specs.Step.{stepped, step};
ghost use Rattle.t414_step.specs.Steps.{nth_step};
ghost use Rattle.t414_step.specs.declared.stepping.Stepped.TheVariants as code;

use crate::cpu::Cpu;
use crate::next::Next;
use crate::stepping::{Stepped, advance};
use link_channels::{Links, services_act_on_work};
use node_memory::Memory;

// A count of bytes after `more` further ones.
#[inline(always)]
fn count_bytes(before: u32, more: u64) -> u32
    ensures { result ≡ min (before + more) 1024 }
{
    u64::from(before).saturating_add(more).min(1024) as u32
}

impl Cpu {
    // Instruction bytes up to the nth, or to the first that asks for more than the loop does: how many were begun, and
    // what the last of them came to. The loop takes the address of no register.
    // Six clauses: three say when it may be called, and three what it answers.
    #[inline(always)]
    fn run_bytes(&mut self, memory: &mut Memory, links: &Links, most: u64) -> (u64, Next)
        requires running { self.old.running ≡ true }
        requires rest { any_has_work links.now ≡ false }
        requires some { 0 < most }
        ensures answer { nth_step result.0 self.old links.now memory.old ≡ Some (stepped (completed result.1 self.new links.now memory.new)) }
        ensures some { 0 < result.0 }
        ensures most { result.0 ≤ most }
    {
        // Links without work are left as they are.
        services_act_on_work();
        // The count of bytes follows from that of the loop, which so keeps one of them alone.
        let before = self.bytes;
        let unsliced = u64::from(1023 - before.min(1023));
        // As long as at least `sliced` bytes are left, no jump is the end of a slice.
        let sliced = most.saturating_sub(unsliced);
        let mut left = most;
        while left > 0 {
            left -= 1;
            match self.do_byte(memory) {
                Next::Byte => {}
                Next::Jumped if left >= sliced => {}
                next => {
                    self.bytes = count_bytes(before, most - left);
                    return (most - left, next);
                }
            }
        }
        self.bytes = count_bytes(before, most);
        (most, Next::Byte)
    }

    // One step by value, apart from the loop of bytes.
    #[cold]
    #[inline(never)]
    fn advance_by_value(mut self, memory: &mut Memory, links: &mut Links) -> (Cpu, Stepped)
        ensures answer { step_answer_of result.1 result.0 links.new memory.new ≡ step self links.old memory.old }
    {
        let answer = advance(&mut self, memory, links);
        (self, answer)
    }

    // The same, with the registers changed where they are. What a call returns is cleared before the call: so that is
    // done here, and not at each byte.
    #[inline(always)]
    fn advance_apart(&mut self, memory: &mut Memory, links: &mut Links) -> Stepped
        ensures answer { step_answer_of result self.new links.new memory.new ≡ step self.old links.old memory.old }
    {
        let (after, answer) = self.advance_by_value(memory, links);
        *self = after;
        answer
    }

    // Steps up to the nth, and one at least: a service of links, or else bytes of one process.
    #[inline(always)]
    fn run_on(&mut self, memory: &mut Memory, links: &mut Links, most: u64) -> (u64, Stepped)
        requires some { 0 < most }
        ensures answer { nth_step result.0 self.old links.old memory.old ≡ Some (step_answer_of result.1 self.new links.new memory.new) }
        ensures some { 0 < result.0 }
        ensures most { result.0 ≤ most }
    {
        // Links without work are left as they are.
        services_act_on_work();
        if links.has_work() {
            return (1, self.advance_apart(memory, links));
        }
        if !self.running {
            match self.resume(memory) {
                Ok(true) => {}
                Ok(false) => return (1, Stepped::Idle),
                Err(fault) => return (1, Stepped::Fault(fault)),
            }
        }
        let (done, next) = self.run_bytes(memory, links, most);
        match self.complete(memory, links, next) {
            Ok(()) => (done, Stepped::Ran),
            Err(fault) => (done, Stepped::Fault(fault)),
        }
    }
}

/// Steps up to the nth, or to the first that doesn't answer `Ran`: how many were done, with that one, and what the last
/// of them answered. It is `Ran` if there was none.
///
/// Source: as for `step`, since these are steps one after another.
#[inline(never)]
pub fn run(cpu: &mut Cpu, memory: &mut Memory, links: &mut Links, most: u64) -> (u64, Stepped)
    ensures answer { nth_step result.0 cpu.old links.old memory.old ≡ Some (step_answer_of result.1 cpu.new links.new memory.new) }
    ensures most { result.0 ≤ most }
    ensures all { result.1 ≡ code.Ran → result.0 ≡ most }
    ensures some { ¬ (result.1 ≡ code.Ran) → 0 < result.0 }
{
    // The registers are locals, which the machine may keep in registers of its own.
    let mut local = *cpu;
    let mut done = 0;
    for _turn in 0..most {
        let (more, answer) = local.run_on(memory, links, most - done);
        done += more;
        if !matches!(answer, Stepped::Ran) || done == most {
            *cpu = local;
            return (done, answer);
        }
    }
    *cpu = local;
    (most, Stepped::Ran)
}
