//! One step of the processor.

ghost use Rattle.std.specs.Prelude.{◌≡◌, Ok, true};
ghost use Rattle.node_memory.specs.Effect.{effect_of};
ghost use Rattle.t414_step.specs.Answers.{step_answer_of, is_idle};
ghost use Rattle.t414_step.specs.Registers.{has_nothing_to_do};
ghost use Rattle.t414_step.specs.Step.{resumption, step};

use crate::cpu::Cpu;
use link_channels::{Links, services_act_on_work};
use node_memory::{Fault, Memory};

/// What one step came to.
#[derive(Clone, Copy, PartialEq, Eq)]
pub enum Stepped {
    /// A link was served or an instruction byte was done.
    Ran,
    /// There was nothing to do.
    Idle,
    /// The node halted.
    Fault(Fault),
}

impl Cpu {
    // Takes a process from the queue; whether there was one.
    #[inline(always)]
    pub(crate) fn resume(&mut self, memory: &Memory) -> Result<bool, Fault>
        ensures answer { effect_of result self.new memory.now ≡ resumption self.old memory.now }
        ensures runs { result ≡ Ok true → self.new.running ≡ true }
    {
        let Some(found) = self.queue.take(memory)? else {
            return Ok(false);
        };
        let workspace = found - found % 4;
        self.instruction = memory.word(workspace.wrapping_sub(4))?;
        self.workspace = workspace;
        self.a = 0;
        self.b = 0;
        self.c = 0;
        self.operand = 0;
        self.bytes = 0;
        self.running = true;
        Ok(true)
    }
}

// One step; returns only its answer.
#[inline(always)]
#[tactic(auto, unfolding(crate::specs::Step::step))]
pub(crate) fn advance(cpu: &mut Cpu, memory: &mut Memory, links: &mut Links) -> Stepped
    ensures answer { step_answer_of result cpu.new links.new memory.new ≡ step cpu.old links.old memory.old }
{
    // Links without work are left as they are.
    services_act_on_work();
    let mut acted = false;
    if links.has_work() {
        match links.serve_all(memory, &mut cpu.queue) {
            Ok(any) => acted = any,
            Err(fault) => return Stepped::Fault(fault),
        }
    }
    if !cpu.running {
        match cpu.resume(memory) {
            Ok(true) => {}
            Ok(false) if acted => return Stepped::Ran,
            Ok(false) => return Stepped::Idle,
            Err(fault) => return Stepped::Fault(fault),
        }
    }
    let next = cpu.do_byte(memory);
    match cpu.complete(memory, links, next) {
        Ok(()) => Stepped::Ran,
        Err(fault) => Stepped::Fault(fault),
    }
}

/// One step of a node that runs: links 0 to 3 are served in order, a process is taken from the queue where there is no
/// current one, and then, where there is one, one instruction byte is done.
///
/// After a fault the registers are given up, memory and links are as the instruction or the service left them:
/// `Fault::OutsideMemory`, `UnknownOperation`, `ErrorSet`, `HighPriority` and `WrongChannel` as the instruction table
/// has them.
///
/// Source: Transputer instruction set handbook, and Reference Manual, links; the order and the slices are our choice.
// For many steps there is `run`.
#[inline(always)]
pub fn step(cpu: &mut Cpu, memory: &mut Memory, links: &mut Links) -> Stepped
    ensures answer { step_answer_of result cpu.new links.new memory.new ≡ step cpu.old links.old memory.old }
    // It is idle exactly where there is no current process, none in the queue, and no link that has work.
    ensures idle { is_idle result ≡ has_nothing_to_do cpu.old links.old }
{
    // Links are served only if one of them has work.
    services_act_on_work();
    advance(cpu, memory, links)
}
