//! Many Steps of a node in one call.

ghost use Rattle.std.specs.Prelude.{◌≡◌};
ghost use Rattle.bootstrap.specs.Steps.{IsBurst, last_of_ran, running, left_by, state_after};

use crate::node::Node;
use crate::state::NodeState;
use link_channels::{Links, services_act_on_work};
use node_memory::Memory;
use t414_step::{Cpu, Stepped, idle_where_it_rests};

/// What a burst of Steps came to.
#[derive(Clone, Copy)]
pub struct Burst {
    /// How many Steps were done that would be recorded.
    pub steps: u64,
    /// What the last of them answered, none where there was none.
    pub last: Option<Stepped>,
}

// What the last of `steps` Steps answered, if each of them ran.
fn last_ran(steps: u64) -> Option<Stepped>
    ensures { result ≡ last_of_ran steps }
{
    if steps == 0 { None } else { Some(Stepped::Ran) }
}

// The Steps of a node that runs, up to the nth or to the first that would not be recorded.
fn run(cpu: &mut Cpu, memory: &mut Memory, links: &mut Links, n: u64) -> Burst
    ensures burst { IsBurst n (running cpu.old links.old memory.old) result (left_by result.last cpu.new links.new memory.new) }
{
    // A step is idle only if there is nothing to run and no link has work.
    idle_where_it_rests();
    // Links are served only if one of them has work.
    services_act_on_work();
    let (steps, answer) = t414_step::run(cpu, memory, links, n);
    match answer {
        Stepped::Ran => Burst {
            steps,
            last: last_ran(steps),
        },
        Stepped::Idle => Burst {
            steps: steps - 1,
            last: last_ran(steps - 1),
        },
        Stepped::Fault(fault) => Burst {
            steps,
            last: Some(Stepped::Fault(fault)),
        },
    }
}

// What a node does whose processor answered so last: a fault has halted it.
fn state_after(last: Option<Stepped>, cpu: Cpu) -> NodeState
    ensures answer { result ≡ state_after last cpu }
{
    match last {
        Some(Stepped::Fault(fault)) => NodeState::Halted(fault),
        Some(Stepped::Ran | Stepped::Idle) | None => NodeState::Runs(cpu),
    }
}

impl Node {
    /// Does Steps up to the nth, or to the first that would not be recorded: one that would answer `Idle`, or one of a
    /// node that has halted.
    pub fn burst(&mut self, n: u64) -> Burst
        ensures burst { IsBurst n self.old result self.new }
    {
        let mut last = None;
        for steps in 0..n {
            if let NodeState::Runs(cpu) = self.state {
                // All that is left to do is done by the processor, which never boots again. Its registers are locals.
                let mut cpu = cpu;
                let ran = run(&mut cpu, &mut self.memory, &mut self.links, n - steps);
                let state = state_after(ran.last, cpu);
                self.state = state;
                return Burst {
                    steps: steps + ran.steps,
                    last: if ran.steps == 0 { last } else { ran.last },
                };
            }
            if self.quiet() {
                return Burst { steps, last };
            }
            last = Some(self.step());
        }
        Burst { steps: n, last }
    }
}
