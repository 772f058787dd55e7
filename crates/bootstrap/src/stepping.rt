//! One Step of a node, and whether one would be recorded.

ghost use Rattle.std.specs.Prelude.{◌≡◌, None};

use crate::node::Node;
use crate::state::{NodeState, Task};
use process_queue::NOT_PROCESS;
use t414_step::{Stepped, idle_where_it_rests, step};

impl Node {
    ghost use Rattle.bootstrap.specs.Examined.{registers_of};
    ghost use Rattle.bootstrap.specs.Step.{node_step, is_quiet};

    /// One Step: a node that boots takes one byte, or posts one of an answer; a node that runs steps its processor.
    ///
    /// It is `Idle` where there was nothing to do, and nothing has changed then. After a `Fault` the node has halted:
    /// memory and links are as the instruction or the service left them, and the registers are given up. A node that
    /// has halted answers its fault again, and nothing changes.
    ///
    /// Source: Transputer Reference Manual, bootstrapping and links; that each Step is one act, and the order of the
    /// links, are our choice.
    #[inline(always)]
    #[tactic(auto, unfolding(crate::specs::Step::node_step))]
    pub fn step(&mut self) -> Stepped
        ensures answer { (self.new, result) ≡ node_step self.old }
    {
        match &mut self.state {
            NodeState::Runs(cpu) => {
                let stepped = step(cpu, &mut self.memory, &mut self.links);
                if let Stepped::Fault(fault) = stepped {
                    self.state = NodeState::Halted(fault);
                }
                stepped
            }
            _ => self.step_without_registers(),
        }
    }

    // One Step of a node that has no registers: it boots, or has halted.
    #[inline(never)]
    #[tactic(auto, unfolding(crate::specs::Step::node_step))]
    fn step_without_registers(&mut self) -> Stepped
        requires { registers_of self.old.state ≡ None }
        ensures answer { (self.new, result) ≡ node_step self.old }
    {
        match self.state {
            NodeState::WantsControl => {
                let Some(link) = self.offering_link() else {
                    return Stepped::Idle;
                };
                let Some(byte) = self.links.take_byte(link) else {
                    return Stepped::Idle;
                };
                let task = Task::of(byte);
                self.state = NodeState::Takes { link, task };
                Stepped::Ran
            }
            NodeState::Takes { link, task } => {
                let Some(byte) = self.links.take_byte(link) else {
                    return Stepped::Idle;
                };
                self.give(link, task, byte);
                Stepped::Ran
            }
            NodeState::Answers { link, left, word } => self.answer(link, left, word),
            NodeState::Runs(_) => unreachable!(),
            NodeState::Halted(fault) => Stepped::Fault(fault),
        }
    }

    /// Whether a Step would not be recorded: it would answer `Idle`, or the node has halted before it. Such a Step
    /// changes nothing.
    #[inline(always)]
    #[tactic(auto, unfolding(crate::specs::Step::node_step))]
    pub fn quiet(&self) -> bool
        ensures answer { result ≡ is_quiet self.now }
    {
        // A step is idle only if there is nothing to run and no link has work.
        idle_where_it_rests();
        match &self.state {
            NodeState::Runs(cpu) => {
                !cpu.running && cpu.queue.front == NOT_PROCESS && !self.links.has_work()
            }
            _ => self.is_quiet_without_registers(),
        }
    }

    // Whether a Step of a node that has no registers would not be recorded.
    #[inline(never)]
    #[tactic(auto, unfolding(crate::specs::Step::node_step))]
    fn is_quiet_without_registers(&self) -> bool
        requires { registers_of self.now.state ≡ None }
        ensures answer { result ≡ is_quiet self.now }
    {
        match &self.state {
            NodeState::WantsControl => self.offering_link().is_none(),
            NodeState::Takes { link, .. } => self.links.at(*link).end.input.buffer.is_none(),
            NodeState::Answers { link, .. } => !self.links.at(*link).end.output.acknowledged,
            NodeState::Runs(_) => unreachable!(),
            NodeState::Halted(_) => true,
        }
    }
}
