//! A domain at a moment of its history, without its journal.
ghost use Rattle.std.specs.Prelude.{◌≡◌, ◌<◌, ◌≤◌, ◌+◌, IfOk, IfSome, None, Err, ◌↔◌, Some, length, slice_get};
ghost use Rattle.std.specs.Option.{option_copied};
ghost use Rattle.plan_rules.specs.Part.{part_of};
ghost use Rattle.domain_core.specs.declared.event.Refusal.TheVariants.{NoSuch};
ghost use Rattle.domain_core.specs.MachineValue.{machine_of};
ghost use Rattle.domain_core.specs.Moments.{state_at, LeadsOn};
ghost use Rattle.domain_core.specs.PortStates.{IsPortState};
ghost use Rattle.domain_core.specs.PrivateFarm.{opening, next};
ghost use Rattle.domain_core.specs.Ticket.{steps_told};

use crate::NoMemory;
use crate::event::{By, Event, Refusal, Reply};
use crate::host::Host;
use crate::machine::{Acted, RunningMachine};
use crate::port_state::PortState;
use crate::ticket::at_most;
use bootstrap::{Burst, Node};
use crossbar::{PlainOutputs, Word};
use plan_rules::{AcceptedPlan, Part};
use std::alloc::Global;
use std::marker::Model;

/// A domain at a moment of its history: its machine without the journal, and how many events were recorded till then.
pub struct Moment {
    machine: RunningMachine<PlainOutputs>,
    recorded: u64,
}

// Dropped by hand, since a derived `Drop` makes callers prove the drop of each field.
impl Drop for Moment {
    fn drop(self) {
        let Moment {
            machine: _,
            recorded: _,
        } = self;
    }
}

impl Model for Moment {
    ghost use Rattle.std.specs.Prelude.{◌≤◌};
    ghost use Rattle.domain_core.specs.Moments.{MomentValue};

    ghost Value = { MomentValue };

    ghost view = { λ m. record { machine = m.machine; recorded = m.recorded } };

    ghost invariant = { λ m. m.recorded ≤ m.machine.part.limit };
}

impl Moment {
    /// The domain of this number of a plan as it is opened. `NoMemory` where memories or queues can't be allocated.
    pub fn open(alloc: Global, plan: &AcceptedPlan, number: u8) -> Result<Moment, NoMemory>
        requires { number < length plan.now }
        ensures state { IfOk result (λ m. IfSome (slice_get plan.now number) (λ of. state_at m ≡ opening (part_of of))) }
        ensures part { IfOk result (λ m. IfSome (slice_get plan.now number) (λ of. m.machine.part ≡ part_of of)) }
    {
        // The domains of an accepted plan share no port.
        plan.separate_law();
        let part = plan.part(number).copy(alloc)?;
        let outputs = PlainOutputs::new(plan.ranges(number));
        Ok(Moment {
            machine: RunningMachine::open(alloc, part, outputs)?,
            recorded: 0,
        })
    }

    /// An equal moment with memories and queues of its own. `NoMemory` where they can't be allocated.
    pub fn copy(&self, alloc: Global) -> Result<Moment, NoMemory>
        ensures { IfOk result (λ m. m ≡ self.now) }
    {
        Ok(Moment {
            machine: self.machine.copy(alloc)?,
            recorded: self.recorded,
        })
    }

    /// How many events were recorded till then, at most the part's limit.
    pub fn recorded_events(&self) -> u64
        ensures { result ≡ self.now.recorded }
    {
        self.recorded
    }

    /// The part of the domain.
    pub fn part(&self) -> &Part
        ensures { result.now ≡ self.now.machine.part }
    {
        self.machine.part()
    }

    /// Answers an event as a farm does that holds the domain alone: the moment is the one after it. After a refusal, `NoSuch`
    /// or `JournalFull`, nothing has changed.
    pub fn apply(&mut self, by: By, event: Event) -> Result<Reply, Refusal>
        ensures called { (state_at self.new, result) ≡ next self.old.machine.part (state_at self.old) (record { by = by; event = event }) }
        ensures part { self.new.machine.part ≡ self.old.machine.part }
    {
        if !self.machine.has_target(by, event) {
            return Err(Refusal::NoSuch);
        }
        if self.recorded == self.machine.part().limit() {
            return Err(Refusal::JournalFull);
        }
        if let Event::Look(node) = event {
            self.recorded += 1;
            return Ok(Reply::Look(self.machine.look(node)));
        }
        let Acted { reply, recorded } = self.machine.act(event);
        if recorded {
            self.recorded += 1;
        }
        Ok(reply.reply())
    }

    /// Does up to `most` Steps of a node, for which the farm asks. It ends before the first that would not be recorded,
    /// or at the limit. `NoSuch` if there is no such node, and then nothing has changed.
    pub fn burst(&mut self, node: u8, most: u64) -> Result<Burst, Refusal>
        ensures no_such { (result ≡ Err NoSuch) ↔ (slice_get self.old.machine.devices.nodes node ≡ None) }
        ensures most { IfOk result (λ b. b.steps ≤ most) }
        ensures steps { IfOk result (λ b. LeadsOn self.old.machine.part (state_at self.old) (steps_told node b.steps b.last) (state_at self.new)) }
        ensures recorded { IfOk result (λ b. self.new.recorded ≡ self.old.recorded + b.steps) }
        ensures part { self.new.machine.part ≡ self.old.machine.part }
    {
        // A recorded Step that leaves a node which can step again ran.
        bootstrap::recorded_step_ran();
        // A machine has as many nodes as its part.
        self.machine.of_part_law();
        let Some(_home) = self.machine.node(node) else {
            return Err(Refusal::NoSuch);
        };
        let room = self.machine.part().limit() - self.recorded;
        let burst = self.machine.burst(node, at_most(most, room));
        self.recorded += burst.steps;
        Ok(burst)
    }

    /// A node, if it is there.
    pub fn node(&self, number: u8) -> Option<&Node>
        ensures { option_copied result ≡ slice_get self.now.machine.devices.nodes number }
    {
        self.machine.node(number)
    }

    /// A host, if it is there.
    pub fn host(&self, number: u8) -> Option<&Host>
        ensures { option_copied result ≡ slice_get self.now.machine.devices.hosts number }
    {
        self.machine.host(number)
    }

    /// The switch word of a virtual output below the domain's count. Nothing changes.
    pub fn word(&mut self, output: u8) -> Word
        requires { output < self.old.machine.part.count }
        ensures word { slice_get self.old.machine.switch.words output ≡ Some result }
        ensures unchanged { self.new ≡ self.old }
    {
        self.machine.word(output)
    }

    /// What waits at a virtual port, and what a Move of it would come to. Nothing changes.
    pub fn port_state(&mut self, port: u8) -> PortState
        requires { port < self.old.machine.part.count }
        ensures state { IsPortState self.old.machine.part (machine_of self.old.machine) port result }
        ensures unchanged { self.new ≡ self.old }
    {
        self.machine.port_state(port)
    }
}
