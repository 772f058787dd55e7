//! A domain is led to a moment by the lines of its record.

ghost use Rattle.std.specs.Prelude.{◌≡◌, ◌<◌, ◌∷◌, [], IfOk, length, slice_get};
ghost use Rattle.std.specs.Option.{option_copied};
ghost use Rattle.plan_rules.specs.Part.{part_of};
ghost use Rattle.domain_core.specs.MachineValue.{machine_of};
ghost use Rattle.domain_core.specs.Moments.{state_at};
ghost use Rattle.domain_core.specs.PortStates.{IsPortState};
ghost use Rattle.domain_core.specs.PrivateFarm.{opening};
ghost use Rattle.record_following.specs.Following.{calls_said, MovesOn, IsMomentAfter};

use crate::before_event::{Observed, code_end_of, note_event, seen_before, zeros_behind};
use crate::fault::FollowFault;
use crate::notes::EventNotes;
use crate::trail::Trail;
use bootstrap::Node;
use crossbar::Word;
use domain_core::laws::histories_grow;
use domain_core::{By, Event, Host, Moment, NoMemory, PortState, Reply};
use farm_records::RecordedCall;
use plan_checker::AcceptedPlan;
use plan_rules::Part;
use std::alloc::Global;
use std::marker::Model;
use t414_step::Stepped;

/// A domain at the moment to which its record leads, and what was noted on the way.
pub struct ReplayedDomain {
    alloc: Global,
    moment: Moment,
    notes: EventNotes,
    trail: Trail,
}

// Dropped by hand, since a derived `Drop` makes callers prove the drop of each field.
impl Drop for ReplayedDomain {
    fn drop(self) {
        let ReplayedDomain {
            alloc: _,
            moment: _,
            notes: _,
            trail: _,
        } = self;
    }
}

impl Model for ReplayedDomain {
    ghost use Rattle.domain_core.specs.Moments.{MomentValue};

    ghost Value = { MomentValue };

    ghost view = { λ f. f.moment };
}

/// What a call came to.
#[derive(Clone, Copy)]
pub struct CallOutcome {
    /// The answer, of several Steps that to each.
    pub reply: Reply,
    /// What waited at the port of a Move before it.
    pub port: Option<PortState>,
}

impl ReplayedDomain {
    /// The domain of this number of a plan as it is opened. `NoMemory` where memories or queues can't be allocated.
    #[tactic(auto, using(crate::proofs::Followed::opened))]
    pub fn open(alloc: Global, plan: &AcceptedPlan, number: u8) -> Result<ReplayedDomain, NoMemory>
        requires { number < length plan.now }
        ensures after { IfOk result (λ f. IsMomentAfter plan.now number [] f) }
    {
        Ok(ReplayedDomain {
            alloc,
            moment: Moment::open(alloc, plan, number)?,
            notes: EventNotes::new(),
            trail: Trail::new(),
        })
    }

    /// How many events were recorded till then.
    pub fn recorded_events(&self) -> u64
        ensures { result ≡ self.now.recorded }
    {
        self.moment.recorded_events()
    }

    /// What was noted on the way.
    pub fn notes(&self) -> &EventNotes {
        &self.notes
    }

    /// An equal replayed domain with memories and queues of its own. `NoMemory` where they can't be allocated.
    pub fn copy(&self) -> Result<ReplayedDomain, NoMemory>
        ensures { IfOk result (λ f. f ≡ self.now) }
    {
        Ok(ReplayedDomain {
            alloc: self.alloc,
            moment: self.moment.copy(self.alloc)?,
            notes: self.notes,
            trail: Trail::new(),
        })
    }

    /// A copy of the moment. `NoMemory` where it can't be allocated.
    pub fn moment(&self) -> Result<Moment, NoMemory>
        ensures { IfOk result (λ m. m ≡ self.now) }
    {
        self.moment.copy(self.alloc)
    }

    // Does one event, which is recorded.
    pub(crate) fn apply_event(&mut self, by: By, event: Event) -> Result<CallOutcome, FollowFault>
        ensures { IfOk result (λ outcome. MovesOn self.old (record { by = by; event = event } ∷ []) self.new) }
    {
        // What comes next makes a history longer.
        histories_grow();
        let before = self.moment.recorded_events();
        let times = 1;
        let before_event = seen_before(&mut self.moment, event)?;
        let call = RecordedCall { times, by, event };
        self.trail.note(self.alloc, &self.moment, call)?;
        let reply = self.moment.apply(by, event)?;
        let after = self.moment.recorded_events();
        if after <= before || after - before != 1 {
            return Err(FollowFault::NotRecorded);
        }
        let zeros = zeros_behind(self.alloc, &self.moment, &self.trail, before_event, reply)?;
        let seen = Observed {
            before_event,
            zeros,
        };
        note_event(&mut self.notes, &self.moment, seen, event, reply, after);
        Ok(CallOutcome {
            reply,
            port: before_event.port(),
        })
    }

    // Does Steps of a node in one burst. `Fewer` if not all of them run.
    pub(crate) fn apply_steps(&mut self, node: u8, times: u64) -> Result<Reply, FollowFault>
        ensures { IfOk result (λ reply. MovesOn self.old (calls_said (record { times = times; by = By.Farm; event = Event.Step node })) self.new) }
    {
        let code_end = match self.moment.node(node) {
            Some(node) => code_end_of(node),
            None => None,
        };
        let call = RecordedCall {
            times,
            by: By::Farm,
            event: Event::Step(node),
        };
        self.trail.note(self.alloc, &self.moment, call)?;
        let burst = self.moment.burst(node, times)?;
        if burst.steps != times || burst.last != Some(Stepped::Ran) {
            return Err(FollowFault::Fewer);
        }
        self.notes.note_steps(node, times, code_end);
        Ok(Reply::Stepped(Stepped::Ran))
    }

    // Does a call as often as it says. `NoEvent` if the call is a part of a line of several events, unless it is of Steps for which
    // the farm asks. After an error nothing is guaranteed about the moment.
    pub(crate) fn apply_call(
        &mut self,
        call: RecordedCall,
        is_one: bool,
    ) -> Result<CallOutcome, FollowFault>
        ensures { IfOk result (λ outcome. MovesOn self.old (calls_said call) self.new) }
    {
        let RecordedCall { times, by, event } = call;
        match (times, by, event) {
            (1, _, _) if is_one => self.apply_event(by, event),
            (_, By::Farm, Event::Step(node)) => {
                let reply = self.apply_steps(node, times)?;
                Ok(CallOutcome { reply, port: None })
            }
            _ => Err(FollowFault::NoEvent),
        }
    }

    /// The part of the domain.
    pub fn part(&self) -> &Part
        ensures { result.now ≡ self.now.machine.part }
    {
        self.moment.part()
    }

    /// A node, if it is there.
    pub fn node(&self, number: u8) -> Option<&Node>
        ensures { option_copied result ≡ slice_get self.now.machine.devices.nodes number }
    {
        self.moment.node(number)
    }

    /// A host, if it is there.
    pub fn host(&self, number: u8) -> Option<&Host>
        ensures { option_copied result ≡ slice_get self.now.machine.devices.hosts number }
    {
        self.moment.host(number)
    }

    /// The switch word of a virtual output below the domain's count. Nothing changes.
    pub fn word(&mut self, output: u8) -> Word
        requires { output < self.old.machine.part.count }
        ensures word { slice_get self.old.machine.switch.words output ≡ Some result }
        ensures unchanged { self.new ≡ self.old }
    {
        self.moment.word(output)
    }

    /// What waits at a virtual port, and what a Move of it would come to. Nothing changes.
    pub fn port_state(&mut self, port: u8) -> PortState
        requires { port < self.old.machine.part.count }
        ensures state { IsPortState self.old.machine.part (machine_of self.old.machine) port result }
        ensures unchanged { self.new ≡ self.old }
    {
        self.moment.port_state(port)
    }
}
