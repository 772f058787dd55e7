//! How far a record was done.

ghost use Rattle.std.specs.Prelude.{◌≡◌, ◌+◌, ◌-◌, ◌<◌, ◌≤◌, List, OnOk, IfOk, length};
ghost use Rattle.farm_records.specs.declared.line.RecordedCall.{RecordedCall};
ghost use Rattle.record_following.specs.Following.{all_said, IsMomentAfter};
ghost use Rattle.record_following.specs.RecordCursor.{said_by, IsCursor, GoesOn, GoesOnIn, ComesTo, DoesUpTo};

use crate::fault::{FollowFault, LineStop, RecordStop};
use crate::following::{CallOutcome, ReplayedDomain};
use crate::laws::moments_go_on;
use crate::line::{RecordedLine, check_answer};
use domain_core::{By, Event, NoMemory};
use farm_records::RecordedCall;
use plan_checker::AcceptedPlan;
use std::alloc::Global;
use step_meter::StepMeter;

/// The domain after the events of a record that were done, and what comes next of it.
pub struct RecordCursor {
    pub replayed: ReplayedDomain,
    /// What is left of the line that was begun last.
    pub rest: RecordedCall,
    /// Whether that line asks one event, and not several.
    pub is_one: bool,
    /// How many lines were begun.
    pub next: usize,
}

// Dropped by hand, since a derived `Drop` makes callers prove the drop of each field.
impl Drop for RecordCursor {
    fn drop(self) {
        let RecordCursor {
            replayed: _,
            rest: _,
            is_one: _,
            next: _,
        } = self;
    }
}

impl RecordCursor {
    /// Nothing was done. `NoMemory` where memories or queues can't be allocated.
    #[tactic(auto, using(crate::proofs::Led::opened_empty))]
    pub fn open(alloc: Global, plan: &AcceptedPlan) -> Result<RecordCursor, NoMemory>
        requires { length plan.now ≡ 1 }
        ensures cursor { IfOk result (λ p. (lines : List RecordedCall) → IsCursor plan.now lines p) }
        ensures recorded { IfOk result (λ p. p.replayed.recorded ≡ 0) }
        ensures next { IfOk result (λ p. p.next ≡ 0) }
        ensures rest { IfOk result (λ p. p.rest.times ≡ 0) }
    {
        Ok(RecordCursor {
            replayed: ReplayedDomain::open(alloc, plan, 0)?,
            rest: RecordedCall {
                times: 0,
                by: By::Farm,
                event: Event::Step(0),
            },
            is_one: false,
            next: 0,
        })
    }

    /// An equal cursor with memories and queues of its own. `NoMemory` where they can't be allocated.
    pub fn copy(&self) -> Result<RecordCursor, NoMemory>
        ensures { IfOk result (λ p. p ≡ self.now) }
    {
        Ok(RecordCursor {
            replayed: self.replayed.copy()?,
            rest: self.rest,
            is_one: self.is_one,
            next: self.next,
        })
    }

    // The domain where it was led.
    fn into_replayed(self) -> ReplayedDomain
        ensures { result ≡ self.replayed }
    {
        let RecordCursor {
            replayed,
            rest: _,
            is_one: _,
            next: _,
        } = self;
        replayed
    }

    // Does `times` of the events that are left of the line, at most all.
    #[tactic(auto, using(crate::proofs::Led::some_followed))]
    fn apply_repeated(&mut self, times: u64) -> Result<CallOutcome, FollowFault>
        requires { times ≤ self.old.rest.times }
        ensures cursor { IfOk result (λ outcome. GoesOn self.old self.new) }
        ensures recorded { IfOk result (λ outcome. self.new.replayed.recorded ≡ self.old.replayed.recorded + times) }
        ensures rest { IfOk result (λ outcome. self.new.rest.times ≡ self.old.rest.times - times) }
        ensures next { IfOk result (λ outcome. self.new.next ≡ self.old.next) }
    {
        // What comes next leads on to the moment after more calls.
        moments_go_on();
        let call = RecordedCall { times, ..self.rest };
        let outcome = self.replayed.apply_call(call, self.is_one)?;
        self.rest.times -= times;
        Ok(outcome)
    }

    /// Why nothing of the line can be done, if none of its events is left.
    pub fn nothing_left(&self) -> LineStop {
        LineStop::Follow(match (self.rest.by, self.rest.event) {
            (By::Farm, Event::Step(_)) => FollowFault::Fewer,
            _ => FollowFault::NoEvent,
        })
    }

    /// Does events that are left of the line, one at least: at most `most`, and of Steps no more than the meter allows before it is asked again.
    ///
    /// # Errors
    ///
    /// `Follow` with why they can't be done, as if none is left, with `Fewer` of Steps and `NoEvent` of another event; `Steps` if
    /// there are more Steps than the meter allows. After either nothing is guaranteed about the cursor.
    pub fn go_on<M: StepMeter>(&mut self, most: u64, meter: &mut M) -> Result<CallOutcome, LineStop>
        ensures done { IfOk result (λ outcome. DoesUpTo most self.old self.new) }
        ensures some { IfOk result (λ outcome. self.old.replayed.recorded < self.new.replayed.recorded) }
    {
        let wanted = self.rest.times.min(most);
        if wanted == 0 {
            return Err(self.nothing_left());
        }
        let Event::Step(_) = self.rest.event else {
            return Ok(self.apply_repeated(wanted)?);
        };
        let times = meter.allow(wanted)?;
        let outcome = self.apply_repeated(times)?;
        meter.note(times);
        Ok(outcome)
    }

    /// Does what is left of the line, or `most` of its events. What the last of them came to.
    ///
    /// # Errors
    ///
    /// Those of `go_on`. After one nothing is guaranteed about the cursor.
    pub fn apply_part<M: StepMeter>(
        &mut self,
        most: u64,
        meter: &mut M,
    ) -> Result<CallOutcome, LineStop>
        ensures done { IfOk result (λ outcome. DoesUpTo most self.old self.new) }
        ensures some { IfOk result (λ outcome. self.old.replayed.recorded < self.new.replayed.recorded) }
        ensures rest { IfOk result (λ outcome. self.new.rest.times ≡ self.old.rest.times - most) }
    {
        let begun = self.replayed.recorded_events();
        let mut outcome = self.go_on(most, meter)?;
        let mut left = most - (self.replayed.recorded_events() - begun);
        while left > 0 && self.rest.times > 0 {
            let before = self.replayed.recorded_events();
            outcome = self.go_on(left, meter)?;
            left -= self.replayed.recorded_events() - before;
        }
        Ok(outcome)
    }

    /// Does what is left of a line, or `most` of its events, and compares what the domain answers with what the line says.
    ///
    /// # Errors
    ///
    /// Those of `go_on`, and `Follow` with `Differs` if the domain answers otherwise. After either nothing is guaranteed about
    /// the cursor.
    pub fn apply_line<M: StepMeter>(
        &mut self,
        alloc: Global,
        line: &RecordedLine,
        most: u64,
        meter: &mut M,
    ) -> Result<(), LineStop>
        ensures done { OnOk result (DoesUpTo most self.old self.new) }
        ensures rest { OnOk result (self.new.rest.times ≡ self.old.rest.times - most) }
    {
        let outcome = self.apply_part(most, meter)?;
        Ok(check_answer(alloc, line, outcome.reply)?)
    }

    /// Begins the next line, when nothing is left of the one before.
    #[tactic(auto, using(crate::proofs::Led::line_begun))]
    pub fn begin_line(&mut self, lines: &[RecordedLine])
        requires rest { self.old.rest.times ≡ 0 }
        requires next { self.old.next < length lines.now }
        ensures cursor { GoesOnIn (said_by lines.now) self.old self.new }
        ensures replayed { self.new.replayed ≡ self.old.replayed }
        ensures next { self.new.next ≡ self.old.next + 1 }
    {
        self.rest = lines[self.next].call;
        self.is_one = self.rest.times == 1;
        self.next += 1;
    }

    /// The line that is to be done: the one that was begun, or the next one, which is begun if nothing is left of the one before.
    /// `None` at the end of the record.
    pub fn line_to_do<'a>(&mut self, lines: &[RecordedLine<'a>]) -> Option<RecordedLine<'a>>
        ensures cursor { GoesOnIn (said_by lines.now) self.old self.new }
        ensures replayed { self.new.replayed ≡ self.old.replayed }
    {
        if self.rest.times == 0 {
            if self.next >= lines.len() {
                return None;
            }
            self.begin_line(lines);
        }
        lines.get(self.next.checked_sub(1)?).copied()
    }

    // Does what is left of the line, up to this event of the record.
    fn apply_rest(&mut self, event: u64) -> Result<(), FollowFault>
        requires { self.old.replayed.recorded ≤ event }
        ensures cursor { OnOk result (GoesOn self.old self.new) }
        ensures within { OnOk result (self.new.replayed.recorded ≤ event) }
        ensures stops { OnOk result (self.new.replayed.recorded < event → self.new.rest.times ≡ 0) }
        ensures next { OnOk result (self.new.next ≡ self.old.next) }
    {
        let times = self.rest.times.min(event - self.replayed.recorded_events());
        if times > 0 {
            self.apply_repeated(times)?;
        }
        Ok(())
    }

    /// Goes on to the moment after `event` events of a record whose answers were compared before, or to its end. After an error
    /// nothing is guaranteed about the cursor.
    #[tactic(auto, using(crate::proofs::Led::led))]
    pub fn lead(&mut self, lines: &[RecordedLine], event: u64) -> Result<(), FollowFault>
        requires { self.old.replayed.recorded ≤ event }
        ensures cursor { OnOk result (GoesOnIn (said_by lines.now) self.old self.new) }
        ensures there { OnOk result (ComesTo (said_by lines.now) event self.old self.new) }
    {
        self.apply_rest(event)?;
        while self.next < lines.len() && self.replayed.recorded_events() < event {
            self.begin_line(lines);
            self.apply_rest(event)?;
        }
        Ok(())
    }
}

/// The only domain of a plan, led from its opening by the lines of its record.
///
/// # Errors
///
/// `Record` with the first line whose event the domain refuses, doesn't record or answers otherwise, and with `Memory`; `Steps`
/// if the lines have more Steps than the meter allows.
pub fn apply_record<M: StepMeter>(
    alloc: Global,
    plan: &AcceptedPlan,
    lines: &[RecordedLine],
    meter: &mut M,
) -> Result<ReplayedDomain, RecordStop>
    requires { length plan.now ≡ 1 }
    ensures { IfOk result (λ f. IsMomentAfter plan.now 0 (all_said (said_by lines.now)) f) }
{
    let mut cursor = RecordCursor::open(alloc, plan)?;
    while cursor.next < lines.len() {
        let line = lines[cursor.next];
        cursor.begin_line(lines);
        let all = cursor.rest.times;
        if let Err(stop) = cursor.apply_line(alloc, &line, all, meter) {
            return Err(stop.at(line.number));
        }
    }
    Ok(cursor.into_replayed())
}
