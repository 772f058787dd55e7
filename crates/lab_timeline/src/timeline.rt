//! A record at any of its moments.

ghost use Rattle.std.specs.Prelude.{◌≡◌, ◌<◌, ◌≤◌, IfOk, IfSome, OnOk, All, length};
ghost use Rattle.domain_core.specs.MachineValue.{machine_of};
ghost use Rattle.domain_core.specs.PortStates.{IsPortState};
ghost use Rattle.record_following.specs.Following.{all_said};
ghost use Rattle.record_following.specs.RecordCursor.{said_by, IsMomentAt, IsCursor, GoesOn};
ghost use Rattle.lab_timeline.specs.Advance.{KeepsOf, IsOfKept, Begins};

use domain_core::{NoMemory, PortState, Reply};
use plan_checker::AcceptedPlan;
use record_following::laws::cursor_ends;
use record_following::{
    FollowFault, LineStop, Record, RecordCursor, RecordStop, RecordedLine, ReplayedDomain,
    check_answer, read_record,
};
use std::alloc::Global;
use std::marker::Model;
use step_meter::StepMeter;

/// How many moments are kept of a record, at most.
const MOST_KEPT: u64 = 128;

/// How many Steps of a line count as one event when it is asked where moments are kept.
const STEPS_AS_ONE: u64 = 128;

/// A record, and its domain at one of its moments. Moments are kept on the way, so that each is found again soon.
pub struct Timeline<'a> {
    plan: AcceptedPlan,
    lines: Vec<RecordedLine<'a>>,
    is_cut: bool,
    events: u64,
    opening: RecordCursor,
    kept: Vec<RecordCursor>,
    here: RecordCursor,
    // Whether `here` is a moment of the record. After an error it may be none.
    is_led: bool,
}

// Dropped by hand, since a derived `Drop` makes callers prove the drop of each field.
impl Drop for Timeline<'_> {
    fn drop(self) {
        let Timeline {
            plan: _,
            lines: _,
            is_cut: _,
            events: _,
            opening: _,
            kept: _,
            here: _,
            is_led: _,
        } = self;
    }
}

impl<'a> Model for Timeline<'a> {
    ghost use Rattle.record_following.specs.RecordCursor.{said_by};
    ghost use Rattle.lab_timeline.specs.Timeline.{TimelineValue};
    ghost use Rattle.lab_timeline.specs.Advance.{IsTimeline};

    ghost Value = { TimelineValue };

    ghost view = { λ t. record { plan = t.plan; lines = said_by t.lines.items; here = t.here.replayed } };

    ghost invariant = { λ t. IsTimeline t.plan (said_by t.lines.items) t.opening t.kept.items t.is_led t.here };
}

/// Moments that are kept on the way through a record.
#[derive(Drop)]
struct Keeping {
    kept: Vec<RecordCursor>,
    // How much is done from one to the next.
    gap: u64,
    // How much was done since the last one.
    since: u64,
}

// How much there is to do for events of one line: Steps are done fast.
fn work_of(times: u64) -> u64 {
    (times / STEPS_AS_ONE).saturating_add(1)
}

// How much is done from one kept moment to the next.
fn gap_of(lines: &[RecordedLine]) -> u64
    ensures { 1 ≤ result }
{
    let mut work: u64 = 0;
    for line in lines {
        work = work.saturating_add(work_of(line.call.times));
    }
    (work / MOST_KEPT).saturating_add(1)
}

impl Keeping {
    // How many Steps of a line are done next at most: as many as before a moment is kept.
    fn most(&self) -> u64
        ensures { 1 ≤ result }
    {
        let work = self.gap.saturating_sub(self.since).max(1);
        work.saturating_mul(STEPS_AS_ONE)
    }

    // Keeps a moment if enough was done since the last.
    fn note(&mut self, here: &RecordCursor, work: u64) -> Result<(), NoMemory>
        ensures { OnOk result (KeepsOf here.now self.old.kept.items self.new.kept.items) }
    {
        self.since = self.since.saturating_add(work);
        if self.since >= self.gap {
            self.since = 0;
            self.kept.push(here.copy()?)?;
        }
        Ok(())
    }

    // Does events that are left of a line, keeps a moment after them if enough was done, and gives the answer.
    fn go_on<M: StepMeter>(
        &mut self,
        here: &mut RecordCursor,
        meter: &mut M,
    ) -> Result<Reply, LineStop>
        ensures cursor { IfOk result (λ reply. GoesOn here.old here.new) }
        ensures kept { IfOk result (λ reply. KeepsOf here.new self.old.kept.items self.new.kept.items) }
        ensures less { IfOk result (λ reply. here.new.rest.times < here.old.rest.times) }
        ensures next { IfOk result (λ reply. here.new.next ≡ here.old.next) }
    {
        let before = here.replayed.recorded_events();
        let outcome = here.go_on(self.most(), meter)?;
        self.note(here, work_of(here.replayed.recorded_events() - before))?;
        Ok(outcome.reply)
    }

    // Does a line that was begun, compares what the domain answers with what it says, and keeps moments on the way.
    fn finish_line<M: StepMeter>(
        &mut self,
        alloc: Global,
        here: &mut RecordCursor,
        line: &RecordedLine,
        meter: &mut M,
    ) -> Result<(), LineStop>
        ensures cursor { OnOk result (GoesOn here.old here.new) }
        ensures kept { OnOk result (KeepsOf here.old self.old.kept.items self.new.kept.items) }
        ensures rest { OnOk result (here.new.rest.times ≡ 0) }
        ensures next { OnOk result (here.new.next ≡ here.old.next) }
    {
        let mut reply = self.go_on(here, meter)?;
        while here.rest.times > 0 {
            reply = self.go_on(here, meter)?;
        }
        Ok(check_answer(alloc, line, reply)?)
    }

    // Does all lines of a record.
    fn do_lines<M: StepMeter>(
        &mut self,
        alloc: Global,
        plan: &AcceptedPlan,
        lines: &[RecordedLine],
        meter: &mut M,
    ) -> Result<RecordCursor, RecordStop>
        requires one { length plan.now ≡ 1 }
        requires none { All (IsCursor plan.now (said_by lines.now)) self.old.kept.items }
        ensures cursor { IfOk result (λ here. IsCursor plan.now (said_by lines.now) here) }
        ensures end { IfOk result (λ here. IsMomentAt plan.now (said_by lines.now) (length (all_said (said_by lines.now))) here.replayed) }
        ensures kept { IfOk result (λ here. All (IsCursor plan.now (said_by lines.now)) self.new.kept.items) }
    {
        // If nothing is left of a record, all its calls were done.
        cursor_ends();
        let mut here = RecordCursor::open(alloc, plan)?;
        while here.next < lines.len() {
            let line = lines[here.next];
            here.begin_line(lines);
            if let Err(fault) = self.finish_line(alloc, &mut here, &line, meter) {
                return Err(fault.at(line.number));
            }
        }
        Ok(here)
    }
}

// The kept moment nearest to an event that doesn't come after it.
fn nearest<'b>(opening: &'b RecordCursor, kept: &'b [RecordCursor], event: u64) -> &'b RecordCursor
    requires { opening.now.replayed.recorded ≤ event }
    ensures cursor { IsOfKept opening.now kept.now result.now }
    ensures before { result.now.replayed.recorded ≤ event }
{
    let mut found = opening;
    for cursor in kept {
        if cursor.replayed.recorded_events() <= event {
            found = cursor;
        }
    }
    found
}

// Begins at the moment that is shown, if that is one of the record, doesn't come after the event and doesn't come before
// the kept moment. Else begins at the kept moment.
fn begin(
    here: &mut RecordCursor,
    is_led: bool,
    near: &RecordCursor,
    event: u64,
) -> Result<(), NoMemory>
    requires { near.now.replayed.recorded ≤ event }
    ensures cursor { OnOk result (Begins is_led here.old near.now here.new) }
    ensures before { OnOk result (here.new.replayed.recorded ≤ event) }
{
    let recorded = here.replayed.recorded_events();
    if is_led && recorded <= event && recorded >= near.replayed.recorded_events() {
        return Ok(());
    }
    *here = near.copy()?;
    Ok(())
}

impl<'a> Timeline<'a> {
    /// Reads a record, does all its lines, and is at its end then. What comes after its last line feed is left out.
    ///
    /// # Errors
    ///
    /// `Record` with `NoMark` if the text has no line `---`, with `Plan` and `Domains` if what comes before that line is no
    /// plan of one domain, with `Line` and the first line that isn't one of this domain's record, and with `Memory`;
    /// `Steps` if its lines have more Steps than the meter allows.
    pub fn open<M: StepMeter>(
        alloc: Global,
        text: &'a [u8],
        meter: &mut M,
    ) -> Result<Timeline<'a>, RecordStop>
        ensures end { IfOk result (λ t. IsMomentAt t.plan t.lines (length (all_said t.lines)) t.here) }
    {
        let Record {
            plan,
            lines,
            is_cut,
        } = read_record(alloc, text, u64::MAX)?;
        let mut keeping = Keeping {
            kept: Vec::new(alloc),
            gap: gap_of(lines.as_slice()),
            since: 0,
        };
        let opening = RecordCursor::open(alloc, &plan)?;
        let here = keeping.do_lines(alloc, &plan, lines.as_slice(), meter)?;
        let Keeping { kept, .. } = keeping;
        Ok(Timeline {
            plan,
            lines,
            is_cut,
            events: here.replayed.recorded_events(),
            opening,
            kept,
            here,
            is_led: true,
        })
    }

    /// The plan of the record, of one domain.
    pub fn plan(&self) -> &AcceptedPlan
        ensures plan { result.now ≡ self.now.plan }
        ensures one { length result.now ≡ 1 }
    {
        &self.plan
    }

    /// The lines of the record.
    pub fn lines(&self) -> &[RecordedLine<'a>]
        ensures { said_by result.now ≡ self.now.lines }
    {
        self.lines.as_slice()
    }

    /// How many events the record has.
    pub fn events(&self) -> u64 {
        self.events
    }

    /// Whether something came after the last line feed of the record.
    pub fn is_cut(&self) -> bool {
        self.is_cut
    }

    /// The domain at the moment that is shown, and what was noted on the way to it.
    pub fn here(&self) -> &ReplayedDomain
        ensures { result.now ≡ self.now.here }
    {
        &self.here.replayed
    }

    /// What waits at a virtual port at the moment that is shown. `None` if there is no such port. Nothing changes.
    pub fn port_state(&mut self, port: u8) -> Option<PortState>
        ensures state { IfSome result (λ state. IsPortState self.old.here.machine.part (machine_of self.old.here.machine) port state) }
        ensures unchanged { self.new ≡ self.old }
    {
        if port < self.here.replayed.part().count() {
            Some(self.here.replayed.port_state(port))
        } else {
            None
        }
    }

    /// The line that comes next, with as many events as are left of it, unless none is left.
    pub fn upcoming(&self) -> Option<RecordedLine<'a>> {
        let rest = self.here.rest;
        if rest.times == 0 {
            return self.lines.get(self.here.next).copied();
        }
        let mut line = self.lines.get(self.here.next.checked_sub(1)?).copied()?;
        line.call = rest;
        Some(line)
    }

    /// The event of the nearest kept moment that doesn't come after this event.
    pub fn kept_before(&self, event: u64) -> u64
        ensures { result ≤ event }
    {
        nearest(&self.opening, self.kept.as_slice(), event)
            .replayed
            .recorded_events()
    }

    /// Goes to the moment after the first `event` events of the record, or to its end if it has fewer. After an error
    /// nothing is guaranteed about the moment that is shown.
    #[tactic(auto, using(crate::proofs::Led::unled, crate::proofs::Led::led_on, crate::proofs::Led::come_to))]
    pub fn go(&mut self, event: u64) -> Result<(), FollowFault>
        ensures state { OnOk result (IsMomentAt self.new.plan self.new.lines event self.new.here) }
        ensures plan { self.new.plan ≡ self.old.plan }
        ensures lines { self.new.lines ≡ self.old.lines }
    {
        let near = nearest(&self.opening, self.kept.as_slice(), event);
        let is_led = self.is_led;
        self.is_led = false;
        begin(&mut self.here, is_led, near, event)?;
        self.here.lead(self.lines.as_slice(), event)?;
        self.is_led = true;
        Ok(())
    }
}
