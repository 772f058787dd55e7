//! A domain does again what a line of a record says.
ghost use Rattle.std.specs.Prelude.{◌≡◌, ◌≤◌, ◌∷◌, [], replicate, IfOk, OnOk};
ghost use Rattle.t414_step.specs.declared.stepping.Stepped.TheVariants.{Ran};
ghost use Rattle.domain_core.specs.declared.event.By.TheVariants.{Farm};
ghost use Rattle.domain_core.specs.Journal.{answered_step};
ghost use Rattle.farm_records.specs.RecordText.{line_history, line_of_call};
ghost use Rattle.farm_records.specs.Records.{GainsHistory, RedoesLine};

use crate::fault::RedoFault;
use crate::known_lines::{KnownLines, LineMeaning};
use crate::line::{CallLine, RecordedCall, read_call};
use crate::node_loop::NodeLoop;
use crate::watch::ReplayWatch;
use crate::writing::write_line;
use crossbar::Outputs;
use domain_core::{By, Committed, Domain, Event, Refusal, Reply, Ticket};
use lab_words::WordFault;
use std::alloc::Global;
use t414_step::Stepped;

/// The most nodes of a domain.
const MOST_NODES: usize = 8;

/// What serves one line after another: a ticket for Steps, the loops in which nodes are, the lines that may come again, a text to
/// compare with, and who watches.
pub struct Redoing<'a, W: ReplayWatch> {
    alloc: Global,
    watch: &'a W,
    ticket: Option<Ticket>,
    loops: [NodeLoop; MOST_NODES],
    known: KnownLines,
    text: String,
}

// Dropped by hand, since a derived `Drop` makes callers prove the drop of each field.
impl<W: ReplayWatch> Drop for Redoing<'_, W> {
    fn drop(self) {
        let Redoing {
            alloc: _,
            watch: _,
            ticket: _,
            loops: _,
            known: _,
            text: _,
        } = self;
    }
}

impl<'a, W: ReplayWatch> Redoing<'a, W> {
    /// It takes no memory yet.
    pub fn new(alloc: Global, watch: &'a W) -> Redoing<'a, W> {
        Redoing {
            alloc,
            watch,
            ticket: None,
            loops: [NodeLoop::none(); MOST_NODES],
            known: KnownLines::new(alloc),
            text: String::new(alloc),
        }
    }
}

impl From<Refusal> for RedoFault {
    fn from(refusal: Refusal) -> RedoFault {
        match refusal {
            Refusal::NoMemory => RedoFault::Memory(domain_core::NoMemory),
            Refusal::NoSuch | Refusal::JournalFull => RedoFault::Differs,
        }
    }
}

// The call that a line says with an answer. What the answer is isn't looked at here.
fn call_of(alloc: Global, line: &[u8]) -> Result<RecordedCall, RedoFault> {
    let Ok(text) = std::str::from_utf8(line) else {
        return Err(RedoFault::NoLine);
    };
    match read_call(alloc, text) {
        Ok(
            Some(
                CallLine {
                    call,
                    answer: Some(_),
                    ..
                },
            ),
        ) => Ok(call),
        Ok(_) | Err(WordFault::Wrong(_)) => Err(RedoFault::NoLine),
        Err(WordFault::Memory(error)) => Err(RedoFault::Memory(error)),
    }
}

// Does an event that is recorded.
fn redo_event<O: Outputs + Drop>(
    alloc: Global,
    domain: &mut Domain<O>,
    by: By,
    event: Event,
) -> Result<Reply, RedoFault>
    ensures { IfOk result (λ reply.
        GainsHistory (record { call = record { by = by; event = event }; reply = reply } ∷ []) domain.old domain.new) }
{
    let before = domain.recorded_events();
    let reply = domain.apply(alloc, by, event)?;
    if domain.recorded_events() == before {
        return Err(RedoFault::Differs);
    }
    Ok(reply)
}

// Does Steps of a node in one burst, in which periods are counted. All of them ran.
fn redo_burst<O: Outputs + Drop>(
    alloc: Global,
    domain: &mut Domain<O>,
    slot: &mut Option<Ticket>,
    known: &mut NodeLoop,
    node: u8,
    times: u64,
) -> Result<(), RedoFault>
    ensures { OnOk result (GainsHistory (replicate times (answered_step Farm node Ran)) domain.old domain.new) }
{
    domain.checkout_to(alloc, slot, 0, node)?;
    let Some(ticket) = slot else {
        return Err(RedoFault::Differs);
    };
    known.begin(ticket, times);
    ticket.burst_by_periods(times.saturating_sub(ticket.steps()));
    if ticket.steps() != times || ticket.last() != Some(Stepped::Ran) {
        return Err(RedoFault::Differs);
    }
    match domain.commit_in_place(alloc, ticket)? {
        Committed::Done => Ok(()),
        Committed::Stale => Err(RedoFault::Differs),
    }
}

// Does Steps of a node, at least one, in as many bursts as what is known of its loop says, and tells who watches of each. All of
// them ran.
#[tactic(auto, using(crate::proofs::Steps::more_steps))]
fn redo_steps<O: Outputs + Drop, W: ReplayWatch>(
    alloc: Global,
    watch: &W,
    domain: &mut Domain<O>,
    slot: &mut Option<Ticket>,
    known: &mut NodeLoop,
    node: u8,
    times: u64,
) -> Result<(), RedoFault>
    ensures gains { OnOk result (GainsHistory (replicate times (answered_step Farm node Ran)) domain.old domain.new) }
    ensures some { OnOk result (1 ≤ times) }
{
    if times == 0 {
        return Err(RedoFault::Differs);
    }
    let mut done = known.first_steps(times);
    redo_burst(alloc, domain, slot, known, node, done)?;
    watch.note_steps(done);
    while done < times {
        if !watch.goes_on() {
            return Err(RedoFault::Ended);
        }
        let more = known.next_steps(done, times - done);
        redo_burst(alloc, domain, slot, known, node, more)?;
        watch.note_steps(more);
        done += more;
    }
    Ok(())
}

// Whether a user asks for a command, or the farm itself for a Step or a Move: no farm records another call.
fn is_rightly_asked(by: By, event: Event) -> bool {
    match event {
        Event::Step(_) | Event::Move(_) => by == By::Farm,
        Event::Config(_) | Event::Write(_, _) | Event::Read(_) | Event::Reset(_) | Event::Look(_) =>
            by != By::Farm,
    }
}

// Does a call as often as it was made. `NoLine` if it was made several times, unless it is a Step.
fn redo_call<O: Outputs + Drop, W: ReplayWatch>(
    alloc: Global,
    watch: &W,
    domain: &mut Domain<O>,
    slot: &mut Option<Ticket>,
    loops: &mut [NodeLoop; MOST_NODES],
    call: RecordedCall,
) -> Result<Reply, RedoFault>
    ensures gains { IfOk result (λ reply. GainsHistory (line_history (record {
      times = call.times;
      answered = record { call = record { by = call.by; event = call.event }; reply = reply };
    })) domain.old domain.new) }
    ensures some { OnOk result (1 ≤ call.times) }
{
    let RecordedCall { times, by, event } = call;
    if !is_rightly_asked(by, event) {
        return Err(RedoFault::NoLine);
    }
    match (times, by, event) {
        (1, _, _) => redo_event(alloc, domain, by, event),
        (_, By::Farm, Event::Step(node)) => {
            let Some(known) = loops.get_mut(usize::from(node)) else {
                return Err(RedoFault::Differs);
            };
            redo_steps(alloc, watch, domain, slot, known, node, times)?;
            Ok(Reply::Stepped(Stepped::Ran))
        }
        _ => Err(RedoFault::NoLine),
    }
}

// Does again what a line says that is kept.
fn redo_known<O: Outputs + Drop, W: ReplayWatch>(
    redoing: &mut Redoing<'_, W>,
    domain: &mut Domain<O>,
    meaning: LineMeaning,
) -> Result<(), RedoFault>
    ensures gains { OnOk result (GainsHistory (line_history (line_of_call meaning.call meaning.reply)) domain.old domain.new) }
    ensures some { OnOk result (1 ≤ meaning.call.times) }
{
    let (alloc, watch) = (redoing.alloc, redoing.watch);
    let LineMeaning { call, reply } = meaning;
    if redo_call(
        alloc,
        watch,
        domain,
        &mut redoing.ticket,
        &mut redoing.loops,
        call,
    )? == reply
    {
        Ok(())
    } else {
        Err(RedoFault::Differs)
    }
}

// Does again what a line says that isn't kept yet, and keeps it.
fn redo_new<O: Outputs + Drop, W: ReplayWatch>(
    redoing: &mut Redoing<'_, W>,
    domain: &mut Domain<O>,
    line: &[u8],
) -> Result<(), RedoFault>
    ensures { OnOk result (RedoesLine line.now domain.old domain.new) }
{
    let (alloc, watch) = (redoing.alloc, redoing.watch);
    let call = call_of(alloc, line)?;
    let reply = redo_call(
        alloc,
        watch,
        domain,
        &mut redoing.ticket,
        &mut redoing.loops,
        call,
    )?;
    let text = &mut redoing.text;
    text.clear();
    write_line(text, call.times, call.by, call.event, reply)?;
    if text.as_bytes() != line {
        return Err(RedoFault::Differs);
    }
    redoing
        .known
        .keep(alloc, redoing.text.as_str(), LineMeaning { call, reply })?;
    Ok(())
}

/// Does again what a line says, with its line feed, and compares what the domain answers. The Steps of one line are done in
/// bursts, in which the periods of an endless loop are counted and not done. Of the farm's own lines the last few are kept: what
/// such a line says needs no reading when it comes again, and its answer is compared as a value and not as a text.
///
/// # Errors
///
/// `NoLine` if it isn't a line of a record, as a command of the farm itself or a Step of a user isn't, or not in its only
/// form, and `Differs` if the domain answers otherwise or doesn't record it; `Ended` if who watches ends it; `Memory`. The domain may then have done what the
/// line says, or some of its Steps.
pub fn redo_line<O: Outputs + Drop, W: ReplayWatch>(
    redoing: &mut Redoing<'_, W>,
    domain: &mut Domain<O>,
    line: &[u8],
) -> Result<(), RedoFault>
    ensures { OnOk result (RedoesLine line.now domain.old domain.new) }
{
    if !redoing.watch.goes_on() {
        return Err(RedoFault::Ended);
    }
    match redoing.known.find(line) {
        Some(meaning) => {
            redo_known(redoing, domain, meaning)?;
            Ok(())
        }
        None => redo_new(redoing, domain, line),
    }
}
