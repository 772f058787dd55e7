//! A domain's thread: it answers the lines that come to its mailbox.
ghost use Rattle.std.specs.Prelude.{◌≡◌, ◌≢◌, ◌<◌, false, is_some, length, IfOk, IfSome, OnOk, string_bytes};
ghost use Rattle.live_farm.specs.Groups.{AllStay, TellsUnrecorded, TellsFull, may_be_answered};
ghost use Rattle.live_farm.specs.LineRooms.{LacksDomainRoom, LacksRoom};
ghost use Rattle.live_farm.specs.LiveTexts.{IsNoteOf};
ghost use Rattle.live_farm.specs.Served.{AnswersKept, PutsAnswer};

use crate::answering::{QueuedAnswer, answer_queued};
use crate::asked::AskedCommands;
use crate::group::UserGroup;
use crate::mailbox::{Mail, Mailbox};
use crate::outlet::SharedOutlet;
use crate::queued::{QueuedLine, QueuedRequest};
use crate::record::{
    RecordOutputs, RecordSizes, RecordState, SharedRecord, keep_and_tell, trim_and_tell,
};
use crate::replay::Replay;
use crate::room::{commands_of, has_record_room, has_room, is_used_up, most_journal};
use crate::texts::{
    LiveAnswer, NotDone, RestNote, error_answer, error_answer_in, note_answer, rest_notice,
};
use domain_core::NoMemory;
use farm_service::{RestCause, RoomStatus};
use live_lines::LiveRequest;
use record_files::{Notices, ReplayMeter, ReplayOutputs, names_of};
use std::alloc::Global;
use std::mem;
use std::sync::atomic::{AtomicBool, AtomicU64, Ordering};
use std::sync::{Mutex, Wait};

/// How many bytes are kept for the answer to a line for which there is no memory.
const SPARE_BYTES: usize = 1024;

/// What bounds a domain beside its room.
#[derive(Clone, Copy)]
pub struct DomainBounds {
    /// How many bytes its records may take.
    pub record_room: u64,
    /// How many events its nodes may record after a line of its users.
    pub line_steps: u64,
}

/// A domain with what its thread needs.
pub struct Station<'a> {
    /// The lines that wait.
    pub mailbox: Mailbox,
    /// How far the record that was there is replayed.
    pub meter: ReplayMeter,
    // Its thread holds the lock as long as it runs.
    group: Mutex<UserGroup<'a>>,
    answered: Vec<AtomicU64>,
    out_of_memory: AtomicBool,
    // How it is with its record: whether something isn't recorded, and whether the record can't be taken.
    unrecorded: AtomicBool,
    out: AtomicBool,
    // How many bytes its records take, and how many they may take.
    record_bytes: AtomicU64,
    record_room: u64,
    // How many events its nodes may record after a line of its users.
    line_steps: u64,
    // Whether its users were sent the note that it rests.
    rest_is_told: AtomicBool,
}

// Dropped by hand, since a derived `Drop` makes callers prove the drop of each field.
impl Drop for Station<'_> {
    fn drop(self) {
        let Station {
            mailbox: _,
            meter: _,
            group: _,
            answered: _,
            out_of_memory: _,
            unrecorded: _,
            out: _,
            record_bytes: _,
            record_room: _,
            line_steps: _,
            rest_is_told: _,
        } = self;
    }
}

impl<'a> Station<'a> {
    /// The station of a domain's users.
    pub fn new(
        alloc: Global,
        group: UserGroup<'a>,
        bounds: DomainBounds,
    ) -> Result<Station<'a>, NoMemory> {
        let answered = counts_of(alloc, group.users())?;
        Ok(Station {
            mailbox: Mailbox::new(alloc)?,
            meter: ReplayMeter::new(),
            group: Mutex::new(group),
            answered,
            out_of_memory: AtomicBool::new(false),
            unrecorded: AtomicBool::new(false),
            out: AtomicBool::new(false),
            record_bytes: AtomicU64::new(0),
            record_room: bounds.record_room,
            line_steps: bounds.line_steps,
            rest_is_told: AtomicBool::new(false),
        })
    }

    /// How many bytes its records take, as was noted last.
    pub fn record_bytes(&self) -> u64 {
        self.record_bytes.load(Ordering::SeqCst)
    }

    /// How many bytes its records may take.
    pub fn record_room(&self) -> u64
        ensures { result ≡ self.now.record_room }
    {
        self.record_room
    }

    /// Notes how many bytes its records take.
    pub fn note_sizes(&self, sizes: RecordSizes) {
        self.record_bytes.store(sizes.all(), Ordering::SeqCst);
    }

    /// How many lines of a user were answered.
    pub fn answered_lines(&self, user: u8) -> u64 {
        match self.answered.get(usize::from(user)) {
            Some(count) => count.load(Ordering::SeqCst),
            None => 0,
        }
    }

    /// Whether its thread ran out of memory, and has ended.
    pub fn is_out_of_memory(&self) -> bool {
        self.out_of_memory.load(Ordering::SeqCst)
    }

    /// How it is with its record, as was noted last.
    pub fn record_state(&self) -> RecordState {
        if self.out.load(Ordering::SeqCst) {
            RecordState::Out
        } else if self.unrecorded.load(Ordering::SeqCst) {
            RecordState::Unrecorded
        } else {
            RecordState::Kept
        }
    }

    /// Notes how it is with its record.
    pub fn note(&self, state: RecordState) {
        self.out.store(state == RecordState::Out, Ordering::SeqCst);
        self.unrecorded
            .store(state == RecordState::Unrecorded, Ordering::SeqCst);
    }

    /// The users, when the thread has ended.
    pub fn into_group(self) -> UserGroup<'a> {
        let Station {
            mailbox: _,
            meter: _,
            group,
            answered: _,
            out_of_memory: _,
            unrecorded: _,
            out: _,
            record_bytes: _,
            record_room: _,
            line_steps: _,
            rest_is_told: _,
        } = self;
        group.into_inner()
    }

    // Counts a line that was answered. The operator's are nobody's.
    fn count(&self, queued: &QueuedLine) {
        if let Some(count) = self.answered.get(usize::from(queued.user))
            && !matches!(queued.request, QueuedRequest::OperatorRestart)
        {
            count.fetch_add(1, Ordering::SeqCst);
        }
    }
}

// How many lines of each user were answered: none yet.
fn counts_of(alloc: Global, users: usize) -> Result<Vec<AtomicU64>, NoMemory> {
    let mut answered = Vec::with_capacity(alloc, users)?;
    for _user in 0..users {
        answered.push(AtomicU64::new(0))?;
    }
    Ok(answered)
}

// That a line can't be recorded.
fn record_answer(
    alloc: Global,
    group: &UserGroup<'_>,
    queued: &QueuedLine,
) -> Result<LiveAnswer, NoMemory>
    requires { queued.now.user < length group.now.sessions.items }
    ensures { IfOk result (λ a. TellsUnrecorded group.now queued.now (string_bytes a.text)) }
{
    let name = group.name(usize::from(queued.user));
    match queued.request {
        QueuedRequest::OperatorRestart => error_answer(alloc, "!", queued.number, NotDone::Record),
        QueuedRequest::Asked(_) | QueuedRequest::Wrong(_) => {
            error_answer(alloc, name, queued.number, NotDone::Record)
        }
    }
}

// What a line is answered, and what came of it.
#[derive(Drop)]
struct AnsweredLine {
    answer: QueuedAnswer,
    // Whether the domain was asked.
    is_asked: bool,
    state: RecordState,
}

// Whether a line is answered, if the record is in this state.
fn may_answer(state: RecordState, request: &QueuedRequest) -> bool
    ensures { result ≡ may_be_answered state request.now }
{
    match (state, request) {
        (RecordState::Kept, _) | (RecordState::Out, QueuedRequest::OperatorRestart) => true,
        (RecordState::Unrecorded | RecordState::Out, _) => false,
    }
}

// That the domain has no room for what a line asks.
fn full_answer(
    alloc: Global,
    group: &UserGroup<'_>,
    queued: &QueuedLine,
) -> Result<LiveAnswer, NoMemory>
    requires { queued.now.user < length group.now.sessions.items }
    ensures { IfOk result (λ a. TellsFull group.now queued.now (string_bytes a.text)) }
{
    let name = group.name(usize::from(queued.user));
    match queued.request {
        QueuedRequest::OperatorRestart => error_answer(alloc, "!", queued.number, NotDone::Full),
        QueuedRequest::Asked(_) | QueuedRequest::Wrong(_) => error_answer(
            alloc,
            name,
            queued.number,
            NotDone::Full,
        ),
    }
}

// Whether the domain has room for what a line asks at the most.
fn has_domain_room<R: Wait>(rt: &R, group: &UserGroup<'_>, commands: u64) -> bool
    ensures { result ≡ false → LacksDomainRoom group.now commands }
{
    let room = group.service.room().bytes();
    match group.service.room_status(rt, group.domain) {
        Ok(status) => has_room(status.bytes, room, commands),
        Err(_) => true,
    }
}

// Whether the domain has room for what a line asks at the most, and its newest record has. Older ones don't count, since they are
// removed if there is too little room.
fn has_room_for<R: Wait, K: SharedRecord, N: Notices>(
    rt: &R,
    station: &Station<'_>,
    group: &UserGroup<'_>,
    queued: &QueuedLine,
    outputs: &RecordOutputs<'_, K, N>,
) -> bool
    ensures { result ≡ false
        → LacksRoom K.had_sizes outputs.now.«record».now station.now.record_room group.now queued.now.request }
{
    let commands = commands_of(&queued.request);
    if !has_domain_room(rt, group, commands) {
        return false;
    }
    let newest = outputs.record.sizes(rt).newest;
    has_record_room(newest, station.record_room(), commands)
}

// Answers a line, and records what the domain answered by then before the answer is given to anybody: the record has at least
// as many commands as all users of the domain were answered. If the state of the record doesn't allow an answer, or if there is
// no room, the domain is asked nothing.
fn answer_and_keep<R: Wait, K: SharedRecord, N: Notices>(
    rt: &R,
    alloc: Global,
    state: RecordState,
    station: &Station<'_>,
    group: &mut UserGroup<'_>,
    queued: &QueuedLine,
    outputs: &RecordOutputs<'_, K, N>,
) -> Result<AnsweredLine, NoMemory>
    requires user { queued.now.user < length group.old.sessions.items }
    requires lacks { state ≢ RecordState.Kept → K.has_lacked outputs.now.«record».now }
    ensures answer { IfOk result (λ a. AnswersKept K.has_kept K.has_lacked K.had_sizes outputs.now.«record».now station.now.record_room
        group.old group.new queued.now a.answer) }
    ensures not_asked { may_be_answered state queued.now.request ≡ false
        → IfOk result (λ a. AllStay group.old group.new × TellsUnrecorded group.new queued.now (string_bytes a.answer.lines.text)) }
{
    if !may_answer(state, &queued.request) {
        return Ok(AnsweredLine {
            answer: QueuedAnswer::of_line(record_answer(alloc, group, queued)?),
            is_asked: false,
            state,
        });
    }
    if !has_room_for(rt, station, group, queued, outputs) {
        return Ok(AnsweredLine {
            answer: QueuedAnswer::of_line(full_answer(alloc, group, queued)?),
            is_asked: false,
            state,
        });
    }
    let answer = answer_queued(rt, alloc, group, queued)?;
    let state = keep_and_tell(
        rt,
        alloc,
        group.service,
        AskedCommands::of_group(group),
        outputs,
        answer.begins_anew,
    )?;
    let answer = match state {
        RecordState::Kept => answer,
        RecordState::Unrecorded | RecordState::Out => {
            QueuedAnswer::of_line(record_answer(alloc, group, queued)?)
        }
    };
    Ok(AnsweredLine {
        answer,
        is_asked: true,
        state,
    })
}

// How it is with the record of a domain before a line is answered. What couldn't be written is tried once more.
fn state_before<R: Wait, K: SharedRecord, N: Notices>(
    rt: &R,
    alloc: Global,
    group: &UserGroup<'_>,
    outputs: &RecordOutputs<'_, K, N>,
) -> Result<RecordState, NoMemory>
    ensures { IfOk result (λ state. state ≢ RecordState.Kept → K.has_lacked outputs.now.«record».now) }
{
    match outputs.record.state(rt) {
        RecordState::Unrecorded => {
            let asked = AskedCommands::of_group(group);
            keep_and_tell(rt, alloc, group.service, asked, outputs, false)
        }
        state => Ok(state),
    }
}

// Settles the domain after a line of a script that was done. If there is no memory for that, or there was none for the line, the
// domain rests.
fn settle_after<R: Wait>(
    rt: &R,
    alloc: Global,
    group: &UserGroup<'_>,
    queued: &QueuedLine,
    is_asked: bool,
) {
    if matches!(queued.request, QueuedRequest::Wrong(NotDone::Memory)) {
        group.halt();
    }
    let user = usize::from(queued.user);
    if is_asked
        && matches!(queued.request, QueuedRequest::Asked(LiveRequest::Script(_)))
        && user < group.users()
        && group.settle(rt, alloc, user).is_err()
    {
        group.halt();
    }
}

// Answers a line, counts it, and writes that answer. Only then the domain settles, if a line of a script was done.
fn serve_queued<R: Wait, K: SharedRecord, O: SharedOutlet, N: Notices>(
    rt: &R,
    alloc: Global,
    station: &Station<'_>,
    group: &mut UserGroup<'_>,
    queued: &QueuedLine,
    outputs: &RecordOutputs<'_, K, N>,
    outlet: &O,
) -> Result<(), NoMemory>
    requires { queued.now.user < length group.old.sessions.items }
    ensures put { OnOk result (PutsAnswer O.was_put outlet.now K.has_kept K.has_lacked K.had_sizes outputs.now.«record».now
        station.now.record_room group.old group.new queued.now) }
{
    let state = state_before(rt, alloc, group, outputs)?;
    let answered = answer_and_keep(rt, alloc, state, station, group, queued, outputs)?;
    station.note(answered.state);
    station.count(queued);
    // If there is no memory for a notice of an older record, the rest of this is left to the next line.
    let _ = note_records(rt, alloc, station, group, outputs);
    outlet.put_answer(rt, &answered.answer.lines);
    settle_after(rt, alloc, group, queued, answered.is_asked);
    Ok(())
}

// Removes older records of the domain if all take more than their room, and lets the domain rest if the newest takes too much of
// it.
fn note_records<R: Wait, K: SharedRecord, N: Notices>(
    rt: &R,
    alloc: Global,
    station: &Station<'_>,
    group: &UserGroup<'_>,
    outputs: &RecordOutputs<'_, K, N>,
) -> Result<(), NoMemory> {
    let room = station.record_room();
    trim_and_tell(rt, alloc, outputs, room)?;
    let sizes = outputs.record.sizes(rt);
    station.note_sizes(sizes);
    if is_used_up(sizes.newest, room) {
        group.halt_for_records();
    }
    if sizes.newest > 0
        && let Ok(status) = group.service.room_status(rt, group.domain)
    {
        let most = most_journal(status.bytes, sizes.newest, room);
        group.bound_bytes(most);
    }
    Ok(())
}

// Records what a domain that rests did since its last line, so that it goes on if its records have room.
fn write_what_waits<R: Wait, K: SharedRecord, N: Notices>(
    rt: &R,
    alloc: Global,
    station: &Station<'_>,
    group: &UserGroup<'_>,
    outputs: &RecordOutputs<'_, K, N>,
) -> Result<(), NoMemory> {
    if station.record_state() == RecordState::Kept {
        let asked = AskedCommands::of_group(group);
        let state = keep_and_tell(rt, alloc, group.service, asked, outputs, false)?;
        station.note(state);
    }
    note_records(rt, alloc, station, group, outputs)
}

// Why a domain rests, none if it doesn't.
fn rest_note(station: &Station<'_>, status: RoomStatus) -> Option<RestNote>
    ensures why { IfSome result (IsNoteOf status station.now.record_room) }
    ensures none { is_some result ≡ is_some status.rests }
{
    let note = match status.rests? {
        RestCause::RoomUsedUp => RestNote::Room {
            used: status.bytes,
            room: status.room_bytes,
        },
        RestCause::RecordsFull => RestNote::Records {
            used: station.record_bytes(),
            room: station.record_room(),
        },
        RestCause::NoMemory => RestNote::Memory,
        RestCause::EventsUsedUp => RestNote::Steps,
        RestCause::NoLine => RestNote::Line,
    };
    Some(note)
}

// Tells the users of a domain, and the operator, once that it rests, and why.
fn tell_rest<R: Wait, O: SharedOutlet, N: Notices>(
    rt: &R,
    alloc: Global,
    station: &Station<'_>,
    group: &UserGroup<'_>,
    outlet: &O,
    errors: &N,
) -> Result<(), NoMemory> {
    let Ok(status) = group.service.room_status(rt, group.domain) else {
        return Ok(());
    };
    let note = rest_note(station, status);
    let was_told = station.rest_is_told.swap(note.is_some(), Ordering::SeqCst);
    let Some(note) = note else {
        return Ok(());
    };
    if was_told {
        return Ok(());
    }
    for name in &group.names {
        outlet.put_answer(rt, &note_answer(alloc, name, note)?);
    }
    let names = names_of(alloc, group.service.plan(), group.domain)?;
    errors.tell(rt, rest_notice(alloc, names.as_str(), note)?.as_str());
    Ok(())
}

// Answers that there was no memory for a line, in the memory of a text. The domain rests from then on.
fn answer_want<R: Wait, O: SharedOutlet>(
    rt: &R,
    alloc: Global,
    station: &Station<'_>,
    group: &UserGroup<'_>,
    queued: &QueuedLine,
    outlet: &O,
    spare: &mut String,
)
    requires { queued.now.user < length group.now.sessions.items }
{
    group.halt();
    station.count(queued);
    let name = match queued.request {
        QueuedRequest::OperatorRestart => "!",
        QueuedRequest::Asked(_) | QueuedRequest::Wrong(_) => group.name(usize::from(queued.user)),
    };
    let text = mem::replace(spare, String::new(alloc));
    if let Ok(answer) = error_answer_in(text, name, queued.number, NotDone::Memory) {
        outlet.put_answer(rt, &answer);
        *spare = answer.into_text();
    }
}

// Lets the nodes of the domain go on up to the bound after a line. If they rested at the one before, the next rest is reported again.
fn let_go_on<R: Wait>(rt: &R, station: &Station<'_>, group: &UserGroup<'_>) {
    if station.rest_is_told.load(Ordering::SeqCst)
        && let Ok(status) = group.service.room_status(rt, group.domain)
        && status.rests == Some(RestCause::NoLine)
    {
        station.rest_is_told.store(false, Ordering::SeqCst);
    }
    group.bound_events_of_line(rt, station.line_steps);
}

// Takes the next line and answers it; whether more may come. Once a write has failed nothing more is asked.
fn serve_next<R: Wait, K: SharedRecord, O: SharedOutlet, N: Notices>(
    rt: &R,
    alloc: Global,
    station: &Station<'_>,
    group: &mut UserGroup<'_>,
    outputs: &RecordOutputs<'_, K, N>,
    outlet: &O,
    spare: &mut String,
) -> bool {
    let queued = match station.mailbox.take(rt) {
        Mail::Line(queued) => queued,
        Mail::News => {
            let _ = write_what_waits(rt, alloc, station, group, outputs);
            let _ = tell_rest(rt, alloc, station, group, outlet, outputs.errors);
            return true;
        }
        Mail::End => return false,
    };
    if usize::from(queued.user) < group.users() && !outlet.has_failed(rt) {
        let_go_on(rt, station, group);
        if serve_queued(rt, alloc, station, group, &queued, outputs, outlet).is_err()
            && usize::from(queued.user) < group.users()
        {
            answer_want(rt, alloc, station, group, &queued, outlet, spare);
        }
        // Notices for which there is no memory are left out.
        let _ = tell_rest(rt, alloc, station, group, outlet, outputs.errors);
    }
    true
}

// Replays what is to be replayed of the domain before its first line is answered. Its record is bounded then by its room.
fn replay_first<R: Wait, K: SharedRecord, P: Replay<K>, N: Notices>(
    rt: &R,
    alloc: Global,
    station: &Station<'_>,
    group: &mut UserGroup<'_>,
    replay: &P,
    outputs: &RecordOutputs<'_, K, N>,
)
    ensures { K.was_bound outputs.now.«record».now station.now.record_room }
{
    if station.meter.is_under_way() {
        group.replay(
            rt,
            replay,
            &ReplayOutputs {
                record: outputs.record,
                meter: &station.meter,
                errors: outputs.errors,
            },
        );
        station.note(outputs.record.state(rt));
        station.meter.note_under_way(false);
    }
    outputs.record.bound(rt, station.record_room());
    let_go_on(rt, station, group);
    let _ = note_records(rt, alloc, station, group, outputs);
}

/// Replays what is to be replayed of a domain. Then it answers lines, in their order, until the mailbox is closed and empty. Once a
/// write has failed nothing more is asked. A line for which there is no memory is answered `memory`, and the domain rests from then
/// on until it begins again.
pub fn serve<R: Wait, K: SharedRecord, P: Replay<K>, O: SharedOutlet, N: Notices>(
    rt: &R,
    alloc: Global,
    station: &Station<'_>,
    record: &K,
    replay: &P,
    outlet: &O,
    errors: &N,
) {
    let Ok(mut spare) = String::with_capacity(alloc, SPARE_BYTES) else {
        station.out_of_memory.store(true, Ordering::SeqCst);
        return;
    };
    let outputs = RecordOutputs { record, errors };
    let mut group = station.group.lock(rt);
    replay_first(rt, alloc, station, &mut group, replay, &outputs);
    for _ in rt.forever() {
        if !serve_next(rt, alloc, station, &mut group, &outputs, outlet, &mut spare) {
            break;
        }
    }
}
