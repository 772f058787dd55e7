//! A farm that stays up, from its opening to its end.
ghost use Rattle.std.specs.Prelude.{◌≡◌, ◌≤◌, IfOk, OnOk, is_ok, length, map, true};
ghost use Rattle.token_queue.specs.Passes.{AreItsPasses};
ghost use Rattle.whole_farm.specs.Places.{places_of};
ghost use Rattle.farm_service.specs.Closed.{AreDomainsOf, EachMergeRuns, AreListed, AllMetFullTruly, AllAreRightlyAsked};
ghost use Rattle.live_lines.specs.LiveRanges.{IsInRange};
ghost use Rattle.live_farm.specs.Asking.{commands_listed};
ghost use Rattle.live_farm.specs.Names.{user_number_of};
ghost use Rattle.live_farm.specs.Closings.{AreUsersListed, HasListed, HasListedAt, HaveListed, WasAskedAt, AllWereAsked, AreUsersRecorded};

use crate::asked::AskedCommands;
use crate::failure::{LiveFailure, LiveStop};
use crate::farm_users::{FarmUsers, RestGate};
use crate::operator::Operator;
use crate::outlet::SharedOutlet;
use crate::outputs::LiveOutputs;
use crate::record::{RecordOutputs, RecordState, SharedRecord, keep_and_tell};
use crate::replay::Replay;
use crate::station::DomainBounds;
use crate::threads::run_farm_users;
use farm_service::{Closed, Opened, Room, Service, UserPass, WorkerPass, run_users_and_workers};
use line_answers::Quantum;
use live_lines::LiveSettings;
use plan_checker::AcceptedPlan;
use record_files::Notices;
use std::alloc::Global;
use std::fs::File;
use std::io::BufRead;
use std::slice;
use std::sync::Wait;
use std::thread::Threads;

// Who reads the lines, in which memory, and how that ended.
#[derive(Drop)]
struct LiveReader<'a, 'b, I: BufRead> {
    alloc: Global,
    operator: Operator<'a>,
    input: &'b mut I,
    ended: Result<(), LiveStop>,
}

// Reads lines to their end, with a thread for each domain and the workers beside them.
fn run_all<
    R: Threads + Wait + Sync,
    K: SharedRecord + Sync,
    P: Replay<K> + Sync,
    I: BufRead + Send,
    O: SharedOutlet + Sync,
    N: Notices + Sync,
>(
    rt: &R,
    service: &Service,
    passes: &mut Vec<WorkerPass>,
    steps: u64,
    farm_users: &FarmUsers<'_>,
    outputs: &LiveOutputs<'_, K, P, O, N>,
    reader: &mut LiveReader<'_, '_, I>,
) -> Result<(), LiveFailure>
    requires steps { (1 ≤ steps) × (steps ≤ 4096) }
    requires passes { AreItsPasses service.now.plan service.now.queue passes.old.items }
    ensures passes { AreItsPasses service.now.plan service.now.queue passes.new.items }
{
    let alloc = reader.alloc;
    let act = |_place: usize, reader: &mut LiveReader<'_, '_, I>| {
        reader.ended = run_farm_users(
            rt,
            alloc,
            farm_users,
            outputs,
            &mut reader.operator,
            reader.input,
        );
    };
    run_users_and_workers(
        rt,
        alloc,
        service,
        passes,
        &RestGate { farm_users },
        steps,
        &act,
        slice::from_mut(reader),
    )?;
    Ok(())
}

// Answers all lines, then records what isn't recorded yet, and gives the users' passes back. The memory of that list is reserved
// before the first line: if there is none at the end, records are written all the same.
fn serve_all<
    R: Threads + Wait + Sync,
    K: SharedRecord + Sync,
    P: Replay<K> + Sync,
    I: BufRead + Send,
    O: SharedOutlet + Sync,
    N: Notices + Sync,
>(
    rt: &R,
    service: &Service,
    passes: &mut Vec<WorkerPass>,
    users: Vec<UserPass>,
    settings: &LiveSettings,
    outputs: &LiveOutputs<'_, K, P, O, N>,
    reader: &mut LiveReader<'_, '_, I>,
) -> Result<Vec<UserPass>, LiveFailure>
    requires settings { IsInRange settings.now }
    requires passes { AreItsPasses service.now.plan service.now.queue passes.old.items }
    ensures passes { OnOk result (AreItsPasses service.now.plan service.now.queue passes.new.items) }
    ensures users { IfOk result (λ back. map user_number_of back.items ≡ map user_number_of users.items) }
    ensures kept { IfOk result (λ back. HaveListed K.has_kept K.was_out service.now.plan back.items outputs.now.records.now) }
{
    let alloc = reader.alloc;
    let quantum = Quantum::of(settings.quantum);
    let room = Vec::with_capacity(alloc, users.len())?;
    let bounds = DomainBounds {
        record_room: settings.record_room,
        line_steps: settings.line_steps,
    };
    let farm_users = FarmUsers::new(alloc, service, users, quantum, bounds)?;
    run_all(
        rt,
        service,
        passes,
        quantum.steps(),
        &farm_users,
        outputs,
        reader,
    )?;
    let back = farm_users.end(room)?;
    let kept = keep_rest(rt, alloc, service, back.as_slice(), outputs);
    reader.ended?;
    kept?;
    Ok(back)
}

// Records what a domain answered since its last line, with all that the passes of its users list. For a domain whose record can't
// be taken there is nothing to record.
fn keep_last<R: Wait, K: SharedRecord, N: Notices>(
    rt: &R,
    alloc: Global,
    service: &Service,
    domain: u8,
    passes: &[UserPass],
    record: &K,
    errors: &N,
) -> Result<(), LiveFailure>
    ensures kept { OnOk result (HasListed K.has_kept K.was_out service.now.plan passes.now domain «record».now) }
    ensures asked { K.was_asked «record».now service.now.plan domain (commands_listed domain passes.now) }
{
    let asked = AskedCommands::of_passes(domain, passes);
    let outputs = RecordOutputs { record, errors };
    match keep_and_tell(rt, alloc, service, asked, &outputs, false)? {
        RecordState::Kept | RecordState::Out => Ok(()),
        RecordState::Unrecorded => Err(record.failure(rt, alloc)),
    }
}

// The same for the domain's record among all, if it has one.
fn keep_at<R: Wait, K: SharedRecord, P: Replay<K>, O: SharedOutlet, N: Notices>(
    rt: &R,
    alloc: Global,
    service: &Service,
    domain: u8,
    passes: &[UserPass],
    outputs: &LiveOutputs<'_, K, P, O, N>,
) -> Result<(), LiveFailure>
    ensures kept { OnOk result (HasListedAt K.has_kept K.was_out service.now.plan passes.now outputs.now.records.now domain) }
    ensures asked { WasAskedAt K.was_asked service.now.plan passes.now outputs.now.records.now domain }
{
    match outputs.records.get(usize::from(domain)) {
        Some(record) => keep_last(rt, alloc, service, domain, passes, record, outputs.errors),
        None => Ok(()),
    }
}

// The later of two failures, if there is one.
fn later_failure(
    before: Result<(), LiveFailure>,
    last: Result<(), LiveFailure>,
) -> Result<(), LiveFailure>
    ensures { is_ok result ≡ true → (is_ok before ≡ true) × (is_ok last ≡ true) }
{
    match last {
        Ok(()) => before,
        Err(failure) => Err(failure),
    }
}

// Records what the domains answered since their last lines. All threads have ended. Each record is asked, whatever became of those
// before it. If several records aren't whole, the failure is that of the last.
fn keep_rest<R: Wait, K: SharedRecord, P: Replay<K>, O: SharedOutlet, N: Notices>(
    rt: &R,
    alloc: Global,
    service: &Service,
    passes: &[UserPass],
    outputs: &LiveOutputs<'_, K, P, O, N>,
) -> Result<(), LiveFailure>
    ensures kept { OnOk result (HaveListed K.has_kept K.was_out service.now.plan passes.now outputs.now.records.now) }
    ensures asked { AllWereAsked K.was_asked service.now.plan passes.now outputs.now.records.now }
{
    let mut kept = Ok(());
    for domain in 0..service.plan().domains() {
        let last = keep_at(rt, alloc, service, domain, passes, outputs);
        kept = later_failure(kept, last);
    }
    kept
}

// Closes the service with the passes of its workers and of its users.
// Six clauses: the workers' passes, and what closing vouches for.
fn close<R: Wait>(
    rt: &R,
    alloc: Global,
    service: Service,
    passes: Vec<WorkerPass>,
    users: Vec<UserPass>,
) -> Result<Closed, LiveFailure>
    requires { AreItsPasses service.plan service.queue passes.items }
    ensures domains { IfOk result (λ closed. AreDomainsOf service.plan closed.domains.items) }
    ensures runs { IfOk result (λ closed. EachMergeRuns (places_of service.plan) closed.domains.items) }
    ensures users { IfOk result (λ closed. AreListed closed.domains.items users.items) }
    ensures full { IfOk result (λ closed. AllMetFullTruly service.plan closed.domains.items users.items) }
    ensures asked { IfOk result (λ closed. AllAreRightlyAsked closed.domains.items) }
{
    match service.close(rt, alloc, passes, users) {
        Ok(closed) => Ok(closed),
        Err(_) => Err(LiveFailure::Memory),
    }
}

// Bounds the events of each domain, and holds workers back from each whose record is to be replayed.
fn bound_domains<R: Wait, K, P: Replay<K>>(
    rt: &R,
    service: &Service,
    restart_steps: u64,
    replays: &[P],
) {
    for (domain, replay) in (0..u8::MAX).zip(replays) {
        service.bound_events(domain, restart_steps);
        if replay.is_left(rt) {
            service.hold_back(domain);
        }
    }
}

/// Opens a farm on a plan, answers the lines of an input as they come, and closes the farm with the passes of all users when
/// the input ends or the operator stops it. What each domain answers is recorded, in the record of its place, before the answer
/// is written. The gauge is the file in which the system says how much memory the program has.
// Six clauses: the settings, what closing vouches for, and what the records have.
pub fn run_live<
    R: Threads + Wait + Sync,
    K: SharedRecord + Sync,
    P: Replay<K> + Sync,
    I: BufRead + Send,
    O: SharedOutlet + Sync,
    N: Notices + Sync,
>(
    rt: &R,
    alloc: Global,
    plan: AcceptedPlan,
    settings: &LiveSettings,
    outputs: &LiveOutputs<'_, K, P, O, N>,
    input: &mut I,
    gauge: Option<File>,
) -> Result<Closed, LiveFailure>
    requires { IsInRange settings.now }
    ensures domains { IfOk result (λ closed. AreDomainsOf plan closed.domains.items) }
    ensures runs { IfOk result (λ closed. EachMergeRuns (places_of plan) closed.domains.items) }
    ensures users { IfOk result (λ closed. AreUsersListed plan closed.domains.items) }
    ensures asked { IfOk result (λ closed. AllAreRightlyAsked closed.domains.items) }
    ensures kept { IfOk result (λ closed. AreUsersRecorded K.has_kept K.was_out plan outputs.now.records.now closed.domains.items) }
{
    let room = Room::of(settings.room);
    let opened = match Service::open_within(rt, alloc, plan, settings.workers, room) {
        Ok(opened) => opened,
        Err(_) => return Err(LiveFailure::Memory),
    };
    let Opened {
        service,
        mut passes,
        users,
        operator,
    } = opened;
    bound_domains(rt, &service, settings.restart_steps, outputs.replays);
    let mut reader = LiveReader {
        alloc,
        operator: Operator::new(&service, operator, gauge),
        input,
        ended: Ok(()),
    };
    let users = serve_all(
        rt,
        &service,
        &mut passes,
        users,
        settings,
        outputs,
        &mut reader,
    )?;
    drop(reader);
    close(rt, alloc, service, passes, users)
}
