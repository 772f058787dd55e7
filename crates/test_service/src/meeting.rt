//! Users, workers and the operator at the same time, each in a thread of their own.

ghost use Rattle.std.specs.Prelude.{◌≡◌};
ghost use Rattle.farm_service.specs.Services.{IsItsOperator};
ghost use Rattle.token_queue.specs.Passes.{AreItsPasses};

use crate::actions::QUANTUM;
use crate::farm::OpenedFarm;
use crate::gates::{Hold, Holding, TurnsSeen};
use crate::users::{Doing, TestUser};
use crate::watch::{Watch, survey_all};
use farm_service::{Service, Worked, WorkerPass, run_users_and_workers, work, work_all};
use std::alloc::Global;
use std::sync::Wait;
use std::sync::atomic::{AtomicBool, Ordering};
use std::thread;
use std::thread::Threads;
use switch_table::OperatorSeat;

/// Who acts at the same time, while the operator watches.
#[derive(Clone, Copy)]
pub enum Meeting {
    /// All users.
    Users(Doing),
    /// All workers, for this number of turns each. Some of their bursts are held.
    Workers(u64, Hold),
    /// All users, and beside them all workers, until the last user has ended. The service is stopped then.
    Both(Doing, Hold),
}

impl Meeting {
    // Which bursts are held.
    fn hold(self) -> Hold {
        match self {
            Meeting::Users(_) => Hold::Nothing,
            Meeting::Workers(_, hold) | Meeting::Both(_, hold) => hold,
        }
    }
}

// The workers' passes, what the gate has seen of their turns, and whether one of them ran out of memory.
#[derive(Drop)]
struct AfterWork {
    passes: Vec<WorkerPass>,
    seen: TurnsSeen,
    out_of_memory: bool,
}

// Each user acts in a thread of their own.
fn act_each<R: Threads + Wait + Sync>(
    rt: &R,
    alloc: Global,
    service: &Service,
    users: &mut [TestUser],
    doing: Doing,
) {
    thread::for_each_mut(
        rt,
        users,
        16,
        &|place, user| user.act(rt, alloc, service, place, doing),
    );
}

// Lets users and workers act at the same time. Returns whether a worker ran out of memory.
fn act_and_work<R: Threads + Wait + Sync>(
    rt: &R,
    alloc: Global,
    service: &Service,
    passes: &mut Vec<WorkerPass>,
    gate: &Holding,
    users: &mut [TestUser],
    doing: Doing,
) -> bool
    requires { AreItsPasses service.now.plan service.now.queue passes.old.items }
    ensures { AreItsPasses service.now.plan service.now.queue passes.new.items }
{
    let act = |place: usize, user: &mut TestUser| user.act(rt, alloc, service, place, doing);
    run_users_and_workers(rt, alloc, service, passes, gate, QUANTUM, &act, users).is_err()
}

// Those who meet act, and then all is over.
fn act_all<R: Threads + Wait + Sync>(
    rt: &R,
    alloc: Global,
    service: &Service,
    mut passes: Vec<WorkerPass>,
    mut users: Vec<TestUser>,
    meeting: Meeting,
    over: &AtomicBool,
) -> (AfterWork, Vec<TestUser>)
    requires { AreItsPasses service.now.plan service.now.queue passes.items }
    ensures { AreItsPasses service.now.plan service.now.queue result.0.passes.items }
{
    let gate = Holding::new(meeting.hold());
    let out_of_memory = match meeting {
        Meeting::Users(doing) => {
            act_each(rt, alloc, service, users.as_mut_slice(), doing);
            false
        }
        Meeting::Workers(turns, _) => {
            work_all(rt, alloc, service, &mut passes, &gate, QUANTUM, turns).is_err()
        }
        Meeting::Both(doing, _) => {
            act_and_work(
                rt,
                alloc,
                service,
                &mut passes,
                &gate,
                users.as_mut_slice(),
                doing,
            )
        }
    };
    over.store(true, Ordering::SeqCst);
    let seen = gate.turns(rt);
    let shift = AfterWork {
        passes,
        seen,
        out_of_memory,
    };
    (shift, users)
}

// All of them. If no thread can be started for the operator, there is one survey when all is over.
fn watch_all<R: Threads + Wait + Sync>(
    rt: &R,
    alloc: Global,
    service: &Service,
    passes: Vec<WorkerPass>,
    operator: OperatorSeat,
    users: Vec<TestUser>,
    watch: Watch,
    meeting: Meeting,
) -> ((OperatorSeat, Watch), (AfterWork, Vec<TestUser>))
    requires passes { AreItsPasses service.now.plan service.now.queue passes.items }
    requires operator { IsItsOperator service.now operator }
    ensures passes { AreItsPasses service.now.plan service.now.queue result.1.0.passes.items }
    ensures operator { IsItsOperator service.now result.0.0 }
{
    let over = &AtomicBool::new(false);
    thread::join(
        rt,
        move ||
            requires { IsItsOperator service.now operator }
            ensures { IsItsOperator service.entry.now result.0 }
        { survey_all(service, operator, watch, over) },
        move ||
            requires { AreItsPasses service.now.plan service.now.queue passes.items }
            ensures { AreItsPasses service.entry.now.plan service.entry.now.queue result.0.passes.items }
        { act_all(rt, alloc, service, passes, users, meeting, over) },
    )
}

/// All who meet, and what came of the last meeting.
#[derive(Drop)]
pub struct Party {
    pub farm: OpenedFarm,
    pub users: Vec<TestUser>,
    pub watch: Watch,
    pub seen: TurnsSeen,
    /// Whether memory ran out.
    pub out_of_memory: bool,
}

/// All meet.
pub fn run_meeting<R: Threads + Wait + Sync>(
    rt: &R,
    alloc: Global,
    party: Party,
    meeting: Meeting,
) -> Party {
    let Party {
        farm,
        users,
        watch,
        seen: _,
        out_of_memory: before,
    } = party;
    let OpenedFarm {
        service,
        passes,
        operator,
    } = farm;
    let ((operator, watch), (shift, users)) = watch_all(
        rt, alloc, &service, passes, operator, users, watch, meeting,
    );
    let AfterWork {
        passes,
        seen,
        out_of_memory,
    } = shift;
    Party {
        farm: OpenedFarm {
            service,
            passes,
            operator,
        },
        users,
        watch,
        seen,
        out_of_memory: out_of_memory || before,
    }
}

// The last of a list of passes works. The passes are what they were.
fn work_last<R: Wait>(
    rt: &R,
    alloc: Global,
    service: &Service,
    passes: &mut Vec<WorkerPass>,
    turns: u64,
) -> Worked
    requires { AreItsPasses service.now.plan service.now.queue passes.old.items }
    ensures { AreItsPasses service.now.plan service.now.queue passes.new.items }
{
    match passes.pop() {
        Some(mut pass) => {
            let gate = Holding::new(Hold::Nothing);
            let worked = work(rt, alloc, service, &mut pass, &gate, QUANTUM, turns);
            passes.push_reserved(pass);
            worked
        }
        None => Worked::Turns,
    }
}

/// One worker of a farm works in this thread.
pub fn work_here<R: Wait>(rt: &R, alloc: Global, party: Party, turns: u64) -> (Party, Worked) {
    let Party {
        farm,
        users,
        watch,
        seen,
        out_of_memory,
    } = party;
    let OpenedFarm {
        service,
        mut passes,
        operator,
    } = farm;
    let worked = work_last(rt, alloc, &service, &mut passes, turns);
    let party = Party {
        farm: OpenedFarm {
            service,
            passes,
            operator,
        },
        users,
        watch,
        seen,
        out_of_memory,
    };
    (party, worked)
}
