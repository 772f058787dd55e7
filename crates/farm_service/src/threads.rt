//! Workers in threads of their own, and users in theirs beside them.

ghost use Rattle.std.specs.Fork.{AcceptsEach, ChangesEach};
ghost use Rattle.std.specs.Prelude.{◌≡◌, ◌<◌, ◌≤◌, ℕ, length, slice_get};
ghost use Rattle.token_queue.specs.Passes.{AreOf, AreItsPasses, HoldNone};

use crate::NoMemory;
use crate::service::Service;
use crate::worker::{Gate, UNTIL_STOPPED, Worked, work};
use std::alloc::Global;
use std::sync::Wait;
use std::sync::atomic::{AtomicBool, Ordering};
use std::thread;
use std::thread::Threads;
use token_queue::WorkerPass;

/// The most workers of a service.
const MOST_WORKERS: usize = 8;

// A thread for each pass. If one of them runs out of memory, it notes that and stops the service.
fn work_each<R: Threads + Wait + Sync, G: Gate + Sync>(
    rt: &R,
    alloc: Global,
    service: &Service,
    passes: &mut [WorkerPass],
    gate: &G,
    quantum: u64,
    turns: u64,
    out_of_memory: &AtomicBool,
)
    requires of { AreOf service.now.queue passes.old }
    requires none { HoldNone passes.old }
    requires quantum { (1 ≤ quantum) × (quantum ≤ 4096) }
    ensures each { (i : ℕ) → i < length passes.old → slice_get passes.new i ≡ slice_get passes.old i }
    ensures count { length passes.new ≡ length passes.old }
{
    thread::for_each_mut(
        rt,
        passes,
        MOST_WORKERS,
        &|_, pass| {
            if work(rt, alloc, service, pass, gate, quantum, turns) == Worked::NoMemory {
                out_of_memory.store(true, Ordering::SeqCst);
                service.stop();
            }
        },
    );
}

/// Notes in a service for how many threads the machine has cores, if the system says so. Workers for whom there is no core nap.
/// [`work_all`] and [`run_users_and_workers`] do this. A caller that starts the workers' threads without them does it before.
pub fn note_cores<R: Threads>(rt: &R, service: &Service) {
    if let Ok(cores) = thread::available_parallelism(rt) {
        service.schedule().note_cores(cores.get());
    }
}

// What was noted.
fn memory_result(out_of_memory: &AtomicBool) -> Result<(), NoMemory> {
    if out_of_memory.load(Ordering::SeqCst) {
        Err(NoMemory)
    } else {
        Ok(())
    }
}

/// Works with each pass in a thread of its own, each for `turns` turns, as [`work`] does. All have ended
/// when the call returns, and the passes are what they were.
///
/// # Errors
///
/// `NoMemory` if a worker ran out of memory. It stopped the service then.
pub fn work_all<R: Threads + Wait + Sync, G: Gate + Sync>(
    rt: &R,
    alloc: Global,
    service: &Service,
    passes: &mut Vec<WorkerPass>,
    gate: &G,
    quantum: u64,
    turns: u64,
) -> Result<(), NoMemory>
    requires passes { AreItsPasses service.now.plan service.now.queue passes.old.items }
    requires quantum { (1 ≤ quantum) × (quantum ≤ 4096) }
    ensures passes { AreItsPasses service.now.plan service.now.queue passes.new.items }
{
    let out_of_memory = AtomicBool::new(false);
    note_cores(rt, service);
    work_each(
        rt,
        alloc,
        service,
        passes.as_mut_slice(),
        gate,
        quantum,
        turns,
        &out_of_memory,
    );
    memory_result(&out_of_memory)
}

// All users, each in a separate thread; when the last has ended the service is stopped.
fn act_each<R: Threads + Wait + Sync, U: Send, F: Fn(usize, &mut U) + Sync>(
    rt: &R,
    service: &Service,
    act: &F,
    users: &mut [U],
)
    requires { AcceptsEach F.Fn act.now users.old }
    ensures { ChangesEach F.Fn act.now users.old users.new }
{
    let threads = users.len().max(1);
    thread::for_each_mut(rt, users, threads, act);
    service.stop();
}

/// Runs users at a service, each in a separate thread, and its workers beside them in threads of their own. `act` is
/// called with each user's place and the user. When the last user has ended the service is stopped, and all have
/// ended when the call returns: each user is what `act` left, and the passes are what they were.
///
/// No user waits for a worker. If no thread can be started for the workers they come after the users, and find the
/// service stopped.
///
/// # Errors
///
/// `NoMemory` if a worker ran out of memory. It stopped the service then, and the users went on without workers.
// Five clauses: what the passes are before and after, the quantum, and what `act` may do to users and did.
pub fn run_users_and_workers<
    R: Threads + Wait + Sync,
    U: Send,
    G: Gate + Sync,
    F: Fn(usize, &mut U) + Sync,
>(
    rt: &R,
    alloc: Global,
    service: &Service,
    passes: &mut Vec<WorkerPass>,
    gate: &G,
    quantum: u64,
    act: &F,
    users: &mut [U],
) -> Result<(), NoMemory>
    requires passes { AreItsPasses service.now.plan service.now.queue passes.old.items }
    requires quantum { (1 ≤ quantum) × (quantum ≤ 4096) }
    requires users { AcceptsEach F.Fn act.now users.old }
    ensures passes { AreItsPasses service.now.plan service.now.queue passes.new.items }
    ensures users { ChangesEach F.Fn act.now users.old users.new }
{
    let mut work = ||
        requires { AreItsPasses service.now.plan service.now.queue passes.now.items × (1 ≤ quantum) × (quantum ≤ 4096) }
        ensures { AreItsPasses service.entry.now.plan service.entry.now.queue passes.exit.now.items }
    { work_all(rt, alloc, service, passes, gate, quantum, UNTIL_STOPPED) };
    let mut act_all = ||
        requires { AcceptsEach F.Fn act.now users.now }
        ensures { ChangesEach F.Fn act.entry.now users.entry.now users.exit.now }
    { act_each(rt, service, act, users) };
    let (worked, ()) = thread::join_mut(rt, &mut work, &mut act_all);
    worked
}
