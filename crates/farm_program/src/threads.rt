//! The threads of a run: one for each user, and one for each worker.
ghost use Rattle.std.specs.Prelude.{◌≡◌, ◌<◌, All, IfOk, Ok, [], length, map};
ghost use Rattle.token_queue.specs.Passes.{AreItsPasses, AreOf, HoldNone};
ghost use Rattle.farm_service.specs.Passes.{fresh_passes};
ghost use Rattle.plan_rules.specs.Users.{all_names};
ghost use Rattle.farm_cli.specs.Settings.{InRange};
ghost use Rattle.farm_program.specs.Users.{AreEndsOf, HasAnswered, HaveAnswered, IsLeftBy, commands_at};

use crate::users::{User, UserOutcome, script_users};
use farm_cli::Settings;
use farm_service::{
    NoGate, NoMemory, Service, UNTIL_STOPPED, UserPass, Worked, WorkerPass, note_cores, work,
};
use line_answers::Quantum;
use script_lines::ScriptLine;
use std::alloc::Global;
use std::snapshot::Snapshot;
use std::sync::Wait;
use std::thread;
use std::thread::{Promise, PromisedHandle, Scope, Threads};

// What the thread of a user promises: unless it is out of memory, the user's lines were answered.
#[derive(Drop)]
struct UserPromise<'a> {
    user: Snapshot<User<'a>>,
}

impl<'a> Promise<Result<UserOutcome, NoMemory>> for UserPromise<'a> {
    ghost kept_by = { λ p r. IfOk r (HasAnswered p.user.value) };
}

type UserThread<'a> = PromisedHandle<Result<UserOutcome, NoMemory>, UserPromise<'a>>;

// What the thread of a worker promises: unless it is out of memory, the worker's pass is what it was.
#[derive(Drop)]
struct WorkerPromise {
    pass: Snapshot<WorkerPass>,
}

impl Promise<Result<WorkerPass, NoMemory>> for WorkerPromise {
    ghost kept_by = { λ p r. IfOk r (λ pass. pass ≡ p.pass.value) };
}

type WorkerThread = PromisedHandle<Result<WorkerPass, NoMemory>, WorkerPromise>;

// Starts the thread of a user. The error is `NoMemory` too if the system starts no thread.
fn start_user<'s, E, R: Wait + Sync>(
    scope: &Scope<'s, E>,
    rt: &'s R,
    alloc: Global,
    user: User<'s>,
) -> Result<UserThread<'s>, NoMemory>
    ensures { IfOk result (λ thread. thread.promise.user.value ≡ user.entry) }
{
    let promise = UserPromise {
        user: Snapshot::of(&user),
    };
    // A closure that promises owns nothing that names a lifetime, so the user is taken apart.
    let User {
        service,
        pass,
        name,
        place,
        lines,
        quantum,
    } = user;
    let run = move || -> Result<UserOutcome, NoMemory>
        ensures { IfOk result (IsLeftBy service.entry.now.plan pass name.entry.now (commands_at lines.entry.now place)) }
    {
        let user = User {
            service,
            pass,
            name,
            place,
            lines,
            quantum,
        };
        user.run(rt, alloc)
    };
    scope.spawn_with(promise, run).map_err(|_| NoMemory)
}

// Starts the threads of users, one for each.
fn start_users<'s, E, R: Wait + Sync>(
    scope: &Scope<'s, E>,
    rt: &'s R,
    alloc: Global,
    users: Vec<User<'s>>,
) -> Result<Vec<UserThread<'s>>, NoMemory>
    ensures { IfOk result (λ threads. map (λ t. t.promise.user.value) threads.items ≡ users.entry.items) }
{
    let mut threads = Vec::with_capacity(alloc, users.len())?;
    for user in users {
        threads.push(start_user(scope, rt, alloc, user)?)?;
    }
    Ok(threads)
}

// Works until the service is stopped. A worker that runs out of memory stops it.
fn work_on<R: Wait>(
    rt: &R,
    alloc: Global,
    service: &Service,
    quantum: Quantum,
    pass: WorkerPass,
) -> Result<WorkerPass, NoMemory>
    requires queue { pass.queue ≡ service.now.queue }
    requires none { pass.held ≡ [] }
    ensures { IfOk result (λ it. it ≡ pass) }
{
    let mut pass = pass;
    let steps = quantum.steps();
    match work(rt, alloc, service, &mut pass, &NoGate, steps, UNTIL_STOPPED) {
        Worked::Turns | Worked::Stopped => Ok(pass),
        Worked::NoMemory => {
            service.stop();
            Err(NoMemory)
        }
    }
}

// Starts the thread of a worker. The error is `NoMemory` too if the system starts no thread.
fn start_worker<'s, E, R: Wait + Sync>(
    scope: &Scope<'s, E>,
    rt: &'s R,
    alloc: Global,
    service: &'s Service,
    quantum: Quantum,
    pass: WorkerPass,
) -> Result<WorkerThread, NoMemory>
    requires queue { pass.queue ≡ service.now.queue }
    requires none { pass.held ≡ [] }
    ensures { IfOk result (λ thread. thread.promise.pass.value ≡ pass) }
{
    let promise = WorkerPromise {
        pass: Snapshot::of(&pass),
    };
    let run = move || -> Result<WorkerPass, NoMemory>
        requires { (pass.queue ≡ service.now.queue) × (pass.held ≡ []) }
        ensures { IfOk result (λ it. it ≡ pass) }
    { work_on(rt, alloc, service, quantum, pass) };
    scope.spawn_with(promise, run).map_err(|_| NoMemory)
}

// Starts the threads of workers, one for each pass.
fn start_workers<'s, E, R: Wait + Sync>(
    scope: &Scope<'s, E>,
    rt: &'s R,
    alloc: Global,
    service: &'s Service,
    quantum: Quantum,
    passes: Vec<WorkerPass>,
) -> Result<Vec<WorkerThread>, NoMemory>
    requires of { AreOf service.now.queue passes.items }
    requires none { HoldNone passes.items }
    ensures { IfOk result (λ threads. map (λ t. t.promise.pass.value) threads.items ≡ passes.items) }
{
    let mut threads = Vec::with_capacity(alloc, passes.len())?;
    for pass in passes {
        threads.push(start_worker(scope, rt, alloc, service, quantum, pass)?)?;
    }
    Ok(threads)
}

// What threads returned, unless one of them is out of memory.
fn all_of<T: Drop>(alloc: Global, returned: Vec<Result<T, NoMemory>>) -> Result<Vec<T>, NoMemory>
    ensures { IfOk result (λ all. map Ok all.items ≡ returned.items) }
{
    let mut all = Vec::with_capacity(alloc, returned.len())?;
    for it in returned {
        all.push(it?)?;
    }
    Ok(all)
}

// Waits for the end of users, and gives what they leave.
fn join_users<R: Threads>(
    rt: &R,
    alloc: Global,
    threads: Vec<UserThread<'_>>,
) -> Result<Vec<UserOutcome>, NoMemory>
    ensures { IfOk result (λ ends. AreEndsOf (map (λ t. t.promise.user.value) threads.entry.items) ends.items) }
{
    let returned = thread::join_promised(rt, threads)?;
    all_of(alloc, returned)
}

// Waits for the end of workers, and gives their passes back.
fn join_workers<R: Threads>(
    rt: &R,
    alloc: Global,
    threads: Vec<WorkerThread>,
) -> Result<Vec<WorkerPass>, NoMemory>
    ensures { IfOk result (λ passes. passes.items ≡ map (λ t. t.promise.pass.value) threads.items) }
{
    let returned = thread::join_promised(rt, threads)?;
    all_of(alloc, returned)
}

/// The passes of all workers and of all users of a service.
#[derive(Drop)]
pub struct Passes {
    /// Those of the workers.
    pub workers: Vec<WorkerPass>,
    /// Those of the users, in the order of the plan.
    pub users: Vec<UserPass>,
}

/// What all threads of a run leave.
#[derive(Drop)]
pub struct ThreadEnds {
    /// The passes of the workers.
    pub workers: Vec<WorkerPass>,
    /// What the users leave, in the order of the plan.
    pub users: Vec<UserOutcome>,
}

// Starts all threads, and waits for the end of the users. The workers go on, also after an error.
// Six clauses: the settings with the users' quantum, the passes of the workers, and what all leave.
fn run_users<'s, E, R: Threads + Wait + Sync>(
    scope: &Scope<'s, E>,
    rt: &'s R,
    alloc: Global,
    service: &'s Service,
    settings: Settings,
    passes: Vec<WorkerPass>,
    users: Vec<User<'s>>,
) -> Result<(Vec<WorkerThread>, Vec<UserOutcome>), NoMemory>
    requires settings { InRange settings }
    requires quantum { All (λ u. u.quantum.steps ≡ settings.quantum) users.items }
    requires of { AreOf service.now.queue passes.items }
    requires none { HoldNone passes.items }
    ensures workers { IfOk result (λ run. map (λ t. t.promise.pass.value) run.0.items ≡ passes.items) }
    ensures users { IfOk result (λ run. AreEndsOf users.entry.items run.1.items) }
{
    let steps = Quantum::of(settings.quantum);
    let workers = start_workers(scope, rt, alloc, service, steps, passes)?;
    let users = start_users(scope, rt, alloc, users)?;
    let ends = join_users(rt, alloc, users)?;
    Ok((workers, ends))
}

// Runs all threads in a scope. Whatever happens, the workers are stopped before the scope ends.
// Six clauses: those of `run_threads`, but for the number of the workers.
fn run_in<'s, E, R: Threads + Wait + Sync>(
    scope: &Scope<'s, E>,
    rt: &'s R,
    alloc: Global,
    service: &'s Service,
    settings: Settings,
    lines: &'s [ScriptLine],
    passes: Passes,
) -> Result<ThreadEnds, NoMemory>
    requires settings { InRange settings }
    requires lines { All (λ l. l.user < length (all_names service.now.plan)) lines.now }
    requires workers { AreItsPasses service.now.plan service.now.queue passes.workers.items }
    requires users { passes.users.items ≡ fresh_passes service.now.plan }
    ensures workers { IfOk result (λ ends. AreItsPasses service.now.plan service.now.queue ends.workers.items) }
    ensures users { IfOk result (λ ends. HaveAnswered service.now.plan lines.now ends.users.items) }
{
    let Passes { workers, users } = passes;
    let quantum = Quantum::of(settings.quantum);
    let users = script_users(alloc, service, users, lines, quantum)?;
    note_cores(rt, service);
    let run = run_users(scope, rt, alloc, service, settings, workers, users);
    service.stop();
    let (threads, users) = run?;
    let workers = join_workers(rt, alloc, threads)?;
    Ok(ThreadEnds { workers, users })
}

/// Runs the lines of a script on a service: all users, each in a thread of their own, and beside them as many workers as the
/// settings say, each in one too. When the last user has ended the workers are stopped.
///
/// # Errors
///
/// `NoMemory` if a thread runs out of memory or can't be started. No other thread is started then, users who have begun go on to
/// their end, and the workers are stopped. All threads have ended when the call returns.
// Seven clauses: the settings with the workers' number, whose lines there are, and the passes before and after.
pub fn run_threads<R: Threads + Wait + Sync>(
    rt: &R,
    alloc: Global,
    service: &Service,
    settings: Settings,
    lines: &[ScriptLine],
    passes: Passes,
) -> Result<ThreadEnds, NoMemory>
    requires settings { InRange settings }
    requires count { length passes.workers.items ≡ settings.workers }
    requires lines { All (λ l. l.user < length (all_names service.now.plan)) lines.now }
    requires workers { AreItsPasses service.now.plan service.now.queue passes.workers.items }
    requires users { passes.users.items ≡ fresh_passes service.now.plan }
    ensures workers { IfOk result (λ ends. AreItsPasses service.now.plan service.now.queue ends.workers.items) }
    ensures users { IfOk result (λ ends. HaveAnswered service.now.plan lines.now ends.users.items) }
{
    thread::scope(
        thread::scope_env(),
        rt,
        |scope| -> Result<ThreadEnds, NoMemory>
            requires { InRange settings
                × All (λ l. l.user < length (all_names service.now.plan)) lines.now
                × AreItsPasses service.now.plan service.now.queue passes.workers.items
                × (passes.users.items ≡ fresh_passes service.now.plan) }
            ensures workers { IfOk result (λ ends. AreItsPasses service.entry.now.plan service.entry.now.queue ends.workers.items) }
            ensures users { IfOk result (λ ends. HaveAnswered service.entry.now.plan lines.entry.now ends.users.items) }
        { run_in(scope, rt, alloc, service, settings, lines, passes) },
    )
}
