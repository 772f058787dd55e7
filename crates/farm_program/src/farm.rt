//! A script on a service: all users in sessions of their own, and workers beside them.
ghost use Rattle.std.specs.Prelude.{◌≡◌, ◌<◌, IfOk, All, length, map, string_bytes};
ghost use Rattle.token_queue.specs.Passes.{AreItsPasses};
ghost use Rattle.whole_farm.specs.Places.{places_of};
ghost use Rattle.farm_service.specs.Closed.{AreDomainsOf, AreListed, AllMetFullTruly, AllAreRightlyAsked, EachMergeRuns};
ghost use Rattle.plan_rules.specs.Users.{all_names};
ghost use Rattle.farm_cli.specs.Settings.{InRange};
ghost use Rattle.farm_program.specs.Closing.{AreAllListed};
ghost use Rattle.farm_program.specs.Screens.{AreScreens};

use crate::threads::{Passes, ThreadEnds, run_threads};
use crate::users::UserOutcome;
use farm_cli::Settings;
use farm_service::{Closed, NoMemory, Opened, Service, UserPass, WorkerPass};
use line_answers::laws::full_is_said_truly;
use plan_checker::AcceptedPlan;
use script_lines::ScriptLine;
use std::alloc::Global;
use std::sync::Wait;
use std::thread::Threads;

/// What the users leave, in their order.
#[derive(Drop)]
struct UserOutcomes {
    /// Their passes.
    passes: Vec<UserPass>,
    /// Their output lines.
    screens: Vec<String>,
}

// Parts what the users leave into passes and output lines.
fn divide_ends(alloc: Global, ends: Vec<UserOutcome>) -> Result<UserOutcomes, NoMemory>
    ensures passes { IfOk result (λ left. left.passes.items ≡ map (λ end. end.pass) ends.items) }
    ensures screens { IfOk result (λ left. map string_bytes left.screens.items ≡ map (λ end. string_bytes end.screen) ends.items) }
{
    let mut passes = Vec::with_capacity(alloc, ends.len())?;
    let mut screens = Vec::with_capacity(alloc, ends.len())?;
    for end in ends {
        let UserOutcome { pass, screen } = end;
        passes.push(pass)?;
        screens.push(screen)?;
    }
    Ok(UserOutcomes { passes, screens })
}

/// A service that was closed, and what its users were shown.
#[derive(Drop)]
pub struct ScriptOutcome {
    /// What is left of the service.
    pub closed: Closed,
    /// The output lines of each user, in the order of the plan.
    pub screens: Vec<String>,
}

// Closes the service with the passes of its workers and of all its users.
// Six clauses: what closing vouches for, and that the screens stay.
fn close<R: Wait>(
    rt: &R,
    alloc: Global,
    service: Service,
    passes: Vec<WorkerPass>,
    left: UserOutcomes,
) -> Result<ScriptOutcome, NoMemory>
    requires { AreItsPasses service.plan service.queue passes.items }
    ensures domains { IfOk result (λ ended. AreDomainsOf service.plan ended.closed.domains.items) }
    ensures runs { IfOk result (λ ended. EachMergeRuns (places_of service.plan) ended.closed.domains.items) }
    ensures users { IfOk result (λ ended. AreListed ended.closed.domains.items left.passes.items) }
    ensures full { IfOk result (λ ended. AllMetFullTruly service.plan ended.closed.domains.items left.passes.items) }
    ensures asked { IfOk result (λ ended. AllAreRightlyAsked ended.closed.domains.items) }
    ensures screens { IfOk result (λ ended. ended.screens ≡ left.screens) }
{
    let UserOutcomes {
        passes: users,
        screens,
    } = left;
    match service.close(rt, alloc, passes, users) {
        Ok(closed) => Ok(ScriptOutcome { closed, screens }),
        Err(_) => Err(NoMemory),
    }
}

/// Runs the lines of a script on a service of the plan, closes the service with the passes of all users, and gives
/// what is left of it and the output lines of each user. So what users were answered is what the journals hold.
// Seven clauses: what is asked for and whose lines there are, and what is left of domains, runs, users, calls and screens.
pub fn run_script<R: Threads + Wait + Sync>(
    rt: &R,
    alloc: Global,
    plan: AcceptedPlan,
    lines: &[ScriptLine],
    settings: Settings,
) -> Result<ScriptOutcome, NoMemory>
    requires settings { InRange settings }
    requires lines { All (λ l. l.user < length (all_names plan)) lines.now }
    ensures domains { IfOk result (λ ended. AreDomainsOf plan ended.closed.domains.items) }
    ensures runs { IfOk result (λ ended. EachMergeRuns (places_of plan) ended.closed.domains.items) }
    ensures users { IfOk result (λ ended. AreAllListed plan ended.closed.domains.items) }
    ensures asked { IfOk result (λ ended. AllAreRightlyAsked ended.closed.domains.items) }
    ensures screens { IfOk result (λ ended. AreScreens plan lines.now ended.closed.domains.items (map string_bytes ended.screens.items)) }
{
    let Ok(opened) = Service::open(rt, alloc, plan, settings.workers) else {
        return Err(NoMemory);
    };
    let Opened {
        service,
        passes: workers,
        users,
        operator: _,
    } = opened;
    let passes = Passes { workers, users };
    let ends = run_threads(rt, alloc, &service, settings, lines, passes)?;
    let ThreadEnds { workers, users } = ends;
    let left = divide_ends(alloc, users)?;
    // What lines say of full journals is so if closing finds it so of the passes.
    full_is_said_truly();
    close(rt, alloc, service, workers, left)
}
