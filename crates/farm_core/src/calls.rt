//! A run of a plan from its opening.
ghost use Rattle.std.specs.Prelude.{◌≡◌, ◌↔◌, IsTrue, Err, IfOk, IfErr, length};
ghost use Rattle.domain_core.specs.declared.event.Refusal.TheVariants.{NoMemory as WantOfMemory};
ghost use Rattle.whole_farm.specs.Places.{places_of};
ghost use Rattle.whole_farm.specs.Laws.{caller_answers};
ghost use Rattle.farm_core.specs.Run.{calls_asked, EachToldAlone, NobodyElsewhere};

use crate::farm::PlainFarm;
use domain_core::{By, Event, NoMemory, Refusal, Reply};
use plan_rules::AcceptedPlan;
use std::alloc::Global;
use whole_farm::laws::{
    each_call_is_private, each_domain_is_private, numbered_domains_are_separate,
};

/// What each event of a run is answered, in order.
pub type Answers = Vec<Result<Reply, Refusal>>;

// Whether memory ran out at an event.
fn met_want(answer: Result<Reply, Refusal>) -> bool
    ensures { IsTrue result ↔ (answer ≡ Err WantOfMemory) }
{
    matches!(answer, Err(Refusal::NoMemory))
}

// The answers of a run, in which NoMemory is the only error.
fn answers_to(
    alloc: Global,
    plan: &AcceptedPlan,
    calls: &[(u8, By, Event)],
) -> Result<Answers, NoMemory>
    ensures { IfOk result (λ told. told.items ≡ caller_answers (places_of plan.now) (calls_asked calls.now)) }
{
    let mut farm = PlainFarm::open(alloc, plan)?;
    let mut told = Vec::new(alloc);
    for (domain, by, event) in calls {
        let answer = farm.apply(alloc, *domain, *by, *event);
        if met_want(answer) {
            return Err(NoMemory);
        }
        told.push(answer)?;
    }
    Ok(told)
}

/// Opens the farm of a plan and answers the events of all domains, in order.
///
/// Under a plan that the checker accepted, for every interleaving of the users' commands and the
/// processors' steps in which no call met want of memory, each user's enquiries, peeked words,
/// output and faults are those of a farm that holds his domain alone and takes his own commands and
/// steps in the same order; two farms that agree on his domain answer him alike.
pub fn run(
    alloc: Global,
    plan: &AcceptedPlan,
    calls: &[(u8, By, Event)],
) -> Result<Answers, Refusal>
    ensures whole { IfOk result (λ told. told.items ≡ caller_answers (places_of plan.now) (calls_asked calls.now)) }
    ensures private { IfOk result (λ told. EachToldAlone plan.now (calls_asked calls.now) told.items) }
    ensures elsewhere { IfOk result (λ told. NobodyElsewhere plan.now (calls_asked calls.now) told.items) }
    ensures one_each { IfOk result (λ told. length told.items ≡ length calls.now) }
    ensures err { IfErr result (λ refusal. refusal ≡ WantOfMemory) }
{
    // The domains of an accepted plan share no port.
    plan.separate_law();
    // Domains that are numbered and share no port have separate places.
    numbered_domains_are_separate();
    // Each domain is answered as a farm that holds it alone answers.
    each_domain_is_private();
    // A call of a domain that isn't in the plan changes nothing.
    each_call_is_private();
    match answers_to(alloc, plan, calls) {
        Ok(told) => Ok(told),
        Err(_) => Err(Refusal::NoMemory),
    }
}
