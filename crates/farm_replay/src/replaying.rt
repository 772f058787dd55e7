//! Requests, one after another, and their lines.
ghost use Rattle.std.specs.Prelude.{◌≡◌, length, IfOk, IfSome, map, string_bytes};
ghost use Rattle.whole_farm.specs.Places.{places_of};
ghost use Rattle.farm_replay.specs.Plain.{asked_by, AreLinesOfPlan};
ghost use Rattle.farm_replay.specs.Runs.{ShowsAsked};

use crate::answer_list::AnswerList;
use crate::fault::FarmStop;
use crate::open_farm::OpenFarm;
use event_text::RepeatedRequest;
use plan_checker::AcceptedPlan;
use std::alloc::Global;
use step_meter::StepMeter;
use whole_farm::laws::runs_add_up;

/// Asks the farm of a plan, from its opening, one request after another, and answers each in a line.
///
/// # Errors
///
/// `Steps` if more Steps are wanted than the meter allows, and `Memory` if memory runs out anywhere.
pub fn answer_requests<M: StepMeter>(
    alloc: Global,
    plan: &AcceptedPlan,
    requests: &[RepeatedRequest],
    meter: &mut M,
) -> Result<Vec<String>, FarmStop>
    ensures one_each { IfOk result (λ lines. length lines.items ≡ length requests.now) }
    ensures lines { IfOk result (λ lines. AreLinesOfPlan plan.now requests.now (map string_bytes lines.items)) }
{
    let mut farm = OpenFarm::open(alloc, plan)?;
    let mut lines = Vec::new(alloc);
    for request in requests {
        lines.push(answer_times(alloc, plan, &mut farm, request, meter)?)?;
    }
    Ok(lines)
}

/// The answers of a request in a line, as often as it is asked.
///
/// # Errors
///
/// `Steps` if more Steps are wanted than the meter allows, and `Memory` if memory runs out anywhere.
pub fn answer_times<M: StepMeter>(
    alloc: Global,
    plan: &AcceptedPlan,
    farm: &mut OpenFarm,
    request: &RepeatedRequest,
    meter: &mut M,
) -> Result<String, FarmStop>
    ensures asked { IfOk result (λ line. ShowsAsked (places_of plan.now) (asked_by request.now) farm.old.farm farm.new.farm (string_bytes line)) }
{
    // A run of calls and then of others is the run of all.
    runs_add_up();
    let mut answers = AnswerList::new(alloc);
    if let Some((domain, by, event)) = request.request.one_event() {
        farm.answer_repeated(plan, domain, by, event, request.times, &mut answers, meter)?;
        return Ok(answers.finish()?);
    }
    for _ in 0..request.times {
        farm.answer(plan, &request.request, &mut answers, meter)?;
    }
    Ok(answers.finish()?)
}
