//! Lines on a farm on one thread, one after another, and what each is answered.
ghost use Rattle.std.specs.Prelude.{◌≡◌, length, map, IfOk, string_bytes};
ghost use Rattle.whole_farm.specs.Places.{places_of};
ghost use Rattle.script_replay.specs.Lines.{ShowsUserLine, IsSettledLine, IsLabLine, ShowsLine, AreLinesOnAFarm};

use crate::asking::{QUANTUM, ask_line};
use crate::asks::{AskedLine, UserLine};
use answer_text::write_line;
use domain_core::Refusal;
use event_text::RepeatedRequest;
use farm_replay::{AskFault, FarmStop, OpenFarm, answer_times};
use line_answers::ROUNDS;
use plan_checker::AcceptedPlan;
use std::alloc::{AllocError, Global};
use step_meter::StepMeter;

/// What came of lines.
#[derive(Drop)]
pub struct AnsweredLines {
    /// What each of them is answered, in order, each with a line feed at its end.
    pub texts: Vec<String>,
    /// The farm after them.
    pub farm: OpenFarm,
}

/// Asks what a user's line asks, and writes its output line, as the program does.
///
/// # Errors
///
/// `Steps` if more Steps are wanted than the meter allows, and `Memory` if memory runs out anywhere.
pub fn answer_user_line<M: StepMeter>(
    alloc: Global,
    farm: &mut OpenFarm,
    line: &UserLine<'_>,
    meter: &mut M,
) -> Result<String, FarmStop>
    ensures line { IfOk result (λ text. ShowsUserLine line.now farm.old.farm farm.new.farm (string_bytes text)) }
{
    let mut told = Vec::new(alloc);
    let ended = ask_line(farm, line, &mut told, meter).map_err(FarmStop::Steps)?;
    let mut text = String::new(alloc);
    write_line(&mut text, line.name, &line.command, told.as_slice(), ended)?;
    Ok(text)
}

// The same, and then the user's domain settles. It is no error if that is refused because the journal is full.
fn answer_settled<M: StepMeter>(
    alloc: Global,
    farm: &mut OpenFarm,
    line: &UserLine<'_>,
    meter: &mut M,
) -> Result<String, FarmStop>
    ensures { IfOk result (λ text. IsSettledLine line.now farm.old.farm farm.new.farm (string_bytes text)) }
{
    let text = answer_user_line(alloc, farm, line, meter)?;
    match farm.settle(line.domain, QUANTUM, ROUNDS, meter) {
        Err(AskFault::Refused(Refusal::NoMemory)) => Err(FarmStop::Memory(AllocError)),
        Err(AskFault::Steps(end)) => Err(FarmStop::Steps(end)),
        Ok(_) | Err(AskFault::Refused(_)) => Ok(text),
    }
}

// The answers to a line of the lab's own.
fn answer_request<M: StepMeter>(
    alloc: Global,
    plan: &AcceptedPlan,
    farm: &mut OpenFarm,
    request: &RepeatedRequest,
    meter: &mut M,
) -> Result<String, FarmStop>
    ensures { IfOk result (λ text. IsLabLine (places_of plan.now) request.now farm.old.farm farm.new.farm (string_bytes text)) }
{
    let mut text = answer_times(alloc, plan, farm, request, meter)?;
    text.push_str("\n")?;
    Ok(text)
}

fn answer_line<M: StepMeter>(
    alloc: Global,
    plan: &AcceptedPlan,
    farm: &mut OpenFarm,
    line: &AskedLine<'_>,
    meter: &mut M,
) -> Result<String, FarmStop>
    ensures { IfOk result (λ text. ShowsLine (places_of plan.now) line.now farm.old.farm farm.new.farm (string_bytes text)) }
{
    match line {
        AskedLine::OfLab(request) => answer_request(alloc, plan, farm, request, meter),
        AskedLine::OfUser(line) => answer_settled(alloc, farm, line, meter),
    }
}

/// Asks the farm of a plan, from its opening, what one line asks after another, and answers each. After a user's line the
/// user's domain settles.
///
/// # Errors
///
/// `Steps` if more Steps are wanted than the meter allows, and `Memory` if memory runs out anywhere.
pub fn answer_asked_lines<M: StepMeter>(
    alloc: Global,
    plan: &AcceptedPlan,
    lines: &[AskedLine<'_>],
    meter: &mut M,
) -> Result<AnsweredLines, FarmStop>
    ensures one_each { IfOk result (λ r. length r.texts.items ≡ length lines.now) }
    ensures lines { IfOk result (λ r. AreLinesOnAFarm (places_of plan.now) lines.now (map string_bytes r.texts.items)) }
{
    let mut farm = OpenFarm::open(alloc, plan)?;
    let mut texts = Vec::new(alloc);
    for line in lines {
        texts.push(answer_line(alloc, plan, &mut farm, line, meter)?)?;
    }
    Ok(AnsweredLines { texts, farm })
}
