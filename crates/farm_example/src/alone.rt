//! How to use a proof: the calls of one domain have the answers that they have on a farm of their own.
ghost use Rattle.std.specs.Prelude.{IfOk};
ghost use Rattle.farm_core.specs.Run.{calls_asked};
ghost use Rattle.farm_example.specs.Alone.{IsToldAlone};

use crate::one_thread::FarmCall;
use domain_core::Refusal;
use farm_core::{Answers, run};
use plan_checker::AcceptedPlan;
use std::alloc::Global;

/// Runs the calls of all domains, and returns the answers to those of one. They are exactly the answers that a farm which holds
/// this domain alone gives to its own calls.
///
/// # Errors
///
/// `NoMemory`.
pub fn answers_of(
    alloc: Global,
    plan: &AcceptedPlan,
    calls: &[FarmCall],
    domain: u8,
) -> Result<Answers, Refusal>
    ensures alone { IfOk result (λ told. IsToldAlone plan.now domain (calls_asked calls.now) told.items) }
{
    let answers = run(alloc, plan, calls)?;
    let mut own = Vec::new(alloc);
    for index in 0..calls.len() {
        if calls[index].0 == domain {
            own.push(answers[index])?;
        }
    }
    Ok(own)
}
