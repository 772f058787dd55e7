//! Reading a plan from its text, and accepting it.
ghost use Rattle.std.specs.Prelude.{IfOk, IfErr};
ghost use Rattle.plan_checker.specs.Accepting.{IsAcceptedText, IsPlanFault};

use crate::read::read_plan;
use plan_rules::{AcceptedPlan, PlanFault, check};
use std::alloc::Global;

/// Reads the text of a plan, and accepts the plan where it is separate.
///
/// # Errors
///
/// The fault for which `read_plan` refuses the text, or `check` the plan; `NoMemory`.
pub fn accept_plan(alloc: Global, text: &[u8]) -> Result<AcceptedPlan, PlanFault>
    ensures accepted { IfOk result (IsAcceptedText text.now) }
    ensures refused { IfErr result (IsPlanFault text.now) }
{
    check(alloc, read_plan(alloc, text)?)
}
