//! The record of a domain after the lines of a text.
ghost use Rattle.std.specs.Prelude.{◌<◌, IfOk, length, string_bytes};
ghost use Rattle.script_replay.specs.Recording.{IsRecord};

use farm_records::{HeadFault, head_of, write_records_of};
use farm_replay::OpenFarm;
use plan_checker::AcceptedPlan;
use std::alloc::Global;

/// The record of a domain: its head, and the lines of what it answered, as `live` writes them.
///
/// # Errors
///
/// `Memory`; and `Unlike` if the head doesn't read as the domain's plan, which never happens.
pub fn record_of(
    alloc: Global,
    plan: &AcceptedPlan,
    domain: u8,
    farm: &OpenFarm,
) -> Result<String, HeadFault>
    requires { domain < length plan.now }
    ensures { IfOk result (λ text. IsRecord plan.now domain farm.now.farm (string_bytes text)) }
{
    let mut text = head_of(alloc, plan, domain)?;
    write_records_of(&mut text, farm.entries(domain)?.as_slice())?;
    Ok(text)
}
