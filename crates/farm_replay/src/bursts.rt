//! Steps of a node that are done together.
ghost use Rattle.std.specs.Prelude.{◌≡◌, ◌+◌, ◌<◌, ◌≤◌, None, IfOk, OnErr, OnOk, slice_get};
ghost use Rattle.domain_core.specs.Ticket.{Bursts};
ghost use Rattle.farm_replay.specs.Answering.{HaveStepped, IsAtRest};

use crate::fault::{AskFault, FarmStop};
use bootstrap::steps_add_up;
use domain_core::{Committed, NoMemory, Refusal, Ticket};
use farm_core::PlainFarm;
use std::alloc::Global;
use step_meter::{OutOfSteps, StepMeter};
use t414_step::Stepped;
use whole_farm::laws::each_call_is_private;

/// Steps of a node for which the farm asked, one after another.
#[derive(Clone, Copy)]
pub struct DoneSteps {
    /// How many come before the last. They answered `Ran`.
    pub before: u64,
    /// What the last of them answered.
    pub last: Stepped,
}

/// Does at most `most` Steps of a ticket, up to the first that would not be recorded. The meter allows them before they are
/// done, and notes them after.
///
/// # Errors
///
/// `OutOfSteps` if more are wanted than the meter allows. Those before are done.
pub fn run_ticket<M: StepMeter>(
    ticket: &mut Ticket,
    most: u64,
    meter: &mut M,
) -> Result<(), OutOfSteps>
    ensures steps { OnOk result (Bursts most ticket.old ticket.new) }
    ensures number { ticket.new.number ≡ ticket.old.number }
    ensures most { ticket.new.steps ≤ ticket.old.steps + most }
{
    // Steps after Steps are as many as both.
    steps_add_up();
    let mut left = most;
    while left > 0 {
        let some = meter.allow(left)?;
        let before = ticket.steps();
        ticket.burst(some);
        let done = ticket.steps() - before;
        meter.note(done);
        left -= done;
        if done < some {
            return Ok(());
        }
    }
    Ok(())
}

/// Does at most `most` Steps of a node, for which the farm asks, up to the first that would not be recorded. `None` if none was
/// asked for, or the first of them would not be recorded.
///
/// # Errors
///
/// `Refused` with `NoSuch` if there is no such domain or node, with `JournalFull` if the domain's journal has no room for that
/// many, and with `NoMemory` if the node can't be copied, or the journal can't grow; `Steps` if more Steps are wanted than the
/// meter allows. Nothing has changed then.
pub fn try_burst<M: StepMeter>(
    alloc: Global,
    farm: &mut PlainFarm,
    domain: u8,
    node: u8,
    most: u64,
    meter: &mut M,
) -> Result<Option<DoneSteps>, AskFault>
    ensures steps { IfOk result (λ done. HaveStepped domain node most done farm.old farm.new) }
    ensures none { IfOk result (λ done. done ≡ None → 0 < most → IsAtRest (slice_get farm.old domain) node) }
    ensures unchanged { OnErr result (farm.new ≡ farm.old) }
{
    // Each call of the whole farm is one of a domain alone.
    each_call_is_private();
    // A domain is what its journal says, before and after.
    farm.whole_law();
    let mut ticket = farm.checkout(alloc, domain, node)?;
    run_ticket(&mut ticket, most, meter)?;
    let (steps, last) = (ticket.steps(), ticket.last());
    let Committed::Done = farm.commit(alloc, domain, ticket)? else {
        return Ok(None);
    };
    farm.whole_law();
    let (Some(last), Some(before)) = (last, steps.checked_sub(1)) else {
        return Ok(None);
    };
    Ok(Some(DoneSteps { before, last }))
}

/// Like `try_burst`, but any refusal except `NoMemory` gives `None`. Nothing has changed then.
pub fn burst<M: StepMeter>(
    alloc: Global,
    farm: &mut PlainFarm,
    domain: u8,
    node: u8,
    most: u64,
    meter: &mut M,
) -> Result<Option<DoneSteps>, FarmStop>
    ensures steps { IfOk result (λ done. HaveStepped domain node most done farm.old farm.new) }
{
    match try_burst(alloc, farm, domain, node, most, meter) {
        Ok(done) => Ok(done),
        Err(AskFault::Refused(Refusal::NoMemory)) => Err(FarmStop::Memory(NoMemory)),
        Err(AskFault::Refused(_)) => Ok(None),
        Err(AskFault::Steps(end)) => Err(FarmStop::Steps(end)),
    }
}
