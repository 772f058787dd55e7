//! The two halves of a turn. Each is done in one hold of a domain's lock. Between them the ticket does its burst.
//!
//! A ticket is kept in a slot: the memory of a spent one serves the next, if the nodes' memories are of one size.
ghost use Rattle.std.specs.Prelude.{◌≡◌, ◌≢◌, true, Ok, Some, IfOk, IfErr, IfSome, slice_get};
ghost use Rattle.domain_core.specs.declared.event.Refusal.TheVariants.{NoMemory};
ghost use Rattle.domain_core.specs.Ticket.{fresh_ticket};
ghost use Rattle.farm_service.specs.Turns.{has_step, CommitsSlot, EndsTurn};

use crate::moves::move_ports;
use crate::service::SeatedDomain;
use domain_core::{Committed, Refusal, Ticket};
use std::alloc::Global;

/// What became of the node of a turn.
#[derive(Clone, Copy, PartialEq, Eq)]
pub(crate) enum Turned {
    /// It was committed, and its Steps are in the journal.
    BurstRecorded,
    /// The home node had changed since it was copied, so that the burst is lost.
    Stale,
    /// It had no Step to do, and was not copied.
    NoStep,
}

/// What became of a turn: of its node, and whether a packet moved after it. If the node's Steps were refused none did.
#[derive(Clone, Copy)]
pub(crate) struct TurnOutcome {
    pub(crate) turned: Result<Turned, Refusal>,
    pub(crate) moved: Result<bool, Refusal>,
}

/// Begins a turn: puts a ticket of the node in the slot, if a Step of it would be recorded, the limit aside; whether one
/// would. The domain's number is only written into the ticket.
pub(crate) fn begin_turn(
    alloc: Global,
    domain: &SeatedDomain,
    number: u8,
    node: u8,
    slot: &mut Option<Ticket>,
) -> Result<bool, Refusal>
    ensures step { IfOk result (λ checked_out. checked_out ≡ has_step domain.now node) }
    ensures ticket { result ≡ Ok true → IfSome (slice_get domain.now.machine.devices.nodes node) (λ home. slot.new ≡ Some (fresh_ticket number node home)) }
    ensures unchanged { result ≢ Ok true → slot.new ≡ slot.old }
    ensures err { IfErr result (λ refusal. (refusal ≡ NoMemory) × (has_step domain.now node ≡ true)) }
{
    // A domain has as many nodes as its part.
    domain.meant_law();
    if usize::from(node) < domain.part().nodes().len() && !domain.node_is_quiet(node) {
        domain.checkout_to(alloc, slot, number, node)?;
        Ok(true)
    } else {
        Ok(false)
    }
}

/// Commits the ticket of a slot, if one is checked out, unless it is stale.
pub(crate) fn commit_slot(
    alloc: Global,
    domain: &mut SeatedDomain,
    checked_out: bool,
    slot: &mut Option<Ticket>,
) -> Result<Turned, Refusal>
    ensures { CommitsSlot checked_out domain.old slot.old result domain.new slot.new }
{
    match slot {
        Some(ticket) if checked_out => match domain.commit_in_place(alloc, ticket)? {
            Committed::Done => Ok(Turned::BurstRecorded),
            Committed::Stale => Ok(Turned::Stale),
        },
        _ => Ok(Turned::NoStep),
    }
}

/// Ends a turn: the ticket of the slot is committed, if one is checked out, and then all ports move, in order, unless it was
/// refused.
pub(crate) fn end_turn(
    alloc: Global,
    domain: &mut SeatedDomain,
    checked_out: bool,
    slot: &mut Option<Ticket>,
) -> TurnOutcome
    ensures { EndsTurn checked_out domain.old slot.old result domain.new slot.new }
{
    let turned = commit_slot(alloc, domain, checked_out, slot);
    let moved = if turned.is_ok() {
        move_ports(alloc, domain)
    } else {
        Ok(false)
    };
    TurnOutcome { turned, moved }
}
