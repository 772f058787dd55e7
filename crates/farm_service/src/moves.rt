//! The Moves of a domain's ports.
ghost use Rattle.std.specs.Prelude.{◌≡◌, ◌≢◌, ◌<◌, ◌↔◌, [], ◌∷◌, Ok, Err, IfOk, IfErr, IsTrue, OnErr};
ghost use Rattle.domain_core.specs.Machine.{has_moved};
ghost use Rattle.domain_core.specs.MachineValue.{machine_of};
ghost use Rattle.domain_core.specs.Domain.{IsQuiet};
ghost use Rattle.domain_core.specs.declared.event.Moved.{Moved as SpecMoved};
ghost use Rattle.domain_core.specs.declared.event.Refusal.TheVariants.{NoSuch};
ghost use Rattle.domain_core.specs.declared.event.Reply.TheVariants as reply_of;
ghost use Rattle.farm_service.specs.PortMoves.{AreDone, HaveMoved, IsRefused, move_of};

use crate::service::SeatedDomain;
use domain_core::{Moved, Refusal, Reply};
use std::alloc::Global;

// Whether a packet went.
fn is_recorded(reply: Reply) -> bool
    ensures { (m : SpecMoved) → reply ≡ reply_of.Moved m → result ≡ has_moved m }
{
    matches!(reply, Reply::Moved(Moved::Passed | Moved::Lost))
}

// A Move of a port; whether a packet went.
fn move_port(alloc: Global, domain: &mut SeatedDomain, port: u8) -> Result<bool, Refusal>
    requires { port < domain.old.machine.part.count }
    ensures done { IfOk result (λ went. AreDone (move_of port ∷ []) domain.old went domain.new) }
    ensures refused { IfErr result (IsRefused (move_of port) domain.old) }
    ensures no_such { result ≢ Err NoSuch }
    ensures err { OnErr result (domain.new ≡ domain.old) }
{
    Ok(is_recorded(domain.move_port(alloc, port)?))
}

/// Moves of all ports of a domain, in order; whether a packet went. The first refusal ends them.
pub(crate) fn move_ports(alloc: Global, domain: &mut SeatedDomain) -> Result<bool, Refusal>
    ensures moved { HaveMoved domain.old result domain.new }
    ensures no_such { result ≢ Err NoSuch }
{
    let mut went = false;
    for port in 0..domain.part().count() {
        went |= move_port(alloc, domain, port)?;
    }
    Ok(went)
}

/// What became of the Moves that end a round: whether a packet went, and whether no Step and no Move would be recorded then,
/// the limit aside.
#[derive(Clone, Copy)]
pub(crate) struct MovesOutcome {
    pub(crate) moved: bool,
    pub(crate) is_quiet: bool,
}

/// Ends a round: all ports of a domain move, in order, and then it is asked whether it is quiet.
pub(crate) fn end_round(alloc: Global, domain: &mut SeatedDomain) -> Result<MovesOutcome, Refusal>
    ensures moved { IfOk result (λ e. HaveMoved domain.old (Ok e.moved) domain.new) }
    ensures quiet { IfOk result (λ e. IsTrue e.is_quiet ↔ IsQuiet domain.new.machine.part (machine_of domain.new.machine)) }
    ensures refused { IfErr result (λ refusal. HaveMoved domain.old (Err refusal) domain.new) }
    ensures no_such { result ≢ Err NoSuch }
{
    let moved = move_ports(alloc, domain)?;
    let is_quiet = domain.quiet();
    Ok(MovesOutcome { moved, is_quiet })
}
