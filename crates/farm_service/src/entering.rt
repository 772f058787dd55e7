//! A domain whose history is done again while the service is open, and which workers and users enter then.
ghost use Rattle.std.specs.Prelude.{◌≡◌, ◌↔◌, ⊤, Err, IfOk, IfErr, false, true, []};
ghost use Rattle.domain_core.specs.declared.event.Refusal.TheVariants.{NoSuch};
ghost use Rattle.domain_core.specs.Domain.{DomainValue, Fits};
ghost use Rattle.farm_service.specs.Entering.{HasEntered};
ghost use Rattle.farm_service.specs.Restarts.{AllListed, AreAllOf};

use crate::NoMemory;
use crate::locking::await_fitting;
use crate::restarting::{are_all_of, await_all_listed};
use crate::service::{SeatedDomain, Service};
use crate::session::Session;
use crate::waiting::block_forever;
use domain_core::{Journal, Refusal};
use plan_rules::AcceptedPlan;
use std::sync::Wait;

/// A history that is done again on a domain.
pub trait History {
    // Holds of a domain after a call of `redo` that is true.
    ghost has_redone: { Self → DomainValue → Type 0 } = { λ _ _. ⊤ };

    /// Does the history again on a domain as it was opened; whether all of it is done.
    fn redo<R: Wait>(&mut self, rt: &R, domain: &mut SeatedDomain) -> bool
        ensures { result ≡ true → has_redone self.new domain.new };
}

// Makes the list of each session what a journal has of its user.
fn list_each(journal: &Journal, sessions: &mut [Session<'_>]) -> Result<(), NoMemory> {
    for session in sessions.iter_mut() {
        session.list_again(journal)?;
    }
    Ok(())
}

// Does a history again on a domain as it was opened, and lists the commands of its users; whether all is done. If it isn't, the
// domain and the lists are as they were opened.
fn redo_and_list<R: Wait, H: History>(
    rt: &R,
    history: &mut H,
    domain: &mut SeatedDomain,
    sessions: &mut [Session<'_>],
) -> bool
    ensures redone { result ≡ true → H.has_redone history.new domain.new }
    ensures begun { result ≡ false → domain.new.journal ≡ [] }
{
    if history.redo(rt, domain) && list_each(domain.journal(), sessions).is_ok() {
        return true;
    }
    domain.restart();
    for session in sessions.iter_mut() {
        session.begin_anew();
    }
    false
}

// Sees that a domain is the plan's of this number, that these are the sessions of all its users, and that each lists what the
// domain's journal has of the user. If it isn't so, waits for ever.
fn await_entered<R: Wait>(
    rt: &R,
    plan: &AcceptedPlan,
    number: u8,
    domain: &SeatedDomain,
    sessions: &[Session<'_>],
)
    ensures fits { Fits plan.now number domain.now }
    ensures all { AreAllOf plan.now number sessions.now }
    ensures listed { AllListed domain.now.journal sessions.now }
{
    await_fitting(rt, domain, plan, number);
    if !are_all_of(plan, number, sessions) {
        return block_forever(rt);
    }
    await_all_listed(rt, domain.journal(), sessions);
}

impl Service {
    /// Holds workers back from a domain, until [`Service::enter`] lets them in.
    pub fn hold_back(&self, domain: u8) {
        self.schedule().hold_back(domain, true);
    }

    /// Does a history again on a domain from which workers are held back, and makes the lists of all its users what its journal
    /// has of them, in one hold of its lock. The sessions are those of all users of the domain at this service, in their order,
    /// who have asked nothing yet. If not all of the history is done, or there is no memory for the lists, the domain and the lists
    /// are as they were opened. In each case workers are let in then. Returns whether all is done.
    ///
    /// # Errors
    ///
    /// `NoSuch` if the sessions aren't those of all users of this domain. Nothing has changed then.
    pub fn enter<R: Wait, H: History>(
        &self,
        rt: &R,
        number: u8,
        history: &mut H,
        sessions: &mut [Session<'_>],
    ) -> Result<bool, Refusal>
        ensures entered { IfOk result (λ done. HasEntered H.has_redone history.new done self.now.plan number sessions.new) }
        ensures no_such { (result ≡ Err NoSuch) ↔ ¬ AreAllOf self.now.plan number sessions.old }
        ensures err { IfErr result (λ refusal. (refusal ≡ NoSuch) × (sessions.new ≡ sessions.old)) }
    {
        if !are_all_of(self.plan(), number, sessions) {
            return Err(Refusal::NoSuch);
        }
        let Some(mut seated) = self.hold_found(rt, number) else {
            return Err(Refusal::NoSuch);
        };
        let is_done = redo_and_list(rt, history, &mut seated, sessions);
        await_entered(rt, self.plan(), number, &seated, sessions);
        // A domain is what its journal says.
        seated.meant_law();
        drop(seated);
        self.schedule().hold_back(number, false);
        self.note_call(number);
        Ok(is_done)
    }
}
