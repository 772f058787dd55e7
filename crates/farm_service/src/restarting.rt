//! A domain that is restarted, with the lists of all its users.
ghost use Rattle.std.specs.Prelude.{◌≡◌, ◌↔◌, [], Err, IfOk, IfErr, MatchOption, IsTrue, map};
ghost use Rattle.domain_core.specs.declared.event.Refusal.TheVariants.{NoSuch};
ghost use Rattle.domain_core.specs.Domain.{Fits, state_of};
ghost use Rattle.domain_core.specs.PrivateFarm.{opening};
ghost use Rattle.std.specs.Prelude.{true};
ghost use Rattle.farm_service.specs.Restarts.{AllListed, AreAllOf, AreAllOfOne, AreInOrder, WereListed, begun_anew};

use crate::lists::is_listed_in;
use crate::service::{SeatedDomain, Service};
use crate::session::Session;
use crate::waiting::block_forever;
use domain_core::laws::fitting_stays;
use domain_core::{Journal, Refusal};
use plan_rules::AcceptedPlan;
use std::sync::Wait;

// Whether each session is that of the user of its place in a domain.
fn are_in_order(number: u8, sessions: &[Session<'_>]) -> bool
    ensures { IsTrue result ↔ AreInOrder number sessions.now }
{
    for place in 0..sessions.len() {
        let pass = sessions[place].pass();
        if pass.domain() != number || usize::from(pass.user()) != place {
            return false;
        }
    }
    true
}

/// Whether these are the sessions of all users of a domain, in their order.
pub(crate) fn are_all_of(plan: &AcceptedPlan, number: u8, sessions: &[Session<'_>]) -> bool
    ensures { IsTrue result ↔ AreAllOf plan.now number sessions.now }
{
    number < plan.domains()
        && sessions.len() == usize::from(plan.users(number))
        && are_in_order(number, sessions)
}

// The domain of all of whose users these are the sessions, none if there is no such domain.
fn domain_of_all(plan: &AcceptedPlan, sessions: &[Session<'_>]) -> Option<u8>
    ensures { MatchOption result (¬ AreAllOfOne plan.now sessions.now) (λ number. AreAllOf plan.now number sessions.now) }
{
    // A domain of an accepted plan has users.
    plan.separate_law();
    let Some(first) = sessions.first() else {
        return None;
    };
    let number = first.pass().domain();
    if are_all_of(plan, number, sessions) {
        Some(number)
    } else {
        None
    }
}

// Whether each session's list is what a journal has of its user.
fn all_listed(journal: &Journal, sessions: &[Session<'_>]) -> bool
    ensures { result ≡ true → AllListed journal.now.entries sessions.now }
{
    for session in sessions {
        if !is_listed_in(journal, session.pass()) {
            return false;
        }
    }
    true
}

/// Sees that each session's list is what a journal has of its user. If it isn't so, waits for ever.
pub(crate) fn await_all_listed<R: Wait>(rt: &R, journal: &Journal, sessions: &[Session<'_>])
    ensures { AllListed journal.now.entries sessions.now }
{
    if !all_listed(journal, sessions) {
        block_forever(rt)
    }
}

// Makes a domain as it was opened, and the lists of all its users empty.
// Six clauses: whose domain and sessions these are, and what becomes of the one and of the others.
fn begin_anew(
    domain: &mut SeatedDomain,
    plan: &AcceptedPlan,
    number: u8,
    sessions: &mut [Session<'_>],
)
    requires fits { Fits plan.now number domain.old }
    requires all { AreAllOf plan.now number sessions.old }
    ensures state { state_of domain.new ≡ opening domain.old.machine.part }
    ensures journal { domain.new.journal ≡ [] }
    ensures fits { Fits plan.now number domain.new }
    ensures sessions { sessions.new ≡ map begun_anew sessions.old }
{
    // A domain of this part and these ports goes on fitting the plan.
    fitting_stays();
    domain.restart();
    for session in sessions.iter_mut() {
        session.begin_anew();
    }
}

impl Service {
    /// Makes a domain as it was opened, but that the change counts of its words go on, and the lists of all its users
    /// empty, in one hold of its lock. The sessions are those of all users of the domain at this service, in their order.
    /// What [`Service::close`] says then holds of what came since. If a list isn't what the journal has of its user, the call waits
    /// for ever. No run comes to it whose passes are those of the service's own opening.
    ///
    /// # Errors
    ///
    /// `NoSuch` if the sessions aren't those of all users of one domain of the plan. Nothing has changed then.
    pub fn restart<R: Wait>(&self, rt: &R, sessions: &mut [Session<'_>]) -> Result<(), Refusal>
        ensures done { IfOk result (λ _. sessions.new ≡ map begun_anew sessions.old) }
        ensures listed { IfOk result (λ _. WereListed self.now.plan sessions.old) }
        ensures no_such { (result ≡ Err NoSuch) ↔ ¬ AreAllOfOne self.now.plan sessions.old }
        ensures err { IfErr result (λ refusal. (refusal ≡ NoSuch) × (sessions.new ≡ sessions.old)) }
    {
        let Some(domain) = domain_of_all(self.plan(), sessions) else {
            return Err(Refusal::NoSuch);
        };
        let Some(mut seated) = self.hold_found(rt, domain) else {
            return Err(Refusal::NoSuch);
        };
        await_all_listed(rt, seated.journal(), sessions);
        begin_anew(&mut seated, self.plan(), domain, sessions);
        self.note_anew(domain);
        drop(seated);
        self.note_call(domain);
        Ok(())
    }
}
