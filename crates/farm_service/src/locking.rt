//! Taking the lock of a domain, and seeing that it keeps the right one.
ghost use Rattle.domain_core.specs.Domain.{Fits};

use crate::service::SeatedDomain;
use crate::waiting::{TRIES, back_off, block_forever};
use plan_rules::AcceptedPlan;
use std::sync::{Mutex, MutexGuard, Wait};

/// Takes the lock of a domain. It tries some times before it sleeps: others hold the lock for less time than it takes to
/// sleep and to be woken.
pub fn take<'a, R: Wait>(rt: &R, lock: &'a Mutex<SeatedDomain>) -> MutexGuard<'a, SeatedDomain> {
    for tries in 0..TRIES {
        if let Some(guard) = lock.try_lock() {
            return guard;
        }
        back_off(tries);
    }
    lock.lock(rt)
}

/// Sees that a domain is the plan's of this number. If it isn't, waits for ever.
pub(crate) fn await_fitting<R: Wait>(rt: &R, domain: &SeatedDomain, plan: &AcceptedPlan, number: u8)
    ensures { Fits plan.now number domain.now }
{
    if !domain.fits(plan, number) {
        block_forever(rt)
    }
}
