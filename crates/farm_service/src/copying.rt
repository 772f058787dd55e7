//! Copies of what the journal of a domain gained.
ghost use Rattle.std.specs.Prelude.{◌≡◌, ◌≤◌, ◌↔◌, length, Err, IfOk, IfErr, vec_len, vec_capacity};
ghost use Rattle.domain_core.specs.declared.event.Refusal.TheVariants.{NoSuch};
ghost use Rattle.farm_service.specs.Domains.{GainsCopies};

use crate::service::Service;
use domain_core::{Entry, Mark, Refusal};
use std::sync::Wait;

impl Service {
    /// Copies the entries that the journal of a domain gained after a mark, as far as there is room, under the domain's
    /// lock; returns how far it came. See [`domain_core::Journal::copy_since`]. It takes no memory. After a restart of
    /// the domain begin again with [`Mark::start`]: an older mark would leave out what came since.
    ///
    /// # Errors
    ///
    /// `NoSuch` if the plan has no such domain. Nothing has changed then.
    pub fn copy_gained<R: Wait>(
        &self,
        rt: &R,
        domain: u8,
        mark: Mark,
        room: &mut Vec<Entry>,
    ) -> Result<Mark, Refusal>
        ensures copied { IfOk result
            (λ reached. GainsCopies self.now.plan domain mark reached room.old.items room.new.items (vec_len room.old) (vec_capacity room.old)) }
        ensures capacity { vec_capacity room.new ≡ vec_capacity room.old }
        ensures no_such { (result ≡ Err NoSuch) ↔ (length self.now.plan ≤ domain) }
        ensures err { IfErr result (λ refusal. (refusal ≡ NoSuch) × (room.new ≡ room.old)) }
    {
        match self.hold_found(rt, domain) {
            Some(seated) => Ok(seated.journal().copy_since(mark, room)),
            None => Err(Refusal::NoSuch),
        }
    }
}
