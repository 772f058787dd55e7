//! Who takes lines for the threads of the users' domains.
ghost use Rattle.std.specs.Prelude.{ℕ, ⊤};
ghost use Rattle.live_farm.specs.declared.queued.QueuedRequest.{QueuedRequest as SpecRequest};

use crate::farm_users::FarmUsers;
use crate::mailbox::Sent;
use crate::queued::QueuedRequest;
use std::sync::Wait;

/// Who takes lines for the threads of the users' domains.
pub trait LineSender {
    // Holds after a call of `send` with a request of the line of this number, for the user of this place among all.
    ghost was_sent: { Self → ℕ → ℕ → SpecRequest → Type 0 } = { λ _ _ _ _. ⊤ };

    /// Puts a request of the line of this number into the mailbox of a user's domain. `user` is the place of the user's name among
    /// all.
    fn send<R: Wait>(&self, rt: &R, user: usize, number: u64, request: QueuedRequest) -> Sent
        ensures { was_sent self.now user number request };
}

impl LineSender for FarmUsers<'_> {
    fn send<R: Wait>(&self, rt: &R, user: usize, number: u64, request: QueuedRequest) -> Sent {
        match self.queued_for(user, number, request) {
            Some((mailbox, queued)) => mailbox.put(rt, queued),
            None => Sent::Waits,
        }
    }
}
