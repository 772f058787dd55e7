//! How it is with a domain.
ghost use Rattle.std.specs.Prelude.{◌≡◌, ◌≤◌, ◌↔◌, length, is_some, Err, Some, IfOk, IfErr, IfSome, slice_get, true};
ghost use Rattle.domain_core.specs.declared.event.Refusal.TheVariants.{NoSuch};
ghost use Rattle.domain_core.specs.Domain.{DomainValue as SpecDomain};
ghost use Rattle.plan_rules.specs.Part.{part_of};
ghost use Rattle.farm_service.specs.Domains.{IsFound, IsStatusOf};
ghost use Rattle.farm_service.specs.Restarts.{AllListed};
ghost use Rattle.farm_service.specs.Rooms.{IsRoomStatusOf, IsUsedUp, least_bytes};
ghost use Rattle.farm_service.specs.declared.resting.RestCause.TheVariants.{RoomUsedUp as SpecRoomUsedUp};

use crate::restarting::await_all_listed;
use crate::resting::RestCause;
use crate::room::Room;
use crate::service::{SeatedDomain, Service};
use crate::session::Session;
use domain_core::Refusal;
use std::sync::Wait;

/// How it is with a domain.
#[derive(Clone, Copy)]
pub struct DomainStatus {
    /// How many events are recorded since it was opened or restarted.
    pub recorded: u64,
    /// How many events it may record.
    pub limit: u64,
    /// Whether no Step and no Move would be recorded, the limit aside.
    pub is_quiet: bool,
    /// How it is with its room.
    pub room: RoomStatus,
}

/// How it is with the room of a domain.
#[derive(Clone, Copy)]
pub struct RoomStatus {
    /// How many bytes of it are taken.
    pub bytes: u64,
    /// How many bytes there are.
    pub room_bytes: u64,
    /// Why nodes and packets of the domain rest, none if they don't. If there are several causes, it is the first of them in
    /// the order of [`RestCause`].
    pub rests: Option<RestCause>,
}

// How it is with a domain, which stays.
fn status_of(domain: &mut SeatedDomain, bound: Room, room: RoomStatus) -> DomainStatus
    requires { IsRoomStatusOf bound domain.old room }
    ensures status { IsStatusOf bound domain.old result }
    ensures unchanged { domain.new ≡ domain.old }
{
    DomainStatus {
        recorded: domain.recorded_events(),
        limit: domain.part().limit(),
        is_quiet: domain.quiet(),
        room,
    }
}

impl Service {
    // Why a domain rests, if that many bytes of its room are taken, and its journal has that many events.
    fn rest_cause(&self, number: u8, taken: u64, events: u64) -> Option<RestCause>
        ensures { (result ≡ Some SpecRoomUsedUp) ↔ IsUsedUp self.now.room taken }
    {
        if self.room().is_used_up(taken) {
            return Some(RestCause::RoomUsedUp);
        }
        match self.rest_notes(number) {
            Some(notes) => notes.cause(taken, events),
            None => None,
        }
    }

    // How it is with the room of a domain that is held.
    pub(crate) fn room_taken(&self, number: u8, domain: &SeatedDomain) -> RoomStatus
        ensures { IsRoomStatusOf self.now.room domain.now result }
    {
        let bytes = domain.journal().bytes();
        RoomStatus {
            bytes,
            room_bytes: self.room().bytes(),
            rests: self.rest_cause(number, bytes, domain.recorded_events()),
        }
    }

    // Whether nodes and packets of a domain rest: its room is used up, or it was halted.
    pub(crate) fn has_no_room(&self, number: u8, domain: &SeatedDomain) -> bool
        ensures { IsUsedUp self.now.room (least_bytes domain.now) → result ≡ true }
    {
        self.room_taken(number, domain).rests.is_some()
    }

    /// How it is with the room of a domain, under its lock.
    ///
    /// # Errors
    ///
    /// `NoSuch` if the plan has no such domain.
    pub fn room_status<R: Wait>(&self, rt: &R, domain: u8) -> Result<RoomStatus, Refusal>
        ensures status { IfOk result (λ status. (d : SpecDomain) × IsFound self.now.plan domain d × IsRoomStatusOf self.now.room d status) }
        ensures no_such { (result ≡ Err NoSuch) ↔ (length self.now.plan ≤ domain) }
        ensures err { IfErr result (λ refusal. refusal ≡ NoSuch) }
    {
        let Some(seated) = self.hold_found(rt, domain) else {
            return Err(Refusal::NoSuch);
        };
        Ok(self.room_taken(domain, &seated))
    }

    /// How it is with a domain, under its lock.
    ///
    /// # Errors
    ///
    /// `NoSuch` if the plan has no such domain.
    // Five clauses: what is said of the domain, of its numbers, and when it is refused.
    pub fn status<R: Wait>(&self, rt: &R, domain: u8) -> Result<DomainStatus, Refusal>
        ensures status { IfOk result (λ status. (d : SpecDomain) × IsFound self.now.plan domain d × IsStatusOf self.now.room d status) }
        ensures limit { IfOk result (λ status. IfSome (slice_get self.now.plan domain) (λ d. status.limit ≡ (part_of d).limit)) }
        ensures within { IfOk result (λ status. status.recorded ≤ status.limit) }
        ensures no_such { (result ≡ Err NoSuch) ↔ (length self.now.plan ≤ domain) }
        ensures err { IfErr result (λ refusal. refusal ≡ NoSuch) }
    {
        match self.hold_found(rt, domain) {
            Some(mut seated) => {
                let room = self.room_taken(domain, &seated);
                Ok(status_of(&mut seated, self.room(), room))
            }
            None => Err(Refusal::NoSuch),
        }
    }
    /// How it is with the domain of these sessions, under its lock, where the list of each is what the domain's journal has of its
    /// user. If a list isn't, the call waits for ever. No run comes to it whose passes are those of the service's own opening.
    ///
    /// # Errors
    ///
    /// `NoSuch` if the plan has no such domain.
    pub fn listed_status<R: Wait>(
        &self,
        rt: &R,
        domain: u8,
        sessions: &[Session<'_>],
    ) -> Result<DomainStatus, Refusal>
        ensures status { IfOk result (λ status. (d : SpecDomain) × IsFound self.now.plan domain d × IsStatusOf self.now.room d status
            × AllListed d.journal sessions.now) }
        ensures no_such { (result ≡ Err NoSuch) ↔ (length self.now.plan ≤ domain) }
        ensures err { IfErr result (λ refusal. refusal ≡ NoSuch) }
    {
        let Some(mut seated) = self.hold_found(rt, domain) else {
            return Err(Refusal::NoSuch);
        };
        await_all_listed(rt, seated.journal(), sessions);
        let room = self.room_taken(domain, &seated);
        Ok(status_of(&mut seated, self.room(), room))
    }
}
