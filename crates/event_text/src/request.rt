//! What a line asks.
ghost use Rattle.std.specs.Prelude.{IfSome};
ghost use Rattle.event_text.specs.Requests.{AsksOnly};

use domain_core::{By, Event};

/// What a line asks of a farm, and how often.
#[derive(Drop)]
pub struct RepeatedRequest {
    pub times: u64,
    pub request: Request,
}

/// What is asked of a farm.
#[derive(Drop)]
pub enum Request {
    /// The words of all physical outputs.
    Words,
    /// A fresh farm of the same plan, with no tickets.
    Reopen,
    /// Events of a domain by one asker, one after another.
    Events(u8, By, Vec<Event>),
    /// Something else of a domain.
    Domain(u8, DomainRequest),
}

impl Request {
    /// The event that is asked, with its domain and who asks, if there is only one.
    pub fn one_event(&self) -> Option<(u8, By, Event)>
        ensures event { IfSome result (λ one. AsksOnly one.0 one.1 one.2 self.now) }
    {
        let Request::Events(domain, by, events) = self else {
            return None;
        };
        match events.as_slice() {
            [event] => Some((*domain, *by, *event)),
            _ => None,
        }
    }
}

/// What is asked of a domain beside events.
#[derive(Clone, Copy)]
pub enum DomainRequest {
    /// Whether no Step and no Move would be recorded.
    Quiet,
    /// The word of a virtual output.
    Word(u8),
    /// How many events are recorded.
    Recorded,
    /// To be as it was opened.
    Restart,
    /// What it answered.
    Journal,
    /// A ticket of a node.
    Checkout(u8),
    /// Steps of the ticket of this number, and how many at most.
    Burst(usize, u64),
    /// To commit a ticket.
    Commit(usize),
    /// To let its nodes run: how many Steps each does in a round, and how many rounds there are at most.
    Settle(u64, u64),
}
