//! Up to where domains go before they rest.

use crate::service::Service;
use crate::session::Session;
use std::sync::Wait;

impl Service {
    /// Lets a domain rest until it is restarted once it has recorded this many events.
    pub fn bound_events(&self, domain: u8, events: u64) {
        if let Some(notes) = self.rest_notes(domain) {
            notes.bound_events(events);
        }
    }

    // Lets workers look at a domain again.
    fn go_on(&self, domain: u8) {
        if let Some(notes) = self.rest_notes(domain) {
            notes.note_going_on();
        }
        self.note_call(domain);
    }
}

// By a session its user's own domain is halted and bounded, so who has the sessions of one domain can't halt another.
impl Session<'_> {
    /// Lets the nodes and packets of the user's domain rest until it is restarted, since memory ran out.
    pub fn halt(&self) {
        if let Some(notes) = self.service().rest_notes(self.pass().domain()) {
            notes.note_no_memory();
        }
    }

    /// Lets the nodes and packets of the user's domain rest until it is restarted, since its records have too little room.
    pub fn halt_for_records(&self) {
        if let Some(notes) = self.service().rest_notes(self.pass().domain()) {
            notes.note_full_records();
        }
    }

    /// Lets the user's domain rest until it is restarted, as if its records were full, once its journal takes this many bytes. More
    /// bytes than before let it go on.
    pub fn bound_bytes(&self, bytes: u64) {
        let (service, domain) = (self.service(), self.pass().domain());
        if let Some(notes) = service.rest_notes(domain)
            && notes.bound_bytes(bytes)
        {
            service.go_on(domain);
        }
    }

    /// Lets the user's domain rest until the next call once it has recorded this many more events. A domain that rests for that goes
    /// on.
    pub fn bound_events_of_line<R: Wait>(&self, rt: &R, events: u64) {
        let (service, domain) = (self.service(), self.pass().domain());
        let recorded = match service.hold(rt, domain) {
            Some(seated) => seated.recorded_events(),
            None => return,
        };
        if let Some(notes) = service.rest_notes(domain)
            && notes.bound_events_of_line(recorded.saturating_add(events)) <= recorded
        {
            service.go_on(domain);
        }
    }
}
