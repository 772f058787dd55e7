//! The users of one domain.
ghost use Rattle.std.specs.Prelude.{◌≡◌, ◌<◌, length, vec_len};
ghost use Rattle.farm_service.specs.Restarts.{AreInOrder};
ghost use Rattle.live_farm.specs.Names.{AreTheirNames};

use crate::replay::Replay;
use domain_core::NoMemory;
use farm_service::{Service, Session, UserPass};
use line_answers::Quantum;
use record_files::{Notices, ReplayOutputs};
use std::sync::Wait;

/// The users of a domain, by their numbers there, each in a session of their own.
pub struct UserGroup<'a> {
    pub(crate) service: &'a Service,
    pub(crate) domain: u8,
    pub(crate) quantum: Quantum,
    pub(crate) names: Vec<&'a str>,
    pub(crate) sessions: Vec<Session<'a>>,
    ghost as_many: { vec_len names ≡ vec_len sessions },
    ghost there: { domain < length service.now.plan },
    ghost theirs: { AreInOrder domain sessions.items },
    ghost named: { AreTheirNames service.now.plan domain names.items },
}

// Dropped by hand, since a derived `Drop` makes callers prove the drop of each field.
impl Drop for UserGroup<'_> {
    fn drop(self) {
        let UserGroup {
            service: _,
            domain: _,
            quantum: _,
            names: _,
            sessions: _,
        } = self;
    }
}

impl UserGroup<'_> {
    /// Replays what is to be replayed of the domain.
    pub fn replay<R: Wait, K, P: Replay<K>, N: Notices>(
        &mut self,
        rt: &R,
        replay: &P,
        outputs: &ReplayOutputs<'_, K, N>,
    ) {
        let (service, domain) = (self.service, self.domain);
        replay.replay(rt, service, domain, self.sessions.as_mut_slice(), outputs);
    }

    /// Lets the domain rest until it is restarted, since memory ran out.
    pub(crate) fn halt(&self) {
        if let Some(session) = self.sessions.first() {
            session.halt();
        }
    }

    /// Lets the domain rest until it is restarted, since its records have too little room.
    pub(crate) fn halt_for_records(&self) {
        if let Some(session) = self.sessions.first() {
            session.halt_for_records();
        }
    }

    /// Lets the domain rest as if its records were full once its journal takes this many bytes.
    pub(crate) fn bound_bytes(&self, bytes: u64) {
        if let Some(session) = self.sessions.first() {
            session.bound_bytes(bytes);
        }
    }

    /// Lets the domain rest until the next line once it has recorded this many more events.
    pub(crate) fn bound_events_of_line<R: Wait>(&self, rt: &R, events: u64) {
        if let Some(session) = self.sessions.first() {
            session.bound_events_of_line(rt, events);
        }
    }

    /// Ends all sessions, and adds their passes.
    pub fn end(self, passes: &mut Vec<UserPass>) -> Result<(), NoMemory> {
        let UserGroup {
            service: _,
            domain: _,
            quantum: _,
            names: _,
            sessions,
        } = self;
        for session in sessions {
            passes.push(session.end())?;
        }
        Ok(())
    }
}
