//! Why domains rest.
ghost use Rattle.std.specs.Prelude.{◌≢◌, IfSome};
ghost use Rattle.farm_service.specs.declared.resting.RestCause.TheVariants.{RoomUsedUp};

use crate::NoMemory;
use std::alloc::Global;
use std::sync::atomic::{AtomicBool, AtomicU64, Ordering};

/// Why nodes and packets of a domain rest: until it is restarted, but for the last cause.
#[derive(Clone, Copy, PartialEq, Eq)]
pub enum RestCause {
    /// The journal and the lists of the users take three quarters of the domain's room or more.
    RoomUsedUp,
    /// It was halted, since memory ran out.
    NoMemory,
    /// It was halted, since its records have too little room.
    RecordsFull,
    /// It has recorded as many events as it may: see [`crate::Service::bound_events`].
    EventsUsedUp,
    /// It has recorded as many events since its users' last line as it may: see [`crate::Session::bound_events_of_line`].
    NoLine,
}

// What is noted of a domain until it is restarted, and up to where it may go.
#[derive(Drop)]
pub(crate) struct RestNotes {
    has_no_memory: AtomicBool,
    has_full_records: AtomicBool,
    is_shown: AtomicBool,
    // How many bytes its journal may take before its records are full.
    most_bytes: AtomicU64,
    // How many events it may record.
    most_events: AtomicU64,
    // How many events it may have recorded before its users' next line.
    line_events: AtomicU64,
}

impl RestNotes {
    /// Notes of `count` domains that don't rest, and have no bounds.
    pub(crate) fn of_each(alloc: Global, count: usize) -> Result<Vec<RestNotes>, NoMemory> {
        let mut notes = Vec::with_capacity(alloc, count)?;
        for _domain in 0..count {
            notes.push(RestNotes {
                has_no_memory: AtomicBool::new(false),
                has_full_records: AtomicBool::new(false),
                is_shown: AtomicBool::new(false),
                most_bytes: AtomicU64::new(u64::MAX),
                most_events: AtomicU64::new(u64::MAX),
                line_events: AtomicU64::new(u64::MAX),
            })?;
        }
        Ok(notes)
    }

    /// Notes that memory ran out.
    pub(crate) fn note_no_memory(&self) {
        self.has_no_memory.store(true, Ordering::SeqCst);
    }

    /// Notes that the records have too little room.
    pub(crate) fn note_full_records(&self) {
        self.has_full_records.store(true, Ordering::SeqCst);
    }

    /// Notes that the rest was shown; whether it wasn't before.
    pub(crate) fn note_shown(&self) -> bool {
        !self.is_shown.swap(true, Ordering::SeqCst)
    }

    /// Notes that the domain was restarted. Its bounds stay.
    pub(crate) fn note_anew(&self) {
        self.has_no_memory.store(false, Ordering::SeqCst);
        self.has_full_records.store(false, Ordering::SeqCst);
        self.is_shown.store(false, Ordering::SeqCst);
    }

    /// Bounds the bytes of its journal; whether the bound is another one than before.
    pub(crate) fn bound_bytes(&self, bytes: u64) -> bool {
        self.most_bytes.swap(bytes, Ordering::SeqCst) != bytes
    }

    /// Bounds the events that it may record.
    pub(crate) fn bound_events(&self, events: u64) {
        self.most_events.store(events, Ordering::SeqCst);
    }

    /// Bounds the events before its users' next line; returns the bound before.
    pub(crate) fn bound_events_of_line(&self, events: u64) -> u64 {
        self.line_events.swap(events, Ordering::SeqCst)
    }

    /// Notes that the domain may go on, so that the next rest is shown again.
    pub(crate) fn note_going_on(&self) {
        self.is_shown.store(false, Ordering::SeqCst);
    }

    /// Why the domain rests if its journal takes that many bytes and has that many events, none if it doesn't.
    pub(crate) fn cause(&self, bytes: u64, events: u64) -> Option<RestCause>
        ensures { IfSome result (λ cause. cause ≢ RoomUsedUp) }
    {
        if self.has_no_memory.load(Ordering::SeqCst) {
            Some(RestCause::NoMemory)
        } else if self.has_full_records.load(Ordering::SeqCst)
            || bytes >= self.most_bytes.load(Ordering::SeqCst)
        {
            Some(RestCause::RecordsFull)
        } else if events >= self.most_events.load(Ordering::SeqCst) {
            Some(RestCause::EventsUsedUp)
        } else if events >= self.line_events.load(Ordering::SeqCst) {
            Some(RestCause::NoLine)
        } else {
            None
        }
    }
}
