//! How many events workers may record in each domain until they are allowed more.
//!
//! All of it is advice, as the schedule is. Anything is allowed in a domain until it is given a bound.

use crate::NoMemory;
use crate::pace::BURST_STEPS;
use crate::sleep_board::{MOST_DOMAINS, NODES_OF_A_DOMAIN};
use crossbeam_utils::CachePadded;
use std::alloc::Global;
use std::sync::Wait;
use std::sync::atomic::{AtomicBool, AtomicU64, Ordering};
use std::time::Duration;

/// As a number of events: there is no bound.
const UNBOUNDED: u64 = u64::MAX;

/// How many events more than allowed workers record at the most: a burst of each node may be under way when the bound is reached.
const MOST_BEYOND: u64 = NODES_OF_A_DOMAIN as u64 * BURST_STEPS;

// How many events may be recorded in a domain, and how many were when a worker last looked.
struct Bound {
    allowed: AtomicU64,
    recorded: AtomicU64,
}

// Dropped by hand, since a derived `Drop` makes callers prove the drop of each field.
impl Drop for Bound {
    fn drop(self) {
        let Bound {
            allowed: _,
            recorded: _,
        } = self;
    }
}

impl Bound {
    // There is no bound.
    fn none() -> Bound {
        Bound {
            allowed: AtomicU64::new(UNBOUNDED),
            recorded: AtomicU64::new(0),
        }
    }

    // Allows more. What workers recorded beyond the bound counts, and what else was recorded doesn't.
    fn allow_more(&self, events: u64) {
        let recorded = self.recorded.load(Ordering::SeqCst);
        let allowed = self.allowed.load(Ordering::SeqCst);
        let least = recorded.saturating_sub(MOST_BEYOND);
        let more = allowed.saturating_add(events).max(least);
        self.allowed.store(more, Ordering::SeqCst);
    }

    // Whether all that may be recorded is recorded.
    fn is_reached(&self) -> bool {
        let allowed = self.allowed.load(Ordering::SeqCst);
        allowed != UNBOUNDED && self.recorded.load(Ordering::SeqCst) >= allowed
    }
}

/// How many events may be recorded in each domain, and who allows more.
pub struct Allowance {
    domains: Vec<CachePadded<Bound>>,
    // 1 if a domain has reached its bound since more was allowed, or if nobody allows more any longer. Who allows more waits on it.
    wanted: AtomicU64,
    // What is waited on between two times: it stays 0 until nobody allows more any longer.
    pause: AtomicU64,
    has_ended: AtomicBool,
}

// Dropped by hand, since a derived `Drop` makes callers prove the drop of each field.
impl Drop for Allowance {
    fn drop(self) {
        let Allowance {
            domains: _,
            wanted: _,
            pause: _,
            has_ended: _,
        } = self;
    }
}

impl Allowance {
    /// No domain has a bound.
    pub(crate) fn empty(alloc: Global) -> Result<Allowance, NoMemory> {
        let mut domains = Vec::with_capacity(alloc, MOST_DOMAINS)?;
        for _domain in 0..MOST_DOMAINS {
            domains.push(CachePadded::new(Bound::none()))?;
        }
        Ok(Allowance {
            domains,
            wanted: AtomicU64::new(0),
            pause: AtomicU64::new(0),
            has_ended: AtomicBool::new(false),
        })
    }

    /// Allows `events` events in a domain.
    pub fn allow(&self, domain: u8, events: u64) {
        if let Some(bound) = self.domains.get(usize::from(domain)) {
            bound.allowed.store(events, Ordering::SeqCst);
        }
    }

    /// Notes how many events are recorded in a domain.
    pub fn note(&self, domain: u8, recorded: u64) {
        if let Some(bound) = self.domains.get(usize::from(domain))
            && bound.allowed.load(Ordering::SeqCst) != UNBOUNDED
        {
            bound.recorded.store(recorded, Ordering::SeqCst);
            if bound.is_reached() {
                self.want();
            }
        }
    }

    /// Whether all events are recorded in a domain that may be.
    pub fn is_used_up(&self, domain: u8) -> bool {
        match self.domains.get(usize::from(domain)) {
            Some(bound) => bound.is_reached(),
            None => false,
        }
    }

    /// Allows `events` more events in each domain that has recorded all that it may.
    pub fn allow_more(&self, events: u64) {
        self.wanted.store(0, Ordering::SeqCst);
        let mut is_wanted = self.has_ended();
        for bound in &self.domains {
            if bound.is_reached() {
                bound.allow_more(events);
                is_wanted |= bound.is_reached();
            }
        }
        if is_wanted {
            self.want();
        }
    }

    // Wakes who allows more.
    fn want(&self) {
        if self.wanted.load(Ordering::SeqCst) == 0 {
            self.wanted.store(1, Ordering::SeqCst);
            self.wanted.wake_all();
        }
    }

    /// Waits until a domain has recorded all that it may, or nobody is to allow more any longer, and after that for `time`.
    pub fn await_need<R: Wait>(&self, rt: &R, time: Duration) {
        if self.wanted.load(Ordering::SeqCst) == 0 {
            self.wanted.park(rt, 0);
        }
        self.pause.park_timeout(rt, 0, time);
    }

    /// Nobody is to allow more any longer: who waits to do so is woken.
    pub fn end(&self) {
        self.has_ended.store(true, Ordering::SeqCst);
        self.pause.store(1, Ordering::SeqCst);
        self.pause.wake_all();
        self.want();
    }

    /// Whether nobody is to allow more any longer.
    pub fn has_ended(&self) -> bool {
        self.has_ended.load(Ordering::SeqCst)
    }
}
