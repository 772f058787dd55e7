//! How far the record of a domain is replayed, for those who ask meanwhile.

use std::sync::atomic::{AtomicBool, AtomicU64, Ordering};

/// How far the record of a domain is replayed. Other threads look at it, and may end it.
pub struct ReplayMeter {
    is_under_way: AtomicBool,
    is_ended: AtomicBool,
    steps: AtomicU64,
}

// Dropped by hand, since a derived `Drop` makes callers prove the drop of each field.
impl Drop for ReplayMeter {
    fn drop(self) {
        let ReplayMeter {
            is_under_way: _,
            is_ended: _,
            steps: _,
        } = self;
    }
}

impl ReplayMeter {
    /// Nothing is to be replayed.
    pub fn new() -> ReplayMeter {
        ReplayMeter {
            is_under_way: AtomicBool::new(false),
            is_ended: AtomicBool::new(false),
            steps: AtomicU64::new(0),
        }
    }

    /// Notes that a replay begins, or that it is over.
    pub fn note_under_way(&self, is_under_way: bool) {
        self.is_under_way.store(is_under_way, Ordering::SeqCst);
    }

    /// Whether a replay has begun, and isn't over.
    pub fn is_under_way(&self) -> bool {
        self.is_under_way.load(Ordering::SeqCst)
    }

    /// Ends the replay at its next Step or line, for good.
    pub fn end(&self) {
        self.is_ended.store(true, Ordering::SeqCst);
    }

    /// Whether it was ended.
    pub fn is_ended(&self) -> bool {
        self.is_ended.load(Ordering::SeqCst)
    }

    /// Counts Steps that were done; returns how many there were before.
    pub fn count(&self, steps: u64) -> u64 {
        self.steps.fetch_add(steps, Ordering::SeqCst)
    }

    /// How many Steps were done.
    pub fn steps(&self) -> u64 {
        self.steps.load(Ordering::SeqCst)
    }
}
