//! The gates, which are notified of the workers' turns.

use crate::actions::QUANTUM;
use farm_service::{Committed, Gate, Refusal, Service, Token};
use std::alloc::Global;
use std::sync::atomic::{AtomicBool, AtomicU64, Ordering};
use std::sync::{Mutex, Wait};
use std::thread;

/// Which bursts are held.
#[derive(Clone, Copy)]
pub enum Hold {
    /// None.
    Nothing,
    /// Every third, for a while, so that others change its node meanwhile.
    EachThird,
    /// Node 0's, until one of node 1 was committed.
    First,
}

/// What a gate has seen.
#[derive(Clone, Copy)]
pub struct TurnsSeen {
    /// How many bursts began.
    pub begun: u64,
    /// Whether a burst of node 1 was committed.
    pub committed: bool,
    /// Whether node 0 waited for it in vain.
    pub failed: bool,
}

impl TurnsSeen {
    /// Nothing.
    pub const NOTHING: TurnsSeen = TurnsSeen {
        begun: 0,
        committed: false,
        failed: false,
    };
}

/// Holds bursts.
#[derive(Drop)]
pub struct Holding {
    hold: Hold,
    begun: AtomicU64,
    committed: Mutex<bool>,
    failed: AtomicBool,
}

impl Holding {
    /// A gate that has seen nothing.
    pub fn new(hold: Hold) -> Holding {
        Holding {
            hold,
            begun: AtomicU64::new(0),
            committed: Mutex::new(false),
            failed: AtomicBool::new(false),
        }
    }
}

impl Holding {
    /// What it has seen.
    pub fn turns<R: Wait>(&self, rt: &R) -> TurnsSeen {
        TurnsSeen {
            begun: self.begun.load(Ordering::SeqCst),
            committed: *self.committed.lock(rt),
            failed: self.failed.load(Ordering::SeqCst),
        }
    }

    // Waits for node 1's commit, for a million turns at most; whether it came.
    fn is_released<R: Wait>(&self, rt: &R) -> bool {
        for _turn in 0..1_000_000 {
            thread::yield_now();
            if *self.committed.lock(rt) {
                return true;
            }
        }
        false
    }

    // Holds node 0's burst until node 1's was committed. If that doesn't come in time the trial has failed.
    fn hold_first<R: Wait>(&self, rt: &R) {
        if !self.is_released(rt) {
            self.failed.store(true, Ordering::SeqCst);
        }
    }
}

/// A burst of a node that no gate is notified of.
pub fn burst<R: Wait>(
    rt: &R,
    alloc: Global,
    service: &Service,
    domain: u8,
    node: u8,
) -> Result<Committed, Refusal> {
    let mut ticket = service.checkout(rt, alloc, domain, node)?;
    ticket.burst(QUANTUM);
    service.commit(rt, alloc, ticket)
}

impl Gate for Holding {
    fn begins<R: Wait>(&self, rt: &R, token: Token) {
        let before = self.begun.fetch_add(1, Ordering::SeqCst);
        match self.hold {
            Hold::EachThird if before % 3 == 0 => {
                for _ in 0..20 {
                    thread::yield_now();
                }
            }
            Hold::First if token.node == 0 => self.hold_first(rt),
            _ => {}
        }
    }

    fn ended<R: Wait>(&self, rt: &R, token: Token, committed: &Result<Committed, Refusal>) {
        if token.node == 1 && *committed == Ok(Committed::Done) {
            *self.committed.lock(rt) = true;
        }
    }
}
