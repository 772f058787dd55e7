//! Which nodes rest, as nothing has changed since a worker found nothing to do for them, and which workers sleep.
//!
//! All of it is advice, as the schedule is. But no worker sleeps for ever if there is work:
//!
//! - Who changes a domain counts that afterwards, and wakes a worker if all sleep. So a worker that sleeps has counted none
//!   of the changes of others since it began to look through all tokens, or is woken.
//! - A worker whose turn had something to do looks through all tokens before it sleeps. So it needs to wake nobody.

use crate::NoMemory;
use crossbeam_utils::CachePadded;
use std::alloc::Global;
use std::sync::Wait;
use std::sync::atomic::{AtomicBool, AtomicU64, AtomicUsize, Ordering};
use token_queue::Token;

/// The most domains of a plan.
pub(crate) const MOST_DOMAINS: usize = 16;

/// The most nodes of a domain.
pub(crate) const NODES_OF_A_DOMAIN: usize = 8;

/// The most nodes of a plan.
pub(crate) const MOST_NODES: usize = MOST_DOMAINS * NODES_OF_A_DOMAIN;

/// What stands for no number of changes.
const NEVER: u64 = u64::MAX;

/// The place of a node in a list of all nodes that a plan can have.
pub(crate) fn place_of(token: Token) -> usize {
    usize::from(token.domain) * NODES_OF_A_DOMAIN + usize::from(token.node)
}

// How often a domain was changed so that its nodes may have something to do.
struct Changes {
    // By anybody.
    all: AtomicU64,
    // By others than workers.
    calls: AtomicU64,
}

// Dropped by hand, since a derived `Drop` makes callers prove the drop of each field.
impl Drop for Changes {
    fn drop(self) {
        let Changes { all: _, calls: _ } = self;
    }
}

// What the last turn of a node found.
struct LastTurn {
    // Nothing to do, in a turn that began after this many changes of the domain.
    nothing_after: AtomicU64,
    // Something to do.
    is_busy: AtomicBool,
}

// Dropped by hand, since a derived `Drop` makes callers prove the drop of each field.
impl Drop for LastTurn {
    fn drop(self) {
        let LastTurn {
            nothing_after: _,
            is_busy: _,
        } = self;
    }
}

/// What changed, what turns found, and how many workers there are and sleep.
pub struct SleepBoard {
    domains: Vec<CachePadded<Changes>>,
    nodes: Vec<CachePadded<LastTurn>>,
    busy: CachePadded<AtomicUsize>,
    workers: AtomicUsize,
    sleepers: AtomicUsize,
    // What workers sleep on: it counts the calls that wake them.
    wakes: AtomicU64,
}

// Dropped by hand, since a derived `Drop` makes callers prove the drop of each field.
impl Drop for SleepBoard {
    fn drop(self) {
        let SleepBoard {
            domains: _,
            nodes: _,
            busy: _,
            workers: _,
            sleepers: _,
            wakes: _,
        } = self;
    }
}

impl SleepBoard {
    /// Nothing has changed, and nobody works.
    pub(crate) fn empty(alloc: Global) -> Result<SleepBoard, NoMemory> {
        let mut domains = Vec::with_capacity(alloc, MOST_DOMAINS)?;
        for _domain in 0..MOST_DOMAINS {
            domains.push(CachePadded::new(Changes {
                all: AtomicU64::new(0),
                calls: AtomicU64::new(0),
            }))?;
        }
        let mut nodes = Vec::with_capacity(alloc, MOST_NODES)?;
        for _node in 0..MOST_NODES {
            nodes.push(CachePadded::new(LastTurn {
                nothing_after: AtomicU64::new(NEVER),
                is_busy: AtomicBool::new(false),
            }))?;
        }
        Ok(SleepBoard {
            domains,
            nodes,
            busy: CachePadded::new(AtomicUsize::new(0)),
            workers: AtomicUsize::new(0),
            sleepers: AtomicUsize::new(0),
            wakes: AtomicU64::new(0),
        })
    }

    /// How often a domain was changed, by anybody, modulo 2^64; 0 for a domain that no plan can have.
    pub fn changes(&self, domain: u8) -> u64 {
        match self.domains.get(usize::from(domain)) {
            Some(changes) => changes.all.load(Ordering::SeqCst),
            None => 0,
        }
    }

    /// Whether a node had nothing to do in its last turn, and its domain hasn't changed since.
    pub fn is_resting(&self, token: Token) -> bool {
        match self.nodes.get(place_of(token)) {
            Some(turn) => {
                turn.nothing_after.load(Ordering::SeqCst) == self.changes(token.domain)
            }
            None => false,
        }
    }

    /// Notes that a turn of a node found nothing to do. The turn began after `changes` changes of the node's domain.
    pub fn note_idle(&self, token: Token, changes: u64) {
        if let Some(turn) = self.nodes.get(place_of(token)) {
            turn.nothing_after.store(changes, Ordering::SeqCst);
            if turn.is_busy.load(Ordering::SeqCst) && turn.is_busy.swap(false, Ordering::SeqCst) {
                self.busy.fetch_sub(1, Ordering::SeqCst);
            }
        }
    }

    /// Notes that a turn of a node found something to do. If more nodes are busy than workers are awake, one more is woken.
    pub fn note_busy(&self, token: Token) {
        if let Some(turn) = self.nodes.get(place_of(token)) {
            if !turn.is_busy.load(Ordering::SeqCst) && !turn.is_busy.swap(true, Ordering::SeqCst) {
                let before = self.busy.fetch_add(1, Ordering::SeqCst);
                if self.sleepers.load(Ordering::SeqCst) > 0 && self.awake() <= before {
                    self.wake_one();
                }
            }
        }
    }

    /// Notes that a worker moved a packet in a domain.
    pub fn note_moved(&self, domain: u8) {
        if let Some(changes) = self.domains.get(usize::from(domain)) {
            changes.all.fetch_add(1, Ordering::SeqCst);
        }
    }

    /// Notes that somebody who is no worker changed a domain. If all workers sleep, one is woken.
    pub fn note_call(&self, domain: u8) {
        if let Some(changes) = self.domains.get(usize::from(domain)) {
            changes.all.fetch_add(1, Ordering::SeqCst);
            changes.calls.fetch_add(1, Ordering::SeqCst);
        }
        if self.sleepers.load(Ordering::SeqCst) > 0 && self.awake() == 0 {
            self.wake_one();
        }
    }

    /// How often others than workers changed domains.
    pub(crate) fn calls(&self) -> u64 {
        let mut calls = 0_u64;
        for changes in &self.domains {
            calls = calls.wrapping_add(changes.calls.load(Ordering::SeqCst));
        }
        calls
    }

    // How many workers don't sleep.
    fn awake(&self) -> usize {
        let workers = self.workers.load(Ordering::SeqCst);
        workers.saturating_sub(self.sleepers.load(Ordering::SeqCst))
    }

    /// A worker begins; how many were there before it. It ends by `end_work`.
    pub fn begin_work(&self) -> usize {
        self.workers.fetch_add(1, Ordering::SeqCst)
    }

    /// A worker ends. If all others sleep one is woken, which looks through the tokens.
    pub fn end_work(&self) {
        self.workers.fetch_sub(1, Ordering::SeqCst);
        self.note_call(0);
    }

    // Wakes a worker.
    fn wake_one(&self) {
        self.wakes.fetch_add(1, Ordering::SeqCst);
        self.wakes.wake_one();
    }

    /// Wakes all workers.
    pub fn wake_all(&self) {
        self.note_call(0);
        self.wakes.fetch_add(1, Ordering::SeqCst);
        self.wakes.wake_all();
    }

    /// Sleeps until it is woken. It doesn't sleep if others than workers have changed domains since they had done so
    /// `calls` times.
    pub(crate) fn sleep<R: Wait>(&self, rt: &R, calls: u64) {
        let wakes = (self.wakes.load(Ordering::SeqCst) & 0xffff_ffff) as u32;
        self.sleepers.fetch_add(1, Ordering::SeqCst);
        if self.calls() == calls {
            self.wakes.park(rt, wakes);
        }
        self.sleepers.fetch_sub(1, Ordering::SeqCst);
    }
}
