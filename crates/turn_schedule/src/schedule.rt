//! Which bursts are to be done next, how long they are, and by whom. So no two threads do the Steps of one node at the
//! same time, since all bursts but one would be stale, and a round of `settle` does one burst of each node, no matter
//! who does it.
//!
//! All of it is advice: no contract speaks of it, and a commit compares the node all the same. What is noted of one node or
//! one domain shares no cache line with what is noted of another.

use crate::NoMemory;
use crate::allowance::Allowance;
use crate::pace::longer;
use crate::sleep_board::{MOST_DOMAINS, MOST_NODES, SleepBoard, place_of};
use crossbeam_utils::CachePadded;
use std::alloc::Global;
use std::hint::spin_loop;
use std::sync::Wait;
use std::sync::atomic::{AtomicBool, AtomicU64, AtomicUsize, Ordering};
use std::thread;
use std::time::Duration;
use token_queue::Token;

/// After this many turns with nothing to do, which take some milliseconds, a worker naps, if somebody settles and
/// cores are free.
const TURNS_BEFORE_NAP: u32 = 20_000;

/// After this many turns with nothing to do a worker looks through all tokens once more, and then sleeps, if nobody
/// settles.
const TURNS_BEFORE_SLEEP: u32 = 256;

/// A worker with nothing to do gives its core away once in this many turns.
const TURNS_A_YIELD: u32 = 8;

/// How often the end of a round looks whether a burst of no Steps is over, with a pause after each time.
const PAUSES: u64 = 64;

/// It looks once more for every four Steps of the burst. A core does several times as many Steps between two looks.
const STEPS_A_PAUSE: u64 = 4;

/// The turns since a worker had something to do.
#[derive(Clone, Copy)]
pub struct Idleness {
    turns: u32,
    // How often others than workers had changed domains when it began to look through all tokens once more.
    calls: u64,
}

impl Idleness {
    /// No turn yet.
    pub fn none() -> Idleness {
        Idleness { turns: 0, calls: 0 }
    }

    // Whether it looked through all tokens once more.
    fn has_looked_through(self) -> bool {
        self.turns >= TURNS_BEFORE_SLEEP + MOST_NODES as u32
    }

    /// A turn had something to do, or hadn't.
    pub fn note(&mut self, was_busy: bool) {
        self.turns = if was_busy {
            0
        } else {
            self.turns.saturating_add(1)
        };
    }
}

/// What is known of a node.
struct NodeMarks {
    // How often it was taken and given back: odd as long as a thread does a burst of it.
    takes: AtomicU64,
    // A round has begun, and its burst of this node hasn't.
    is_due: AtomicBool,
    // How many Steps its last burst did.
    steps: AtomicU64,
    // How many quanta its last turn had while nobody settled, and how often its domain had been changed before.
    quanta: AtomicU64,
    changes: AtomicU64,
}

// Dropped by hand, since a derived `Drop` makes callers prove the drop of each field.
impl Drop for NodeMarks {
    fn drop(self) {
        let NodeMarks {
            takes: _,
            is_due: _,
            steps: _,
            quanta: _,
            changes: _,
        } = self;
    }
}

/// What is known of a domain.
struct DomainMarks {
    // How many settle there.
    settlers: AtomicUsize,
    // How many quanta the bursts of the round have.
    quanta: AtomicU64,
    // Workers do nothing there, whatever is allowed.
    is_held_back: AtomicBool,
}

// Dropped by hand, since a derived `Drop` makes callers prove the drop of each field.
impl Drop for DomainMarks {
    fn drop(self) {
        let DomainMarks {
            settlers: _,
            quanta: _,
            is_held_back: _,
        } = self;
    }
}

/// The marks of each node that a plan can have, and how many threads there are for how many cores.
///
/// A domain has its number in the plan, below 16, and a node that of its token, below 8 in its domain. Of a domain of another
/// number nothing is known, and none of its nodes is given out.
pub struct Schedule {
    nodes: Vec<CachePadded<NodeMarks>>,
    domains: Vec<CachePadded<DomainMarks>>,
    // How many settle in all.
    settling: CachePadded<AtomicUsize>,
    // How many threads the machine runs together, `usize::MAX` until that is known.
    cores: AtomicUsize,
    // What a worker naps on: it stays 0.
    nap: AtomicU64,
    // Which nodes rest, and which workers sleep.
    sleep_board: SleepBoard,
    // How many events workers may record.
    allowance: Allowance,
}

// Dropped by hand, since a derived `Drop` makes callers prove the drop of each field.
impl Drop for Schedule {
    fn drop(self) {
        let Schedule {
            nodes: _,
            domains: _,
            settling: _,
            cores: _,
            nap: _,
            sleep_board: _,
            allowance: _,
        } = self;
    }
}

// Stores a number, unless it is there: a store takes the cache line from others.
fn put(place: &AtomicU64, number: u64) {
    if place.load(Ordering::SeqCst) != number {
        place.store(number, Ordering::SeqCst);
    }
}

// The same of a mark.
fn mark(place: &AtomicBool, mark: bool) {
    if place.load(Ordering::SeqCst) != mark {
        place.store(mark, Ordering::SeqCst);
    }
}

// Whether a node is out, if it was taken and given back `takes` times.
fn is_out(takes: u64) -> bool {
    takes % 2 == 1
}

impl NodeMarks {
    // A node that no thread has out.
    fn none() -> NodeMarks {
        NodeMarks {
            takes: AtomicU64::new(0),
            is_due: AtomicBool::new(false),
            steps: AtomicU64::new(0),
            quanta: AtomicU64::new(1),
            changes: AtomicU64::new(u64::MAX),
        }
    }

    // Counts one more, if nobody else has counted since there were `takes`; returns whether it did.
    fn count(&self, takes: u64) -> bool {
        let (seqcst, more) = (Ordering::SeqCst, takes.wrapping_add(1));
        self.takes
            .compare_exchange(takes, more, seqcst, seqcst)
            .is_ok()
    }

    // Waits until the node is back, but no longer than a burst of `steps` Steps takes; returns how often it was taken
    // and given back.
    fn wait(&self, steps: u64) -> u64 {
        let pauses = PAUSES.saturating_add(steps / STEPS_A_PAUSE);
        for _pause in 0..pauses {
            let takes = self.takes.load(Ordering::SeqCst);
            if !is_out(takes) {
                return takes;
            }
            spin_loop();
        }
        self.takes.load(Ordering::SeqCst)
    }
}

impl Schedule {
    /// No node is checked out or due, and nobody settles or works. All room is made here.
    pub fn empty(alloc: Global) -> Result<Schedule, NoMemory> {
        let mut nodes = Vec::with_capacity(alloc, MOST_NODES)?;
        for _node in 0..MOST_NODES {
            nodes.push(CachePadded::new(NodeMarks::none()))?;
        }
        let mut domains = Vec::with_capacity(alloc, MOST_DOMAINS)?;
        for _domain in 0..MOST_DOMAINS {
            domains.push(CachePadded::new(DomainMarks {
                settlers: AtomicUsize::new(0),
                quanta: AtomicU64::new(1),
                is_held_back: AtomicBool::new(false),
            }))?;
        }
        Ok(Schedule {
            nodes,
            domains,
            settling: CachePadded::new(AtomicUsize::new(0)),
            cores: AtomicUsize::new(usize::MAX),
            nap: AtomicU64::new(0),
            sleep_board: SleepBoard::empty(alloc)?,
            allowance: Allowance::empty(alloc)?,
        })
    }

    // The marks of a node of a domain.
    fn marks(&self, token: Token) -> Option<&NodeMarks> {
        let marks: &NodeMarks = self.nodes.get(place_of(token))?;
        Some(marks)
    }

    // The marks of a domain.
    fn domain(&self, domain: u8) -> Option<&DomainMarks> {
        let marks: &DomainMarks = self.domains.get(usize::from(domain))?;
        Some(marks)
    }

    // Whether somebody settles in a domain.
    fn has_settler(&self, domain: u8) -> bool {
        match self.domain(domain) {
            Some(marks) => marks.settlers.load(Ordering::SeqCst) != 0,
            None => false,
        }
    }

    /// Takes a node for a burst, and returns by which number it is given back. It is not taken if another thread has it out, or if
    /// somebody settles in its domain and the round has had its burst already.
    pub fn take(&self, token: Token) -> Option<u64> {
        let marks = self.marks(token)?;
        if self.has_settler(token.domain) && !marks.is_due.load(Ordering::SeqCst) {
            return None;
        }
        let takes = marks.takes.load(Ordering::SeqCst);
        if is_out(takes) || !marks.count(takes) {
            return None;
        }
        mark(&marks.is_due, false);
        Some(takes.wrapping_add(1))
    }

    /// Gives a node back that was taken by this number, unless it was given up.
    pub fn give_back(&self, token: Token, take: u64) {
        if let Some(marks) = self.marks(token) {
            marks.count(take);
        }
    }

    /// How many quanta a burst of a round has, in a domain where somebody settles: one before the first round.
    pub fn round_quanta(&self, domain: u8) -> u64 {
        match self.domain(domain) {
            Some(marks) => marks.quanta.load(Ordering::SeqCst),
            None => 1,
        }
    }

    /// How many quanta of `quantum` Steps a turn of a node has. The node was taken, and the turn began after `changes`
    /// changes of its domain. The turn has as many as the round if somebody settles there. Else it has twice as many as
    /// the turn before, up to 256 and to 65,536 Steps, or one if the domain was changed since that turn.
    pub fn turn_quanta(&self, token: Token, changes: u64, quantum: u64) -> u64 {
        if self.has_settler(token.domain) {
            return self.round_quanta(token.domain);
        }
        let Some(marks) = self.marks(token) else {
            return 1;
        };
        let quanta = if marks.changes.load(Ordering::SeqCst) == changes {
            longer(marks.quanta.load(Ordering::SeqCst), quantum)
        } else {
            1
        };
        put(&marks.changes, changes);
        put(&marks.quanta, quanta);
        quanta
    }

    /// Notes that the journal had no room for a burst of more quanta than one: those of the round that follow have one, and
    /// so has the node's turn.
    pub fn shorten(&self, token: Token) {
        if let Some(marks) = self.domain(token.domain) {
            put(&marks.quanta, 1);
        }
        if let Some(marks) = self.marks(token) {
            put(&marks.quanta, 1);
        }
    }

    /// Notes how many Steps a node's burst did, if the bursts of the round have several quanta.
    pub fn note_steps(&self, token: Token, steps: u64) {
        if self.round_quanta(token.domain) > 1
            && let Some(marks) = self.marks(token)
        {
            put(&marks.steps, steps);
        }
    }

    /// The most Steps that one of a domain's first `nodes` nodes did in its last burst that was noted.
    pub fn most_steps(&self, domain: u8, nodes: u8) -> u64 {
        let mut most = 0_u64;
        for node in 0..nodes {
            if let Some(marks) = self.marks(Token { domain, node }) {
                most = most.max(marks.steps.load(Ordering::SeqCst));
            }
        }
        most
    }

    /// Begins a round of a domain's first `nodes` nodes: a burst of each is due, of `quanta` quanta.
    pub fn begin_round(&self, domain: u8, nodes: u8, quanta: u64) {
        if let Some(marks) = self.domain(domain) {
            put(&marks.quanta, quanta);
        }
        for node in 0..nodes {
            if let Some(marks) = self.marks(Token { domain, node }) {
                mark(&marks.is_due, true);
            }
        }
    }

    /// Waits for the commit of a node that another thread has out, about as long as a burst of `steps` Steps takes.
    /// Returns whether the node's burst of this round is over then. If it isn't, the node is no longer due and no
    /// longer out: the caller does the burst.
    pub fn await_commit(&self, token: Token, steps: u64) -> bool {
        let Some(marks) = self.marks(token) else {
            return true;
        };
        let takes = marks.wait(steps);
        let is_given_up = is_out(takes) && marks.count(takes);
        let was_due = marks.is_due.load(Ordering::SeqCst)
            && marks.is_due.swap(false, Ordering::SeqCst);
        !is_given_up && !was_due
    }

    /// Somebody begins to settle in a domain. Each such call is followed by one of `end_settling`.
    pub fn begin_settling(&self, domain: u8) {
        if let Some(marks) = self.domain(domain) {
            put(&marks.quanta, 1);
            marks.settlers.fetch_add(1, Ordering::SeqCst);
            self.settling.fetch_add(1, Ordering::SeqCst);
            self.sleep_board.note_call(domain);
        }
    }

    /// Somebody ends settling in a domain, after a call of `begin_settling`.
    pub fn end_settling(&self, domain: u8) {
        if let Some(marks) = self.domain(domain) {
            marks.settlers.fetch_sub(1, Ordering::SeqCst);
            self.settling.fetch_sub(1, Ordering::SeqCst);
            self.sleep_board.note_call(domain);
        }
    }

    /// Notes for how many threads the machine has cores. Until then it is taken to have one for each.
    pub fn note_cores(&self, cores: usize) {
        self.cores.store(cores, Ordering::SeqCst);
    }

    /// Which nodes rest, and which workers sleep.
    pub fn sleep_board(&self) -> &SleepBoard {
        &self.sleep_board
    }

    /// How many events workers may record in each domain.
    pub fn allowance(&self) -> &Allowance {
        &self.allowance
    }

    /// Holds workers back from a domain, or lets them in again.
    pub fn hold_back(&self, domain: u8, is_held_back: bool) {
        if let Some(marks) = self.domain(domain) {
            mark(&marks.is_held_back, is_held_back);
        }
    }

    /// Whether workers are held back from a domain.
    pub fn is_held_back(&self, domain: u8) -> bool {
        match self.domain(domain) {
            Some(marks) => marks.is_held_back.load(Ordering::SeqCst),
            None => false,
        }
    }

    /// Whether workers do nothing in a domain for now: they are held back from it, or it has recorded all that it may, and nobody
    /// settles there.
    pub fn is_paused(&self, domain: u8) -> bool {
        self.is_held_back(domain)
            || (self.allowance.is_used_up(domain) && !self.has_settler(domain))
    }

    /// Makes way for others before a worker's turn. If it has had nothing to do for long and may sleep, it sleeps until
    /// there may be work. While somebody settles, it naps if those who settle and the workers before it use all cores, or
    /// if it has had nothing to do for a while. Else it gives its core away now and then, so that users go first.
    pub fn make_way<R: Wait>(
        &self,
        rt: &R,
        workers_before: usize,
        idleness: &mut Idleness,
        may_sleep: bool,
    ) {
        let settling = self.settling.load(Ordering::SeqCst);
        if idleness.turns == TURNS_BEFORE_SLEEP {
            idleness.calls = self.sleep_board.calls();
        }
        let is_crowded = settling.saturating_add(workers_before)
            >= self.cores.load(Ordering::SeqCst);
        if settling > 0 && (is_crowded || idleness.turns > TURNS_BEFORE_NAP) {
            self.nap.park_timeout(rt, 0, Duration::from_millis(1));
        } else if may_sleep && settling == 0 && idleness.has_looked_through() {
            self.sleep_board.sleep(rt, idleness.calls);
            idleness.turns = 0;
        } else if idleness.turns % TURNS_A_YIELD == 1 {
            thread::yield_now();
        }
    }
}
