//! A queue of lines for one thread, which waits and can be closed.
ghost use Rattle.std.specs.Prelude.{◌≡◌, ◌<◌, ◌≤◌, ◌++◌, ◌∷◌, [], true, false, length};
ghost use Rattle.std.specs.VecDeque.{deque_len, deque_capacity};
ghost use Rattle.live_farm.specs.declared.mailbox.Sent.TheVariants.{Waits, Full};
ghost use Rattle.live_farm.specs.declared.mailbox.Mail.TheVariants.{News};
ghost use Rattle.live_farm.specs.Mailboxes.{IsFirst};

use crate::queued::QueuedLine;
use domain_core::NoMemory;
use std::alloc::Global;
use std::collections::VecDeque;
use std::sync::{Condvar, Mutex, Wait};

/// The most lines that wait for a thread.
pub const MOST_WAITING: usize = 1024;

// What waits for a thread: never more than `MOST_WAITING` lines. Memory for that many is reserved.
#[derive(Drop)]
struct QueuedLines {
    waiting: VecDeque<QueuedLine>,
    // Whether there is news to report.
    has_news: bool,
    closed: bool,
    ghost bounded: { deque_len waiting ≤ 1024 },
    ghost reserved: { 1024 ≤ deque_capacity waiting },
}

impl QueuedLines {
    // Puts a line at the end, if fewer wait than may.
    fn add(&mut self, queued: QueuedLine) -> Sent
        ensures waits { length self.old.waiting.items < 1024 → (result ≡ Waits) × (self.new.waiting.items ≡ self.old.waiting.items ++ queued ∷ []) }
        ensures full { 1024 ≤ length self.old.waiting.items → (result ≡ Full) × (self.new ≡ self.old) }
        ensures same { (self.new.has_news ≡ self.old.has_news) × (self.new.closed ≡ self.old.closed) }
    {
        if self.waiting.len() >= MOST_WAITING {
            return Sent::Full;
        }
        if self.waiting.push_back(queued).is_err() {
            return Sent::NoMemory;
        }
        Sent::Waits
    }

    // Takes the news, or else the line that waits for the longest.
    fn next(&mut self) -> Mail
        ensures news { self.old.has_news ≡ true → (result ≡ News) × (self.new ≡ record self.old { has_news = false }) }
        ensures queued { self.old.has_news ≡ false → IsFirst result self.old.waiting.items self.new.waiting.items × (self.new.has_news ≡ false) }
        ensures same { self.new.closed ≡ self.old.closed }
    {
        if self.has_news {
            self.has_news = false;
            return Mail::News;
        }
        match self.waiting.pop_front() {
            Some(queued) => Mail::Line(queued),
            None => Mail::End,
        }
    }
}

/// What became of a line.
#[derive(Clone, Copy)]
pub enum Sent {
    /// It waits for its thread.
    Waits,
    /// As many wait already as may.
    Full,
    /// There is no memory for it.
    NoMemory,
}

/// What a thread takes from its mailbox.
#[derive(Drop)]
pub enum Mail {
    /// A line.
    Line(QueuedLine),
    /// There is news to report.
    News,
    /// The mailbox is closed and empty.
    End,
}

/// The lines that wait for a thread, at most `MOST_WAITING`.
pub struct Mailbox {
    lines: Mutex<QueuedLines>,
    changed: Condvar,
}

// Dropped by hand, since a derived `Drop` makes callers prove the drop of each field.
impl Drop for Mailbox {
    fn drop(self) {
        let Mailbox {
            lines: _,
            changed: _,
        } = self;
    }
}

impl Mailbox {
    /// An empty mailbox. It has memory for all lines that may wait.
    pub fn new(alloc: Global) -> Result<Mailbox, NoMemory> {
        Ok(Mailbox {
            lines: Mutex::new(QueuedLines {
                waiting: VecDeque::with_capacity(alloc, MOST_WAITING)?,
                has_news: false,
                closed: false,
            }),
            changed: Condvar::new(),
        })
    }

    /// Puts a line at the end, if fewer wait than may.
    pub fn put<R: Wait>(&self, rt: &R, queued: QueuedLine) -> Sent {
        let mut lines = self.lines.lock(rt);
        let sent = lines.add(queued);
        self.changed.notify_one();
        sent
    }

    /// Wakes the thread, since there is news to report.
    pub fn wake<R: Wait>(&self, rt: &R) {
        let mut lines = self.lines.lock(rt);
        lines.has_news = true;
        self.changed.notify_one();
    }

    /// Says that no more lines come; whether some wait yet.
    pub fn close<R: Wait>(&self, rt: &R) -> bool {
        let mut lines = self.lines.lock(rt);
        lines.closed = true;
        self.changed.notify_all();
        !lines.waiting.is_empty()
    }

    /// Waits for a line or for news, and takes it.
    pub fn take<R: Wait>(&self, rt: &R) -> Mail {
        let mut lines = self.changed.wait_while(rt, self.lines.lock(rt), |lines| {
            lines.waiting.is_empty() && !lines.has_news && !lines.closed
        });
        lines.next()
    }
}
