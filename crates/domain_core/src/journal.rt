//! What a domain answered, in order.
ghost use Rattle.std.specs.Prelude.{◌≡◌, ◌≤◌, ◌*◌, ◌-◌, ◌^◌, min, ◌++◌, ◌∷◌, [], ◌↔◌, IsTrue, OnOk, OnErr, length, slice_get, is_ok, if◌then◌else◌};
ghost use Rattle.domain_core.specs.Journal.{IsNotEmpty, IsKeptWithin};

use crate::NoMemory;
use crate::entries::Entries;
use crate::event::{By, Event, Reply};
use std::alloc::Global;
use std::marker::Model;
use t414_step::Stepped;

/// An entry of a journal.
#[derive(Clone, Copy, PartialEq, Eq)]
pub enum Entry {
    /// One event, with who asked and the reply.
    One {
        /// Who asked.
        by: By,
        /// What was asked.
        event: Event,
        /// What was answered.
        reply: Reply,
    },
    /// Steps of one node, one after another.
    Run {
        /// Who asked for all of them.
        by: By,
        /// The node.
        node: u8,
        /// How many Steps there were, at least 1.
        count: u64,
        /// What the last of them answered; all others answered `Ran`.
        last: Stepped,
    },
}

/// What a domain answered, in order: a list of entries. Each takes 24 bytes, and a look 28 more. Memory may be reserved for a
/// number of entries: then there are never more, and one more takes no memory from the system.
pub struct Journal {
    pub(crate) entries: Entries,
}

// Dropped by hand, since a derived `Drop` makes callers prove the drop of each field.
impl Drop for Journal {
    fn drop(self) {
        let Journal { entries: _ } = self;
    }
}

impl Model for Journal {
    ghost use Rattle.domain_core.specs.Entries.{journal_of};
    ghost use Rattle.domain_core.specs.Journal.{JournalValue};

    ghost Value = { JournalValue };

    ghost view = { λ j. journal_of j.entries };
}

impl Journal {
    /// An empty journal. It takes no memory yet.
    pub fn new(alloc: Global) -> Journal
        ensures { result ≡ record { entries = []; reserved = 0 } }
    {
        Journal {
            entries: Entries::new(alloc),
        }
    }

    /// How many entries it has.
    pub fn len(&self) -> usize
        ensures { result ≡ length self.now.entries }
    {
        self.entries.len()
    }

    /// Whether it has no entry.
    pub fn is_empty(&self) -> bool
        ensures { IsTrue result ↔ (self.now.entries ≡ []) }
    {
        self.entries.len() == 0
    }

    /// The entry at a place, counted from 0, or `None` if it has fewer.
    pub fn get(&self, index: usize) -> Option<Entry>
        ensures { result ≡ slice_get self.now.entries index }
    {
        self.entries.get(index)
    }

    /// How many of the entries are looks.
    pub fn looks(&self) -> usize
        ensures { result ≤ length self.now.entries }
    {
        self.entries.looks()
    }

    /// How many bytes the entries take, with a place in the list of its user for each command: 24 of each entry at the least.
    pub fn bytes(&self) -> u64
        ensures least { min (24 * length self.now.entries) (2 ^ 64 - 1) ≤ result }
    {
        self.entries.bytes()
    }

    /// For how many entries in all memory is reserved, whether they are looks or not.
    pub fn reserved_entries(&self) -> usize
        ensures { result ≡ self.now.reserved }
    {
        self.entries.reserved_entries()
    }

    /// No entry is empty, and there are no more than memory is reserved for, if it is reserved for any.
    ///
    /// The call does nothing: its contract is the law.
    pub fn kept_law(&self)
        ensures { IsKeptWithin self.now.entries self.now.reserved }
    {
        self.entries.kept_law();
    }

    /// Reserves memory for `count` entries in all, and for 0 lets there be as many as the system has memory for. `NoMemory`
    /// too if there are more than `count` already. Then as much is reserved as before.
    pub fn reserve(&mut self, count: usize) -> Result<(), NoMemory>
        ensures ok { OnOk result (self.new.reserved ≡ count) }
        ensures entries { self.new.entries ≡ self.old.entries }
        ensures err { OnErr result (self.new ≡ self.old) }
    {
        self.entries.reserve_all(count)
    }

    /// Appends an entry that isn't empty. `NoMemory` only if no memory is reserved for one more; then the journal is what it
    /// was.
    pub fn push(&mut self, entry: Entry) -> Result<(), NoMemory>
        requires { IsNotEmpty entry }
        ensures entries { self.new.entries ≡ (if is_ok result then self.old.entries ++ entry ∷ [] else self.old.entries) }
        ensures memory { OnErr result (self.old.reserved ≤ length self.old.entries) }
        ensures reserved { self.new.reserved ≡ self.old.reserved }
    {
        self.entries.push(entry)
    }

    /// Removes all entries. Gives the memory that they took back to the system if as much can be reserved again.
    pub fn clear(&mut self)
        ensures { self.new ≡ record { entries = []; reserved = self.old.reserved } }
    {
        self.entries.clear();
    }
}
