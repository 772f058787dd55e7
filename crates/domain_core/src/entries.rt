//! The entries of a journal as they are kept: 24 bytes each, and apart from them what looks saw.
ghost use Rattle.std.specs.Prelude.{◌≡◌, ◌<◌, ◌≤◌, ◌+◌, ◌*◌, ◌-◌, ◌^◌, min, ◌++◌, ◌∷◌, [], ℕ, IsTrue, ◌↔◌, IfOk, OnOk, OnErr, MatchResult, length, slice_get, is_ok, if◌then◌else◌};
ghost use Rattle.std.specs.List.{All};
ghost use Rattle.domain_core.specs.declared.entries.SmallEntry.TheVariants.{Run};
ghost use Rattle.domain_core.specs.declared.event.Reply.TheVariants.{Look};
ghost use Rattle.domain_core.specs.declared.journal.Entry.TheVariants.{One as SpecOne, Run as SpecRun};
ghost use Rattle.domain_core.specs.Entries.{reply_of, entry_of, HasRoomToShow, journal_of};
ghost use Rattle.domain_core.specs.Journal.{expanded, steps, IsNotEmpty, IsKeptWithin};
ghost use Rattle.domain_core.specs.Ticket.{steps_told};
ghost use Rattle.t414_step.specs.declared.stepping.Stepped.TheVariants.{Ran};

use crate::NoMemory;
use crate::event::{By, Event, Moved, Reply};
use crate::journal::Entry;
use bootstrap::Seen;
use std::alloc::Global;
use std::marker::Model;
use t414_step::Stepped;
use virtual_switch::ConfigReply;

/// How many bytes an entry of a journal takes.
pub const ENTRY_BYTES: u64 = 24;

/// How many bytes more a look takes.
pub const LOOK_BYTES: u64 = 28;

/// How many bytes a command takes in the list of its user.
pub const TOLD_BYTES: u64 = 36;

// A reply that shows nothing of a node.
#[derive(Clone, Copy)]
pub(crate) enum SmallReply {
    Config(ConfigReply),
    Written,
    Full,
    Read(Option<u8>),
    Reset,
    Stepped(Stepped),
    Moved(Moved),
}

// An entry of 24 bytes. The widest field of a variant is its last, so that no variant is wider.
#[derive(Clone, Copy)]
pub(crate) enum SmallEntry {
    // One event, with a small reply.
    One {
        by: By,
        event: Event,
        reply: SmallReply,
    },
    // One event, and the place of what was seen.
    Look {
        by: By,
        event: Event,
        place: usize,
    },
    // Steps of one node.
    Run {
        by: By,
        node: u8,
        last: Stepped,
        count: u64,
    },
}

impl SmallReply {
    // The reply, or what it shows of a node.
    fn of(reply: Reply) -> Result<SmallReply, Seen>
        ensures { MatchResult result (λ small. reply_of small ≡ reply) (λ seen. reply ≡ Look seen) }
    {
        match reply {
            Reply::Config(answer) => Ok(SmallReply::Config(answer)),
            Reply::Written => Ok(SmallReply::Written),
            Reply::Full => Ok(SmallReply::Full),
            Reply::Read(byte) => Ok(SmallReply::Read(byte)),
            Reply::Reset => Ok(SmallReply::Reset),
            Reply::Look(seen) => Err(seen),
            Reply::Stepped(answer) => Ok(SmallReply::Stepped(answer)),
            Reply::Moved(answer) => Ok(SmallReply::Moved(answer)),
        }
    }

    /// The reply that it stands for.
    #[inline(always)]
    pub(crate) fn reply(self) -> Reply
        ensures { result ≡ reply_of self }
    {
        match self {
            SmallReply::Config(answer) => Reply::Config(answer),
            SmallReply::Written => Reply::Written,
            SmallReply::Full => Reply::Full,
            SmallReply::Read(byte) => Reply::Read(byte),
            SmallReply::Reset => Reply::Reset,
            SmallReply::Stepped(answer) => Reply::Stepped(answer),
            SmallReply::Moved(answer) => Reply::Moved(answer),
        }
    }
}

impl SmallEntry {
    // Lets a run of the same node go on, if the entry is one that may; whether it is.
    #[inline(always)]
    fn extend_run(&mut self, by: By, node: u8, count: u64, last: Stepped) -> bool
        requires { (before : ℕ) → self.old ≡ Run by node Ran before → before + count ≤ 2 ^ 40 }
        ensures grown { IsTrue result → (before : ℕ) × (self.old ≡ Run by node Ran before) × (self.new ≡ Run by node last (before + count)) }
        ensures unchanged { ¬ IsTrue result → self.new ≡ self.old }
    {
        if let SmallEntry::Run {
            by: asked,
            node: stepped,
            last: answer,
            count: before,
        } = self
        {
            if *answer == Stepped::Ran && *asked == by && *stepped == node {
                *answer = last;
                *before += count;
                return true;
            }
        }
        false
    }
}

// How many commands of users there are once an event is added that `by` asked for.
#[inline(always)]
fn with_command(commands: usize, by: By) -> usize {
    match by {
        By::User(_) => commands.saturating_add(1),
        By::Farm => commands,
    }
}

/// The entries of a journal. What looks saw, which is large and seldom, is kept apart in the order of the looks.
pub(crate) struct Entries {
    small: Vec<SmallEntry>,
    seen: Vec<Seen>,
    // For how many entries in all memory is reserved.
    reserved: usize,
    // How many entries are users' commands.
    commands: usize,
    alloc: Global,
}

// Dropped by hand, since a derived `Drop` makes callers prove the drop of each field.
impl Drop for Entries {
    fn drop(self) {
        let Entries {
            small: _,
            seen: _,
            reserved: _,
            commands: _,
            alloc: _,
        } = self;
    }
}

impl Model for Entries {
    ghost use Rattle.std.specs.Prelude.{◌-◌, map, vec_len, vec_capacity};
    ghost use Rattle.std.specs.List.{All};
    ghost use Rattle.domain_core.specs.Entries.{EntriesValue, entry_of, entries_left, IsStored, AreReserved};

    ghost Value = { EntriesValue };

    ghost view = { λ e. record { entries = map (entry_of e.seen.items) e.small.items; room = entries_left e.reserved (vec_len e.small) (vec_capacity e.small); look_room = vec_capacity e.seen - vec_len e.seen; reserved = e.reserved } };

    ghost invariant = { λ e. All (IsStored e.seen.items) e.small.items
        × AreReserved e.reserved (vec_len e.small) (vec_len e.seen) (vec_capacity e.small) (vec_capacity e.seen) };
}

impl Entries {
    /// No entries.
    pub(crate) fn new(alloc: Global) -> Entries
        ensures { journal_of result ≡ record { entries = []; reserved = 0 } }
    {
        Entries {
            small: Vec::new(alloc),
            seen: Vec::new(alloc),
            reserved: 0,
            commands: 0,
            alloc,
        }
    }

    /// For how many entries in all memory is reserved.
    pub(crate) fn reserved_entries(&self) -> usize
        ensures { result ≡ self.now.reserved }
    {
        self.reserved
    }

    /// How many of them are looks.
    pub(crate) fn looks(&self) -> usize
        ensures { result ≤ length self.now.entries }
    {
        self.seen.len()
    }

    /// How many bytes the entries take, with a place in the list of its user for each command.
    pub(crate) fn bytes(&self) -> u64
        ensures least { min (24 * length self.now.entries) (2 ^ 64 - 1) ≤ result }
    {
        let entries = (self.small.len() as u64).saturating_mul(ENTRY_BYTES);
        let looks = (self.seen.len() as u64).saturating_mul(LOOK_BYTES);
        let lists = (self.commands as u64).saturating_mul(TOLD_BYTES);
        entries.saturating_add(looks).saturating_add(lists)
    }

    /// No entry is empty, and there are no more than are reserved, if any are.
    ///
    /// The call does nothing: its contract is the law.
    pub(crate) fn kept_law(&self)
        ensures { IsKeptWithin self.now.entries self.now.reserved }
    {
        let _ = &self.small;
    }

    /// Reserves memory for `count` entries in all, whether they are looks or not. If there are more already, and `count` isn't
    /// 0, it isn't reserved.
    pub(crate) fn reserve_all(&mut self, count: usize) -> Result<(), NoMemory>
        ensures ok { OnOk result (self.new.reserved ≡ count) }
        ensures entries { self.new.entries ≡ self.old.entries }
        ensures err { OnErr result (self.new.reserved ≡ self.old.reserved) }
    {
        if count > 0 && self.small.len() > count {
            return Err(NoMemory);
        }
        self.small
            .reserve_exact(count.saturating_sub(self.small.len()))?;
        self.seen
            .reserve_exact(count.saturating_sub(self.seen.len()))?;
        self.reserved = count;
        Ok(())
    }

    /// How many there are.
    pub(crate) fn len(&self) -> usize
        ensures { result ≡ length self.now.entries }
    {
        self.small.len()
    }

    /// The entry at a place, if there is one.
    pub(crate) fn get(&self, index: usize) -> Option<Entry>
        ensures { result ≡ slice_get self.now.entries index }
    {
        let entry = match *self.small.get(index)? {
            SmallEntry::One { by, event, reply } => Entry::One {
                by,
                event,
                reply: reply.reply(),
            },
            SmallEntry::Look { by, event, place } => Entry::One {
                by,
                event,
                reply: Reply::Look(self.seen[place]),
            },
            SmallEntry::Run {
                by,
                node,
                last,
                count,
            } => Entry::Run {
                by,
                node,
                count,
                last,
            },
        };
        Some(entry)
    }

    // Whether one entry more would be past those that are reserved.
    #[inline(always)]
    fn is_past_reserved(&self) -> bool
        ensures { IsTrue result ↔ ((0 < self.now.reserved) × (self.now.reserved ≤ length self.now.entries)) }
    {
        self.reserved > 0 && self.small.len() >= self.reserved
    }

    /// Reserves memory for one more entry that is no look. If memory is reserved for a number of entries, there may be no more.
    #[tactic(auto, using(crate::proofs::Reserved::has_left))]
    pub(crate) fn reserve(&mut self) -> Result<(), NoMemory>
        ensures room { IfOk result (λ _. 0 < self.new.room) }
        ensures memory { OnErr result (self.old.reserved ≤ length self.old.entries) }
        ensures unchanged { journal_of self.new ≡ journal_of self.old }
    {
        if self.is_past_reserved() {
            return Err(NoMemory);
        }
        self.small.reserve(1)
    }

    /// Reserves memory for one more look.
    #[tactic(auto, using(crate::proofs::Reserved::has_left))]
    pub(crate) fn reserve_look(&mut self) -> Result<(), NoMemory>
        ensures room { IfOk result (λ _. 0 < self.new.room) }
        ensures look_room { IfOk result (λ _. 0 < self.new.look_room) }
        ensures memory { OnErr result (self.old.reserved ≤ length self.old.entries) }
        ensures unchanged { journal_of self.new ≡ journal_of self.old }
    {
        if self.is_past_reserved() {
            return Err(NoMemory);
        }
        self.seen.reserve(1)?;
        self.small.reserve(1)
    }

    // Appends a look, if there is room.
    #[tactic(auto, using(crate::proofs::Kept::look_pushed, crate::proofs::Reserved::has_place, crate::proofs::Reserved::within_more))]
    fn push_look(&mut self, by: By, event: Event, seen: Seen)
        requires room { 0 < self.old.room }
        requires look_room { 0 < self.old.look_room }
        ensures entries { self.new.entries ≡ self.old.entries ++ SpecOne by event (Look seen) ∷ [] }
        ensures reserved { self.new.reserved ≡ self.old.reserved }
    {
        let place = self.seen.len();
        self.commands = with_command(self.commands, by);
        self.seen.push_reserved(seen);
        self.small
            .push_reserved(SmallEntry::Look { by, event, place });
    }

    // Appends one event with a small reply, if there is room.
    #[inline(always)]
    #[tactic(auto, using(crate::proofs::Reserved::has_place, crate::proofs::Reserved::within_more))]
    fn push_small(&mut self, by: By, event: Event, reply: SmallReply)
        requires { 0 < self.old.room }
        ensures entries { self.new.entries ≡ self.old.entries ++ SpecOne by event (reply_of reply) ∷ [] }
        ensures reserved { self.new.reserved ≡ self.old.reserved }
    {
        self.commands = with_command(self.commands, by);
        self.small
            .push_reserved(SmallEntry::One { by, event, reply });
    }

    // Appends one event, if there is room.
    fn push_one(&mut self, by: By, event: Event, reply: Reply)
        requires room { 0 < self.old.room }
        requires look_room { HasRoomToShow reply self.old.look_room }
        ensures entries { self.new.entries ≡ self.old.entries ++ SpecOne by event reply ∷ [] }
        ensures reserved { self.new.reserved ≡ self.old.reserved }
    {
        match SmallReply::of(reply) {
            Ok(reply) => self.push_small(by, event, reply),
            Err(seen) => self.push_look(by, event, seen),
        }
    }

    // Appends a run of some Steps, if there is room.
    #[inline(never)]
    #[tactic(auto, using(crate::proofs::Reserved::has_place, crate::proofs::Reserved::within_more))]
    fn push_run(&mut self, by: By, node: u8, count: u64, last: Stepped)
        requires room { 0 < self.old.room }
        requires some { 0 < count }
        ensures entries { self.new.entries ≡ self.old.entries ++ SpecRun by node count last ∷ [] }
        ensures reserved { self.new.reserved ≡ self.old.reserved }
    {
        self.small.push_reserved(SmallEntry::Run {
            by,
            node,
            last,
            count,
        });
    }

    /// Appends an entry that isn't empty. After `NoMemory` they are what they were.
    pub(crate) fn push(&mut self, entry: Entry) -> Result<(), NoMemory>
        requires { IsNotEmpty entry }
        ensures entries { self.new.entries ≡ (if is_ok result then self.old.entries ++ entry ∷ [] else self.old.entries) }
        ensures memory { OnErr result (self.old.reserved ≤ length self.old.entries) }
        ensures reserved { self.new.reserved ≡ self.old.reserved }
    {
        self.reserve_look()?;
        match entry {
            Entry::One { by, event, reply } => self.push_one(by, event, reply),
            Entry::Run {
                by,
                node,
                count,
                last,
            } => self.push_run(by, node, count, last),
        }
        Ok(())
    }

    // Lets the last run go on, if it is one that may; whether it is.
    #[inline(always)]
    fn extend_last(&mut self, by: By, node: u8, count: u64, last: Stepped) -> bool
        requires some { 0 < count }
        requires few { length (expanded self.old.entries) + count ≤ 2 ^ 40 }
        ensures grown { IsTrue result → expanded self.new.entries ≡ expanded self.old.entries ++ steps by node count last }
        ensures reserved { self.new.reserved ≡ self.old.reserved }
        ensures unchanged { ¬ IsTrue result → self.new ≡ self.old }
    {
        let Some(entry) = self.small.last_mut() else {
            return false;
        };
        entry.extend_run(by, node, count, last)
    }

    /// Appends `count` Steps of a node: the last answered `last`, and all others `Ran`. There must be room for
    /// one more entry.
    #[inline(always)]
    #[tactic(auto, using(crate::proofs::Runs::expanded_new))]
    pub(crate) fn push_steps(&mut self, by: By, node: u8, count: u64, last: Stepped)
        requires room { 0 < self.old.room }
        requires few { length (expanded self.old.entries) + count ≤ 2 ^ 40 }
        ensures entries { expanded self.new.entries ≡ expanded self.old.entries ++ steps by node count last }
        ensures reserved { self.new.reserved ≡ self.old.reserved }
    {
        if count == 0 || self.extend_last(by, node, count, last) {
            return;
        }
        self.push_run(by, node, count, last);
    }

    /// Appends an answered event that is no look, if there is room.
    #[inline(always)]
    #[tactic(auto, using(crate::proofs::Runs::expanded_one))]
    pub(crate) fn push_answer(&mut self, by: By, event: Event, reply: SmallReply)
        requires room { 0 < self.old.room }
        requires few { length (expanded self.old.entries) < 2 ^ 40 }
        ensures entries { expanded self.new.entries ≡ expanded self.old.entries
            ++ record { call = record { by = by; event = event }; reply = reply_of reply } ∷ [] }
        ensures reserved { self.new.reserved ≡ self.old.reserved }
    {
        match (event, reply) {
            (Event::Step(node), SmallReply::Stepped(last)) => self.push_steps(by, node, 1, last),
            _ => self.push_small(by, event, reply),
        }
    }

    /// Appends an answered look, if there is room.
    #[tactic(auto, using(crate::proofs::Runs::expanded_one))]
    pub(crate) fn push_seen(&mut self, by: By, event: Event, seen: Seen)
        requires room { 0 < self.old.room }
        requires look_room { 0 < self.old.look_room }
        ensures entries { expanded self.new.entries ≡ expanded self.old.entries
            ++ record { call = record { by = by; event = event }; reply = Look seen } ∷ [] }
        ensures reserved { self.new.reserved ≡ self.old.reserved }
    {
        self.push_look(by, event, seen);
    }

    /// Appends the Steps of a ticket. The last one answered `last`. There must be room for one more entry.
    pub(crate) fn push_ticket(&mut self, node: u8, count: u64, last: Option<Stepped>)
        requires room { 0 < self.old.room }
        requires few { length (expanded self.old.entries) + count ≤ 2 ^ 40 }
        ensures entries { expanded self.new.entries ≡ expanded self.old.entries ++ steps_told node count last }
        ensures reserved { self.new.reserved ≡ self.old.reserved }
    {
        if let Some(last) = last {
            self.push_steps(By::Farm, node, count, last);
        }
    }

    // No entries, with memory reserved for `count`.
    fn with_reserved(alloc: Global, count: usize) -> Result<Entries, NoMemory>
        ensures { IfOk result (λ e. journal_of e ≡ record { entries = []; reserved = count }) }
    {
        let small = Vec::with_capacity(alloc, count)?;
        let seen = Vec::with_capacity(alloc, count)?;
        Ok(Entries {
            small,
            seen,
            reserved: count,
            commands: 0,
            alloc,
        })
    }

    /// Removes all entries, and gives the memory that they took back to the system. As much as before is reserved
    /// again. If the system hasn't that much besides what is given back, the memory is kept.
    pub(crate) fn clear(&mut self)
        ensures { journal_of self.new ≡ record { entries = []; reserved = self.old.reserved } }
    {
        match Entries::with_reserved(self.alloc, self.reserved) {
            Ok(fresh) => *self = fresh,
            Err(NoMemory) => {
                self.small.clear();
                self.seen.clear();
                self.commands = 0;
            }
        }
    }
}
