//! Copies of what a journal gained, piece by piece.
ghost use Rattle.std.specs.Prelude.{◌≡◌, ◌≤◌, ◌<◌, ◌+◌, ◌∷◌, [], List, length, drop, option_to_list, vec_capacity, vec_len};
ghost use Rattle.domain_core.specs.declared.journal.Entry.{Entry as SpecEntry};
ghost use Rattle.domain_core.specs.Journal.{expanded};
ghost use Rattle.domain_core.specs.Marks.{Copies, StandsIn, events_from};

use crate::journal::{Entry, Journal};

/// How far a journal was copied: its first `entries` entries, and the first `events` events of the next one.
#[derive(Clone, Copy)]
pub struct Mark {
    entries: usize,
    events: u64,
}

impl Mark {
    /// Before anything was copied.
    pub fn start() -> Mark
        ensures all { (journal : List SpecEntry) → events_from result journal ≡ expanded journal }
        ensures stands { (journal : List SpecEntry) → StandsIn journal result }
    {
        Mark {
            entries: 0,
            events: 0,
        }
    }
}

impl Entry {
    // How many events it stands for.
    fn count(self) -> u64
        ensures { result ≡ length (expanded (self ∷ [])) }
    {
        match self {
            Entry::One { .. } => 1,
            Entry::Run { count, .. } => count,
        }
    }

    // What it stands for without its first `events` events, none if that is nothing.
    fn behind(self, events: u64) -> Option<Entry>
        ensures { drop events (expanded (self ∷ [])) ≡ expanded (option_to_list result) }
    {
        match self {
            Entry::One { .. } if events == 0 => Some(self),
            Entry::Run {
                by,
                node,
                count,
                last,
            } if events < count => Some(Entry::Run {
                by,
                node,
                count: count - events,
                last,
            }),
            _ => None,
        }
    }
}

impl Journal {
    /// Copies the entries that came after a mark, as far as there is room; returns how far it came. A run that has gone
    /// on since then is copied with the Steps that are new. It takes no memory.
    ///
    /// A mark past the journal's end, as after a restart, copies nothing and stays.
    pub fn copy_since(&self, mark: Mark, room: &mut Vec<Entry>) -> Mark
        ensures copies { Copies self.now.entries mark result room.old.items room.new.items }
        ensures all { length self.now.entries + vec_len room.old ≤ mark.entries + vec_capacity room.old → events_from result self.now.entries ≡ [] }
        ensures rest { vec_len room.new < vec_capacity room.new → events_from result self.now.entries ≡ [] }
        ensures past { length self.now.entries ≤ mark.entries → (result ≡ mark) × (room.new.items ≡ room.old.items) }
        ensures capacity { vec_capacity room.new ≡ vec_capacity room.old }
    {
        let mut reached = mark;
        let mut events = mark.events;
        for index in mark.entries..self.len() {
            let Some(entry) = self.get(index) else {
                return reached;
            };
            if let Some(rest) = entry.behind(events) {
                if room.len() == room.capacity() {
                    return reached;
                }
                room.push_reserved(rest);
                reached = Mark {
                    entries: index,
                    events: entry.count(),
                };
            }
            events = 0;
        }
        reached
    }
}
