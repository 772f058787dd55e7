//! The record of a domain: an answer is written to it before anybody is given the answer.
ghost use Rattle.std.specs.Prelude.{◌≡◌, ◌↔◌, ◌<◌, ◌≤◌, ◌+◌, ◌^◌, ◌||◌, ◌&&◌, ◌++◌, [], ◌∷◌, false, true, None, not, IfOk, OnOk, OnErr, IsErr, IsTrue, IfSome, length, vec_capacity, string_bytes};
ghost use Rattle.std.specs.Io.KnownBytes.{Appends};
ghost use Rattle.farm_records.specs.RecordText.{record_text, lines_of};
ghost use Rattle.record_keeping.specs.Counts.{commands_among, saturated, IsCountBefore};
ghost use Rattle.record_keeping.specs.Keeping.{HoldsInRoom, KeepsGained, KeepsSome, IsSameRecord};
ghost use Rattle.record_keeping.specs.KeptPieces.{KeepsPieces, KeepsNothing};
ghost use Rattle.record_keeping.specs.Pieces.{IsAtStart};
ghost use Rattle.record_keeping.specs.Writing.{Becomes, IsAllWhole, IsJust};

use crate::domain_record::DomainRecord;
use crate::store::{NotKept, RecordStore};
use domain_core::laws::journals_add_up;
use domain_core::{Entry, Journal, Mark, NoMemory};
use farm_records::write_records_of;
use farm_service::{Service, is_command};
use std::alloc::Global;
use std::io;
use std::sync::Wait;

/// The most entries that are copied under a domain's lock at a time.
pub const PIECE: usize = 1024;

// How many commands an entry has: one or none.
fn commands_of(entry: Entry) -> u64
    ensures commands { result ≡ commands_among (entry ∷ []) }
    ensures most { result ≤ 1 }
{
    match entry {
        Entry::One { event, .. } => { if is_command(event) { 1 } else { 0 } }
        Entry::Run { .. } => 0,
    }
}

// How many commands entries have.
fn commands_of_all(entries: &[Entry]) -> u64
    ensures { result ≡ commands_among entries.now }
{
    // Entries stand for what the one and then the others stand for.
    journals_add_up();
    let mut commands = 0;
    for entry in entries {
        commands += commands_of(*entry);
    }
    commands
}

// A count of commands, and then those of these entries.
fn count_with(commands: u64, entries: &[Entry]) -> u64
    ensures { result ≡ saturated (commands + commands_among entries.now) }
{
    commands.saturating_add(commands_of_all(entries))
}

// How far a journal is recorded, and how many commands it has up to there.
#[derive(Clone, Copy)]
struct Reached {
    mark: Mark,
    commands: u64,
}

// The next place to which a journal is recorded, after as many entries as there is room for.
fn next_reached(reached: Reached, journal: &Journal, room: &mut Vec<Entry>) -> Reached
    requires commands { IsCountBefore journal.now.entries reached.mark reached.commands }
    requires short { length journal.now.entries < 2 ^ 64 }
    ensures commands { IsCountBefore journal.now.entries result.mark result.commands }
    ensures places { vec_capacity room.new ≡ vec_capacity room.old }
{
    room.clear();
    let mark = journal.copy_since(reached.mark, room);
    Reached {
        mark,
        commands: reached.commands + commands_of_all(room.as_slice()),
    }
}

// After all that a journal has.
fn end_of(journal: &Journal, room: &mut Vec<Entry>) -> Reached
    ensures commands { IsCountBefore journal.now.entries result.mark result.commands }
    ensures places { vec_capacity room.new ≡ vec_capacity room.old }
{
    let mut reached = Reached {
        mark: Mark::start(),
        commands: 0,
    };
    for _ in 0..=journal.len() {
        reached = next_reached(reached, journal, room);
        if room.len() < room.capacity() {
            break;
        }
    }
    room.clear();
    reached
}

impl<S: RecordStore> DomainRecord<S> {
    /// A store that holds this head, and after it what this journal has. The record counts the commands of the journal.
    // Seven clauses: what the store holds, and with what the record begins.
    pub fn of(
        alloc: Global,
        store: S,
        head: String,
        journal: &Journal,
    ) -> Result<DomainRecord<S>, NoMemory>
        requires whole { S.whole store ≡ S.contents store }
        requires lines { IfSome (S.contents store) (λ held. held ≡ string_bytes head ++ record_text (lines_of journal.now.entries)) }
        ensures store { IfOk result (λ opened. opened.store ≡ store) }
        ensures head { IfOk result (λ opened. opened.head ≡ head) }
        ensures places { IfOk result (λ opened. vec_capacity opened.room ≡ PIECE) }
        ensures commands { IfOk result (λ opened. IsCountBefore journal.now.entries opened.mark opened.commands) }
        ensures kept { IfOk result (λ opened. (opened.failed ≡ false) × (opened.owes_next ≡ false)) }
    {
        let mut room = Vec::with_capacity(alloc, PIECE)?;
        let Reached { mark, commands } = end_of(journal, &mut room);
        Ok(DomainRecord {
            store,
            head,
            mark,
            commands,
            room,
            text: String::new(alloc),
            failed: false,
            owes_next: false,
            is_out: false,
            is_bare: journal.len() == 0,
            most_bytes: u64::MAX,
        })
    }

    /// A store whose record can't be taken, for a domain with this head: nothing is recorded until its journal begins again.
    pub fn out(alloc: Global, store: S, head: String) -> Result<DomainRecord<S>, NoMemory>
        ensures store { IfOk result (λ opened. opened.store ≡ store) }
        ensures head { IfOk result (λ opened. opened.head ≡ head) }
        ensures places { IfOk result (λ opened. vec_capacity opened.room ≡ PIECE) }
        ensures out { IfOk result (λ opened. opened.is_out ≡ true) }
    {
        let room = Vec::with_capacity(alloc, PIECE)?;
        Ok(DomainRecord {
            store,
            head,
            mark: Mark::start(),
            commands: 0,
            room,
            text: String::new(alloc),
            failed: true,
            owes_next: true,
            is_out: true,
            is_bare: false,
            most_bytes: u64::MAX,
        })
    }

    // Writes the lines of the entries that are in the room, if there are any, and counts their commands.
    // Nine clauses: a record that is written to, as in all that follow, what is whole then or after an error, and what stays.
    fn write_room(&mut self) -> Result<(), NotKept>
        requires ready { IsAllWhole S.contents S.whole self.old.store }
        requires failed { self.old.failed ≡ true }
        ensures text { OnOk result (Appends (S.whole self.old.store) (S.whole self.new.store)
            (record_text (lines_of self.old.room.items))) }
        ensures ready { OnOk result (IsAllWhole S.contents S.whole self.new.store) }
        ensures err { OnErr result (S.whole self.new.store ≡ S.whole self.old.store) }
        ensures same { IsSameRecord self.old self.new }
        ensures commands { OnOk result (self.new.commands ≡ saturated (self.old.commands + commands_among self.old.room.items)) }
        ensures stays { OnErr result (self.new.commands ≡ self.old.commands) }
        ensures rest { (self.new.mark ≡ self.old.mark) × (self.new.room ≡ self.old.room) × (self.new.failed ≡ self.old.failed)
            × (self.new.owes_next ≡ self.old.owes_next) × (self.new.is_out ≡ self.old.is_out) }
    {
        // Entries stand for what the one and then the others stand for.
        journals_add_up();
        if self.room.is_empty() {
            return Ok(());
        }
        self.text.clear();
        write_records_of(&mut self.text, self.room.as_slice())?;
        self.store.append(self.text.as_str())?;
        self.is_bare = false;
        self.commands = count_with(self.commands, self.room.as_slice());
        Ok(())
    }

    // Whether what the journal gained fills the room, so that there may be more.
    fn is_room_full(&self) -> bool
        ensures { result ≡ false → ¬ (self.now.room.items ≡ []) → length self.now.room.items < vec_capacity self.now.room }
    {
        !self.room.is_empty() && self.room.len() == self.room.capacity()
    }

    // Records the next piece that the journal gained; whether there may be more. After an error nothing
    // of it is whole.
    // Seven clauses: a record that is written to, what is kept then or after an error, and what stays.
    fn keep_piece<R: Wait>(
        &mut self,
        rt: &R,
        service: &Service,
        domain: u8,
    ) -> Result<bool, NotKept>
        requires ready { IsAllWhole S.contents S.whole self.old.store }
        requires failed { self.old.failed ≡ true }
        ensures kept { IfOk result (λ more. KeepsPieces S.whole service.now.plan domain more self.old self.new) }
        ensures ready { OnOk result (IsAllWhole S.contents S.whole self.new.store) }
        ensures err { OnErr result (KeepsNothing S.whole self.old self.new) }
        ensures same { IsSameRecord self.old self.new }
        ensures rest { (self.new.failed ≡ self.old.failed) × (self.new.owes_next ≡ self.old.owes_next) × (self.new.is_out ≡ self.old.is_out) }
    {
        self.room.clear();
        let Ok(mark) = service.copy_gained(rt, domain, self.mark, &mut self.room) else {
            return Ok(false);
        };
        self.write_room()?;
        self.mark = mark;
        Ok(self.is_room_full())
    }

    // Whether all is recorded: there is no more, and the record has as many commands as were asked.
    fn has_all(&self, more: bool, asked: u64) -> bool
        ensures { result ≡ true → (more ≡ false) × (asked ≤ self.now.commands) }
    {
        !more && asked <= self.commands
    }

    // Records all that the journal has gained by now, and at least this number of commands in all.
    // Eight clauses: a record that is written to, what is kept then or after an error, and what stays.
    fn keep_gained<R: Wait>(
        &mut self,
        rt: &R,
        service: &Service,
        domain: u8,
        asked: u64,
    ) -> Result<(), NotKept>
        requires ready { IsAllWhole S.contents S.whole self.old.store }
        requires failed { self.old.failed ≡ true }
        ensures kept { OnOk result (KeepsPieces S.whole service.now.plan domain false self.old self.new) }
        ensures has_all { OnOk result (asked ≤ self.new.commands) }
        ensures ready { OnOk result (IsAllWhole S.contents S.whole self.new.store) }
        ensures err { OnErr result (KeepsPieces S.whole service.now.plan domain true self.old self.new) }
        ensures same { IsSameRecord self.old self.new }
        ensures rest { (self.new.failed ≡ self.old.failed) × (self.new.owes_next ≡ self.old.owes_next) × (self.new.is_out ≡ self.old.is_out) }
    {
        // Entries stand for what the one and then the others stand for.
        journals_add_up();
        for _ in rt.forever() {
            let more = self.keep_piece(rt, service, domain)?;
            if self.has_all(more, asked) {
                break;
            }
        }
        Ok(())
    }

    // Begins the next record. One that holds its head alone serves again.
    // Ten clauses: a record that is written to and not out, what is whole then or after an error, and what stays.
    fn renew(&mut self) -> Result<(), NotKept>
        requires ready { IsAllWhole S.contents S.whole self.old.store }
        requires failed { self.old.failed ≡ true }
        requires out { self.old.is_out ≡ false }
        requires owed { self.old.owes_next ≡ true }
        ensures text { OnOk result (Becomes (S.whole self.old.store) (S.whole self.new.store)
            (string_bytes self.old.head)) }
        ensures alone { OnOk result (IsJust S.whole self.new.store (string_bytes self.old.head)) }
        ensures ready { OnOk result (IsAllWhole S.contents S.whole self.new.store) }
        ensures err { OnErr result (S.whole self.new.store ≡ S.whole self.old.store) }
        ensures same { IsSameRecord self.old self.new }
        ensures rest { (self.new.mark ≡ self.old.mark) × (self.new.commands ≡ self.old.commands)
            × (self.new.failed ≡ self.old.failed) × (self.new.owes_next ≡ self.old.owes_next) × (self.new.is_out ≡ self.old.is_out) }
    {
        if self.is_bare {
            return Ok(());
        }
        self.store.begin_next(self.head.as_str())?;
        self.is_bare = true;
        Ok(())
    }

    // Begins the next record, for a journal that began again.
    // Eleven clauses: a record that is written to and not out, what is begun then or after an error, and what stays.
    fn begin_next(&mut self) -> Result<(), NotKept>
        requires ready { IsAllWhole S.contents S.whole self.old.store }
        requires failed { self.old.failed ≡ true }
        requires out { self.old.is_out ≡ false }
        requires owed { self.old.owes_next ≡ true }
        ensures mark { OnOk result (IsAtStart self.new.mark × (self.new.commands ≡ 0)) }
        ensures text { OnOk result (Becomes (S.whole self.old.store) (S.whole self.new.store)
            (string_bytes self.old.head)) }
        ensures begun { OnOk result (self.new.owes_next ≡ false) }
        ensures ready { OnOk result (IsAllWhole S.contents S.whole self.new.store) }
        ensures err { OnErr result (KeepsNothing S.whole self.old self.new × (self.new.owes_next ≡ self.old.owes_next)) }
        ensures same { IsSameRecord self.old self.new }
        ensures rest { (self.new.failed ≡ self.old.failed) × (self.new.is_out ≡ self.old.is_out) }
    {
        self.renew()?;
        self.mark = Mark::start();
        self.commands = 0;
        self.owes_next = false;
        Ok(())
    }

    // Begins the next record if it is owed, and records all that the journal has gained by now, and at least this number of
    // commands in all.
    // Nine clauses: a record that is written to and not out, what is kept then or after an error, and what stays.
    fn keep_owed<R: Wait>(
        &mut self,
        rt: &R,
        service: &Service,
        domain: u8,
        asked: u64,
    ) -> Result<(), NotKept>
        requires ready { IsAllWhole S.contents S.whole self.old.store }
        requires failed { self.old.failed ≡ true }
        requires out { self.old.is_out ≡ false }
        ensures kept { OnOk result (KeepsGained S.whole service.now.plan domain self.old.owes_next false self.old self.new) }
        ensures has_all { OnOk result (asked ≤ self.new.commands) }
        ensures ready { OnOk result (IsAllWhole S.contents S.whole self.new.store) }
        ensures err { OnErr result (KeepsSome S.whole service.now.plan domain self.old.owes_next self.old self.new) }
        ensures same { IsSameRecord self.old self.new }
        ensures rest { (self.new.failed ≡ self.old.failed) × (self.new.is_out ≡ self.old.is_out) }
    {
        if self.owes_next {
            self.begin_next()?;
        }
        self.keep_gained(rt, service, domain, asked)
    }

    // Cuts off what isn't whole.
    fn cut_back(&mut self) -> Result<(), NotKept>
        requires failed { self.old.failed ≡ true }
        ensures ready { OnOk result (IsAllWhole S.contents S.whole self.new.store) }
        ensures stays { KeepsNothing S.whole self.old self.new × (self.new.owes_next ≡ self.old.owes_next) }
        ensures same { IsSameRecord self.old self.new }
        ensures rest { (self.new.failed ≡ self.old.failed) × (self.new.is_out ≡ self.old.is_out) }
    {
        self.store.cut_back()?;
        Ok(())
    }

    // Cuts off what isn't whole, and records what isn't recorded, and at least this number of commands in all.
    // Eight clauses: a record that failed and isn't out, what is kept then or after an error, and what stays.
    fn mend_and_keep<R: Wait>(
        &mut self,
        rt: &R,
        service: &Service,
        domain: u8,
        asked: u64,
    ) -> Result<(), NotKept>
        requires failed { self.old.failed ≡ true }
        requires out { self.old.is_out ≡ false }
        ensures kept { OnOk result (KeepsGained S.whole service.now.plan domain self.old.owes_next false self.old self.new) }
        ensures has_all { OnOk result (asked ≤ self.new.commands) }
        ensures ready { OnOk result (IsAllWhole S.contents S.whole self.new.store) }
        ensures err { OnErr result (KeepsSome S.whole service.now.plan domain self.old.owes_next self.old self.new) }
        ensures same { IsSameRecord self.old self.new }
        ensures rest { (self.new.failed ≡ self.old.failed) × (self.new.is_out ≡ self.old.is_out) }
    {
        self.cut_back()?;
        self.keep_owed(rt, service, domain, asked)
    }

    /// Records all that the domain has answered by now, in the next record if its journal began again. A record that holds
    /// no line is used again then. `asked` is how many commands the domain's users were answered since its journal began: the
    /// call goes on until the record has as many.
    ///
    /// # Errors
    ///
    /// `Out` if the domain's record can't be taken, as long as its journal doesn't begin again; nothing has changed then.
    /// Else why it can't be written: what was recorded by then stays, and the next call cuts off what isn't whole and goes
    /// on after what is, so that nothing is missing and nothing is there twice.
    // Eight clauses: what is kept then or after an error, of a record that is out, and what stays.
    pub fn keep<R: Wait>(
        &mut self,
        rt: &R,
        service: &Service,
        domain: u8,
        begins_anew: bool,
        asked: u64,
    ) -> Result<(), NotKept>
        ensures kept { OnOk result (KeepsGained S.whole service.now.plan domain (self.old.owes_next || begins_anew) false self.old self.new) }
        ensures has_all { OnOk result (asked ≤ self.new.commands) }
        ensures all { OnOk result (IsAllWhole S.contents S.whole self.new.store) }
        ensures err { OnErr result (KeepsSome S.whole service.now.plan domain (self.old.owes_next || begins_anew) self.old self.new) }
        ensures failed { IsTrue self.new.failed ↔ IsErr result }
        ensures out { self.new.is_out ≡ (self.old.is_out && not begins_anew) }
        ensures still_out { IsTrue self.new.is_out → IsErr result × (self.new ≡ self.old) }
        ensures same { IsSameRecord self.old self.new }
    {
        if self.is_out && !begins_anew {
            return Err(NotKept::Out);
        }
        self.is_out = false;
        self.owes_next = self.owes_next || begins_anew;
        if self.failed {
            self.mend_and_keep(rt, service, domain, asked)?;
        } else {
            self.failed = true;
            self.keep_owed(rt, service, domain, asked)?;
        }
        self.failed = false;
        Ok(())
    }

    /// How many bytes of the record that is written to are whole.
    pub fn bytes(&self) -> u64
        ensures { S.has_bytes self.now.store result }
    {
        self.store.bytes()
    }

    /// How many bytes the older records of the domain take.
    pub fn older_bytes(&self) -> u64
        ensures { S.has_older_bytes self.now.store result }
    {
        self.store.older_bytes()
    }

    /// Bounds how many bytes all records of the domain may take. Before that they may take any number.
    pub fn bound(&mut self, bytes: u64)
        ensures bound { self.new.most_bytes ≡ bytes }
        ensures text { self.new.store ≡ self.old.store }
        ensures mark { (self.new.mark ≡ self.old.mark) × (self.new.commands ≡ self.old.commands) }
        ensures rest { (self.new.failed ≡ self.old.failed) × (self.new.owes_next ≡ self.old.owes_next) × (self.new.is_out ≡ self.old.is_out) }
        ensures same { IsSameRecord self.old self.new }
    {
        self.most_bytes = bytes;
    }

    /// Removes the oldest record of the domain if all together take more bytes than they may, but never the one that is written to.
    /// Returns where it was, or `None` if none was removed.
    ///
    /// # Errors
    ///
    /// The system's. All records stay.
    // Six clauses: when nothing is removed, and what stays in each case.
    pub fn remove_beyond(&mut self) -> io::Result<Option<String>>
        ensures within { HoldsInRoom S.has_bytes S.has_older_bytes self.old (IfOk result (λ path. path ≡ None) × (self.new ≡ self.old)) }
        ensures text { S.whole self.new.store ≡ S.whole self.old.store }
        ensures mark { (self.new.mark ≡ self.old.mark) × (self.new.commands ≡ self.old.commands) }
        ensures rest { (self.new.failed ≡ self.old.failed) × (self.new.owes_next ≡ self.old.owes_next) × (self.new.is_out ≡ self.old.is_out) }
        ensures same { IsSameRecord self.old self.new }
    {
        if self.bytes().saturating_add(self.older_bytes()) <= self.most_bytes {
            return Ok(None);
        }
        self.store.remove_oldest()
    }

    /// Whether something isn't recorded.
    pub fn has_failed(&self) -> bool
        ensures { result ≡ self.now.failed }
    {
        self.failed
    }

    /// Whether the domain's record can't be taken, and the domain hasn't begun again since.
    pub fn is_out(&self) -> bool
        ensures { result ≡ self.now.is_out }
    {
        self.is_out
    }

    /// Where the record is that is written to, or that will be if the next one is to be begun.
    pub fn path(&self, alloc: Global) -> Result<String, NoMemory> {
        if self.owes_next {
            self.store.next_path(alloc)
        } else {
            self.store.path(alloc)
        }
    }
}
