//! Where records are written.
ghost use Rattle.std.specs.Prelude.{◌≡◌, ℕ, List, ⊤, None, Option, IfSome, OnOk, OnErr};
ghost use Rattle.std.specs.Io.KnownBytes.{Appends};
ghost use Rattle.record_keeping.specs.declared.store.NotKept.TheVariants.{Memory};
ghost use Rattle.record_keeping.specs.Reasons.{reason_of};
ghost use Rattle.record_keeping.specs.Writing.{Becomes};

use domain_core::NoMemory;
use std::alloc::Global;
use std::io;

/// Where the record of a domain is written.
///
/// Contracts see two texts, where they are known: what the record holds which is written to, and what of that is whole, which is
/// what it held when a call had last succeeded. A call that fails may leave a part of its text in the record, until the record is
/// cut back. Of a file nothing is known.
pub trait RecordStore: Drop {
    // The text that the record holds which is written to, where it is known.
    ghost contents: { Self → Option (List ℕ) } = { λ _. None };

    // The text that the record held when a call had last succeeded, where it is known.
    ghost whole: { Self → Option (List ℕ) } = { λ _. None };

    // Holds of what `bytes` says.
    ghost has_bytes: { Self → ℕ → Type 0 } = { λ _ _. ⊤ };

    // Holds of what `older_bytes` says.
    ghost has_older_bytes: { Self → ℕ → Type 0 } = { λ _ _. ⊤ };

    /// Appends whole lines. When the call returns they are with the system, and on the disk if that was asked for.
    ///
    /// # Errors
    ///
    /// The system's. What is whole stays.
    fn append(&mut self, lines: &str) -> io::Result<()>
        ensures gained { OnOk result (Appends (contents self.old) (contents self.new) lines.now) }
        ensures all { OnOk result (whole self.new ≡ contents self.new) }
        ensures unknown { whole self.old ≡ None → whole self.new ≡ None }
        ensures err { OnErr result (whole self.new ≡ whole self.old) };

    /// Begins the next record of the domain, which holds this head alone.
    ///
    /// # Errors
    ///
    /// The system's. The record before is still the one that is written to, and what is whole of it stays.
    fn begin_next(&mut self, head: &str) -> io::Result<()>
        ensures begun { OnOk result (Becomes (contents self.old) (contents self.new) head.now) }
        ensures alone { OnOk result (IfSome (contents self.new) (λ held. held ≡ head.now)) }
        ensures all { OnOk result (whole self.new ≡ contents self.new) }
        ensures err { OnErr result (whole self.new ≡ whole self.old) };

    /// Cuts off what isn't whole.
    ///
    /// # Errors
    ///
    /// The system's. What is whole stays.
    fn cut_back(&mut self) -> io::Result<()>
        ensures cut { OnOk result (contents self.new ≡ whole self.old) }
        ensures stays { whole self.new ≡ whole self.old };

    /// How many bytes the record that is written to takes, as its place counts them.
    fn bytes(&self) -> u64
        ensures { has_bytes self.now result };

    /// How many bytes the older records of the domain take.
    fn older_bytes(&self) -> u64
        ensures { has_older_bytes self.now result };

    /// Removes the oldest record of the domain, but never the one that is written to. Returns where it was, or `None` if there is no
    /// older one.
    ///
    /// # Errors
    ///
    /// The system's. All records stay.
    fn remove_oldest(&mut self) -> io::Result<Option<String>>
        ensures contents { contents self.new ≡ contents self.old }
        ensures whole { whole self.new ≡ whole self.old };

    /// Where the record is that is written to.
    fn path(&self, alloc: Global) -> Result<String, NoMemory>;

    /// Where the next record will be.
    fn next_path(&self, alloc: Global) -> Result<String, NoMemory>;
}

/// Why what a domain answered isn't recorded.
#[derive(Drop)]
pub enum NotKept {
    /// It can't be written: the system's error.
    Failed(io::Error),
    /// There is no memory for its text.
    Memory,
    /// The domain's record can't be taken, and the domain hasn't begun again since.
    Out,
}

impl From<io::Error> for NotKept {
    ghost from_gives = { λ error reason. reason ≡ reason_of error };

    fn from(error: io::Error) -> NotKept {
        match error.kind() {
            io::ErrorKind::OutOfMemory => NotKept::Memory,
            _ => NotKept::Failed(error),
        }
    }
}

impl From<NoMemory> for NotKept {
    ghost from_gives = { λ _ reason. reason ≡ Memory };

    fn from(_error: NoMemory) -> NotKept {
        NotKept::Memory
    }
}
