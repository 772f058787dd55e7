//! The record of a domain, as it is kept between calls.
ghost use Rattle.std.specs.Prelude.{◌≡◌, ◌<◌, ◌^◌, false, true, string_bytes};
ghost use Rattle.std.specs.Option.{ForSome};
ghost use Rattle.std.proofs.Props.{props};
ghost use Rattle.record_keeping.specs.Writing.{HoldsCommands, IsAllWhole, IsJust};

use crate::store::RecordStore;
use domain_core::{Entry, Mark};

/// The record of a domain.
pub struct DomainRecord<S: RecordStore> {
    pub(crate) store: S,
    pub(crate) head: String,
    // How far the journal is recorded.
    pub(crate) mark: Mark,
    // How many commands of users the record has since its journal began. The lines of a text that is known have as many.
    pub(crate) commands: u64,
    // Reserved, for what the journal gained.
    pub(crate) room: Vec<Entry>,
    pub(crate) text: String,
    // Whether the last call was an error, so that what isn't whole has to be cut off.
    pub(crate) failed: bool,
    // Whether the journal began again, and the next record isn't begun yet.
    pub(crate) owes_next: bool,
    // Whether the record can't be taken, and the journal hasn't begun again since.
    pub(crate) is_out: bool,
    // Whether it is known that the record holds its head alone.
    pub(crate) is_bare: bool,
    // How many bytes all records of the domain may take.
    pub(crate) most_bytes: u64,
    ghost in_range: { commands < 2 ^ 64 },
    ghost ready: { failed ≡ false → IsAllWhole S.contents S.whole store },
    ghost bare: { is_bare ≡ true → IsJust S.whole store (string_bytes head) } by { Prim.hlevel props },
    ghost out: { is_out ≡ true → (failed ≡ true) × (owes_next ≡ true) },
    ghost counted: { owes_next ≡ false → ForSome (S.whole store) (λ held. ∥ HoldsCommands (string_bytes head) commands held ∥₁) },
}

// Dropped by hand, since a derived `Drop` makes callers prove the drop of each field.
impl<S: RecordStore> Drop for DomainRecord<S> {
    fn drop(self) {
        let DomainRecord {
            store: _,
            head: _,
            mark: _,
            commands: _,
            room: _,
            text: _,
            failed: _,
            owes_next: _,
            is_out: _,
            is_bare: _,
            most_bytes: _,
        } = self;
    }
}
