//! A domain's seat at the switch table.
ghost use Rattle.std.specs.Prelude.{◌≡◌, ℕ, List, [], ◌∷◌, length, replicate, Some, slice_get, IfOk};
ghost use Rattle.std.specs.Arc.{arc_value};
ghost use Rattle.crossbar.specs.Ranges.{IsNumbering};
ghost use Rattle.switch_table.specs.Rule.{view_after_first};
ghost use Rattle.switch_table.specs.Seats.{seat_row};

use crate::NoMemory;
use crate::shared_words::{LoadsOwn, SharedWords, StoresOwn, TakesFirst, WordsSeat};
use crossbar::laws::rows_are_words_of_ports;
use crossbar::{Numbering, Outputs, Word};
use std::marker::Model;
use std::sync::Arc;

/// The outputs of one domain. Nobody else stores their words, so those that it stored last are those
/// of the table. Contracts see its table, what it knows of it (its view), and its ports.
pub struct DomainSeat {
    shared_words: Arc<SharedWords>,
    seat: WordsSeat,
    numbering: Numbering,
}

// Dropped by hand, since a derived `Drop` makes callers prove the drop of each field.
impl Drop for DomainSeat {
    fn drop(self) {
        let DomainSeat {
            shared_words: _,
            seat: _,
            numbering: _,
        } = self;
    }
}

impl Model for DomainSeat {
    ghost use Rattle.std.specs.Arc.{arc_value};
    ghost use Rattle.switch_table.specs.SeatStates.{SeatState, IsSeated};

    ghost Value = { SeatState };

    ghost view = { λ s. record { table = s.seat.table_id; view = s.seat.me.0; ports = s.numbering } };

    ghost invariant = { λ s. IsSeated (arc_value s.shared_words).shared.table_id s.seat.table_id s.seat.me s.numbering };
}

impl DomainSeat {
    /// Cuts the first domain off what the opener holds.
    // Eight clauses: six say what the opener's seat is, and two what both seats are then.
    pub(crate) fn take_first_domain(
        shared_words: &Arc<SharedWords>,
        opener: &mut WordsSeat,
        numbering: Numbering,
    ) -> Result<DomainSeat, NoMemory>
        requires here { opener.old.table_id ≡ (arc_value shared_words.now).shared.table_id }
        requires wide { opener.old.table_id.words ≡ 32 }
        requires clear { opener.old.me.0.words ≡ replicate 32 0 }
        requires slots { opener.old.me.1 ≡ [] }
        requires next { slice_get opener.old.me.0.held 0 ≡ Some numbering }
        requires numbering { IsNumbering numbering }
        ensures seat { IfOk result (λ s. (s.ports ≡ numbering) × (s.table ≡ opener.old.table_id) × (s.view.words ≡ opener.old.me.0.words)) }
        ensures rest { IfOk result (λ _. (opener.new.table_id ≡ opener.old.table_id) × (opener.new.me ≡ (view_after_first opener.old.me.0, opener.old.me.1))) }
    {
        // A row with another proper word is a row.
        rows_are_words_of_ports();
        let shared_words = Arc::try_clone(shared_words)?;
        let seat = shared_words.shared.split_seat::<TakesFirst>(opener);
        Ok(DomainSeat {
            shared_words,
            seat,
            numbering,
        })
    }

    /// The law that ties the outputs to the table: their words are those that the seat's view holds,
    /// and their ports those that it alone stores. The call does nothing.
    pub fn seated_law(&self)
        ensures row { ⟦<DomainSeat as Outputs>⟧.seen self.now ≡ seat_row self.now }
        ensures held { self.now.view.held ≡ self.now.ports ∷ [] }
    {
        let _ = &self.seat;
    }
}

impl Outputs for DomainSeat {
    ghost seen = { λ s. seat_row s };

    fn count(&self) -> u8 {
        self.numbering.count()
    }

    fn physical(&self, number: u8) -> u8 {
        self.numbering.physical(number)
    }

    fn virtual_of(&self, port: u8) -> Option<u8> {
        self.numbering.virtual_of(port)
    }

    /// One atomic load.
    fn read(&mut self, number: u8) -> Word {
        let port = self.numbering.physical(number);
        let shared_words = &self.shared_words;
        let bits = shared_words
            .shared
            .load::<LoadsOwn>(&mut self.seat, usize::from(port));
        Word { bits }
    }

    /// One atomic store.
    fn write(&mut self, number: u8, word: Word) {
        // A row with another proper word is a row.
        rows_are_words_of_ports();
        let port = self.numbering.physical(number);
        let shared_words = &self.shared_words;
        shared_words
            .shared
            .store::<StoresOwn>(&mut self.seat, usize::from(port), word.bits);
    }
}
