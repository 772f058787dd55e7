//! Which bytes and channels are used, and in which way.
ghost use Rattle.std.specs.Prelude.{◌≡◌, ℕ, ◌||◌, true, false, OnOk};
ghost use Rattle.occam_uses.specs.declared.usage.UsageWay.{UsageWay};
ghost use Rattle.occam_uses.specs.Uses.{has_usage, is_between, uses_number};
ghost use Rattle.occam_uses.specs.Sets.{is_marked, is_taken};

use crate::number_set::NumberSet;
use crate::usage::{Usage, UsageWay};
use std::alloc::{AllocError, Global};

/// The numbers of bytes and channels that are used, by the way in which they are.
#[derive(Drop)]
pub(crate) struct UsageMarks {
    changed: NumberSet,
    read: NumberSet,
    sent: NumberSet,
    received: NumberSet,
}

impl UsageMarks {
    /// No marks.
    pub(crate) fn new(alloc: Global) -> Self
        ensures { (way : UsageWay) (n : ℕ) → is_marked result way n ≡ false }
    {
        UsageMarks {
            changed: NumberSet::new(alloc),
            read: NumberSet::new(alloc),
            sent: NumberSet::new(alloc),
            received: NumberSet::new(alloc),
        }
    }

    // Adds the marks of a use.
    fn add(&mut self, used: Usage) -> Result<(), AllocError>
        ensures { OnOk result ((way : UsageWay) (n : ℕ) → is_marked self.new way n ≡ (is_marked self.old way n || uses_number way n used)) }
    {
        match used.way {
            UsageWay::Changes => self.changed.add(used.first, used.end),
            UsageWay::Reads => self.read.add(used.first, used.end),
            UsageWay::Sends => self.sent.add(used.first, used.end),
            UsageWay::Receives => self.received.add(used.first, used.end),
        }
    }

    /// Adds the marks of uses.
    ///
    /// # Errors
    ///
    /// If the marks can't be kept.
    pub(crate) fn add_all(&mut self, uses: &[Usage]) -> Result<(), AllocError>
        ensures { OnOk result ((way : UsageWay) (n : ℕ) → is_marked self.new way n ≡ (is_marked self.old way n || has_usage uses.now way n)) }
    {
        for used in uses {
            self.add(*used)?;
        }
        Ok(())
    }

    /// Whether a use clashes with one that has marks here.
    pub(crate) fn are_in_the_way_of(&self, used: Usage) -> bool
        ensures met { result ≡ true → (n : ℕ) × (is_between used.first used.end n ≡ true) × (is_taken self.now used.way n ≡ true) }
        ensures free { result ≡ false → (n : ℕ) → is_between used.first used.end n ≡ true → is_taken self.now used.way n ≡ false }
    {
        match used.way {
            UsageWay::Changes => {
                self.changed.meets(used.first, used.end) || self.read.meets(used.first, used.end)
            }
            UsageWay::Reads => self.changed.meets(used.first, used.end),
            UsageWay::Sends => self.sent.meets(used.first, used.end),
            UsageWay::Receives => self.received.meets(used.first, used.end),
        }
    }
}
