//! The answers to several events in one line.
ghost use Rattle.std.specs.Prelude.{◌≡◌, ◌++◌, ◌∷◌, ℕ, List, [], OnOk, IfOk, replicate, string_bytes};
ghost use Rattle.farm_replay.specs.Listing.{IsListing, group_text};
ghost use Rattle.farm_replay.specs.Kept.{HoldsTexts, TakesTexts};

use domain_core::NoMemory;
use std::alloc::Global;
use std::marker::Model;

/// Answers in their order, divided by commas. Equal neighbours are written once, with their number: `3 nothing, 81`.
pub struct AnswerList {
    // All but the last of the texts that differ from their neighbours, each with a comma after it.
    text: String,
    // The last of them, and how often it comes at the end.
    last: String,
    count: u64,
}

// Dropped by hand, since a derived `Drop` makes callers prove the drop of each field.
impl Drop for AnswerList {
    fn drop(self) {
        let AnswerList {
            text: _,
            last: _,
            count: _,
        } = self;
    }
}

impl Model for AnswerList {
    ghost use Rattle.std.specs.Prelude.{string_bytes};
    ghost use Rattle.farm_replay.specs.Kept.{KeptList};

    ghost Value = { KeptList };

    ghost view = { λ l. record { text = string_bytes l.text; last = string_bytes l.last; count = l.count } };
}

impl AnswerList {
    /// No answer yet.
    pub fn new(alloc: Global) -> AnswerList
        ensures { HoldsTexts [] result }
    {
        AnswerList {
            text: String::new(alloc),
            last: String::new(alloc),
            count: 0,
        }
    }

    /// One more answer. `NoMemory` also if the number of equal neighbours no longer fits 64 bits.
    pub fn push(&mut self, answer: String) -> Result<(), NoMemory>
        ensures kept { OnOk result (TakesTexts self.old self.new (string_bytes answer ∷ [])) }
    {
        self.push_many(answer, 1)
    }

    /// Adds the same answer `times` times. `NoMemory` also if the number of equal neighbours no longer fits 64 bits.
    #[tactic(auto, using(crate::proofs::Groups::push_alike, crate::proofs::Groups::push_other))]
    pub fn push_many(&mut self, answer: String, times: u64) -> Result<(), NoMemory>
        ensures kept { OnOk result (TakesTexts self.old self.new (replicate times (string_bytes answer))) }
    {
        if times == 0 {
            return Ok(());
        }
        if self.count == 0 {
            self.last = answer;
            self.count = times;
            return Ok(());
        }
        if self.last == answer {
            let Some(count) = self.count.checked_add(times) else {
                return Err(NoMemory);
            };
            self.count = count;
            return Ok(());
        }
        self.write_last()?;
        self.text.push_str(", ")?;
        self.last = answer;
        self.count = times;
        Ok(())
    }

    // Writes the last text after the others, with its number if it is more than one.
    fn write_last(&mut self) -> Result<(), NoMemory>
        ensures text { OnOk result (self.new.text ≡ self.old.text ++ group_text (record { count = self.old.count; text = self.old.last })) }
        ensures last { self.new.last ≡ self.old.last }
        ensures count { self.new.count ≡ self.old.count }
    {
        if self.count > 1 {
            write!(self.text, "{} ", self.count)?;
        }
        self.text.push_str(self.last.as_str())
    }

    /// All answers.
    #[tactic(auto, using(crate::proofs::Groups::listing_at, crate::proofs::Groups::listing_of_none))]
    pub fn finish(mut self) -> Result<String, NoMemory>
        ensures listing { IfOk result (λ line. (texts : List (List ℕ)) → HoldsTexts texts self → IsListing texts (string_bytes line)) }
    {
        if self.count == 0 {
            let AnswerList {
                text,
                last: _,
                count: _,
            } = self;
            return Ok(text);
        }
        self.write_last()?;
        let AnswerList {
            text,
            last: _,
            count: _,
        } = self;
        Ok(text)
    }
}
