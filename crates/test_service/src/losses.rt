//! Losses that are planted in what a service left, so that it is seen that they are noticed.
ghost use Rattle.std.specs.Prelude.{IfSome};
ghost use Rattle.domain_core.specs.Journal.{IsNotEmpty};

use crate::comparison::is_alike;
use crate::watch::Watch;
use crossbar::Word;
use domain_core::{Entry, Event, Journal, NoMemory, Reply};
use farm_service::{Closed, ClosedDomain, Token};
use plan_rules::AcceptedPlan;
use std::alloc::Global;

/// What is lost.
#[derive(Clone, Copy)]
pub enum Loss {
    /// Of each journal a Step of the first Steps of one node that are more than one.
    Step,
    /// Of each journal the first byte that was written to a host.
    Byte,
    /// The last token.
    Token,
    /// The last word of each domain.
    Word,
}

/// All that can be lost.
pub const LOSSES: [Loss; 4] = [Loss::Step, Loss::Byte, Loss::Token, Loss::Word];

impl Loss {
    // What is left of an entry.
    fn left_of(self, entry: Entry) -> Option<Entry>
        requires { IsNotEmpty entry }
        ensures { IfSome result IsNotEmpty }
    {
        match entry {
            Entry::One {
                event: Event::Write(_, _),
                reply: Reply::Written,
                ..
            } if self == Loss::Byte => None,
            Entry::Run {
                by,
                node,
                count,
                last,
            } if self == Loss::Step && count > 1 => Some(Entry::Run {
                by,
                node,
                count: count - 1,
                last,
            }),
            _ => Some(entry),
        }
    }

    // The same, if nothing is lost yet.
    fn left_after(self, is_lost: bool, entry: Entry) -> Option<Entry>
        requires { IsNotEmpty entry }
        ensures { IfSome result IsNotEmpty }
    {
        if is_lost {
            Some(entry)
        } else {
            self.left_of(entry)
        }
    }

    // A journal after the loss, which is but one.
    fn journal(self, alloc: Global, journal: &Journal) -> Result<Journal, NoMemory> {
        // No entry of a journal is empty.
        journal.kept_law();
        let mut left = Journal::new(alloc);
        let mut is_lost = false;
        for index in 0..journal.len() {
            let Some(entry) = journal.get(index) else {
                break;
            };
            let kept = self.left_after(is_lost, entry);
            is_lost |= kept != Some(entry);
            if let Some(entry) = kept {
                left.push(entry)?;
            }
        }
        Ok(left)
    }

    // Words after the loss.
    fn words(self, alloc: Global, words: &[Word]) -> Result<Vec<Word>, NoMemory> {
        let mut left = Vec::with_capacity(alloc, words.len())?;
        for word in words {
            left.push(*word)?;
        }
        if self == Loss::Word {
            left.pop();
            left.push(Word { bits: 1 })?;
        }
        Ok(left)
    }

    // What was left, after the loss.
    fn close(self, alloc: Global, closed: &Closed) -> Result<Closed, NoMemory> {
        let mut domains = Vec::with_capacity(alloc, closed.domains.len())?;
        for domain in closed.domains.iter() {
            domains.push(ClosedDomain {
                domain: domain.domain,
                journal: self.journal(alloc, &domain.journal)?,
                words: self.words(alloc, domain.words.as_slice())?,
            })?;
        }
        let mut tokens: Vec<Token> = Vec::with_capacity(alloc, closed.tokens.len())?;
        for token in closed.tokens.iter() {
            tokens.push(*token)?;
        }
        if self == Loss::Token {
            tokens.pop();
        }
        Ok(Closed { domains, tokens })
    }

    /// Whether the comparison notices the loss.
    ///
    /// # Errors
    ///
    /// `NoMemory`.
    pub fn is_noticed(
        self,
        alloc: Global,
        plan: &AcceptedPlan,
        closed: &Closed,
        watch: &Watch,
    ) -> Result<bool, NoMemory> {
        let lost = self.close(alloc, closed)?;
        Ok(!is_alike(alloc, plan, &lost, watch, 1)?)
    }
}
