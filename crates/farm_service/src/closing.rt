//! The end of a service's domains.
ghost use Rattle.std.specs.Prelude.{◌≡◌, ◌<◌, ◌≤◌, [], length, IfOk, vec_capacity};
ghost use Rattle.whole_farm.specs.Places.{places_of};
ghost use Rattle.farm_service.specs.Closed.{EachMergeRuns, AreDomainsOf};
ghost use Rattle.farm_service.specs.Endings.{IsEndOf};

use crate::NoMemory;
use crate::closed::ClosedDomain;
use crate::locking::await_fitting;
use crate::service::SeatedDomain;
use crossbar::Word;
use plan_rules::AcceptedPlan;
use std::alloc::Global;
use std::sync::{Mutex, Wait};
use token_queue::{PLACES, Token};
use whole_farm::laws::{
    each_merge_is_a_run, each_word_is_of_its_output, numbered_domains_are_separate,
};

// Room for the words of a domain.
#[derive(Drop)]
pub(crate) struct WordMemory {
    words: Vec<Word>,
    ghost empty: { words.items ≡ [] },
    ghost wide: { 32 ≤ vec_capacity words },
}

/// All memory that a closing takes.
#[derive(Drop)]
pub(crate) struct ClosingMemory {
    pub(crate) domains: Vec<ClosedDomain>,
    pub(crate) words: Vec<WordMemory>,
    pub(crate) tokens: Vec<Token>,
    ghost no_domain: { domains.items ≡ [] },
    ghost domains_wide: { length words.items ≤ vec_capacity domains },
    ghost no_token: { tokens.items ≡ [] },
    ghost tokens_wide: { 128 ≤ vec_capacity tokens },
}

impl ClosingMemory {
    /// Room for `count` domains.
    pub(crate) fn of(alloc: Global, count: usize) -> Result<ClosingMemory, NoMemory>
        ensures { IfOk result (λ room. length room.words.items ≡ count) }
    {
        let domains = Vec::with_capacity(alloc, count)?;
        let tokens = Vec::with_capacity(alloc, PLACES)?;
        let mut words = Vec::with_capacity(alloc, count)?;
        for _domain in 0..count {
            words.push(WordMemory {
                words: Vec::with_capacity(alloc, 32)?,
            })?;
        }
        Ok(ClosingMemory {
            domains,
            words,
            tokens,
        })
    }
}

// The words of a domain.
fn output_words(domain: &mut SeatedDomain, room: WordMemory) -> Vec<Word>
    ensures words { result.items ≡ domain.old.machine.switch.words }
    ensures unchanged { domain.new ≡ domain.old }
{
    // A domain is what its journal says.
    domain.meant_law();
    let WordMemory { mut words } = room;
    for output in 0..domain.part().count() {
        words.push_reserved(domain.word(output));
    }
    words
}

// What is left of a domain. If it isn't the plan's of this number, waits for ever.
fn close_domain<R: Wait>(
    rt: &R,
    plan: &AcceptedPlan,
    number: u8,
    mut domain: SeatedDomain,
    room: WordMemory,
) -> ClosedDomain
    ensures { IsEndOf plan.now number domain result }
{
    await_fitting(rt, &domain, plan, number);
    // A domain is what its journal says.
    domain.meant_law();
    let words = output_words(&mut domain, room);
    ClosedDomain {
        domain: number,
        journal: domain.into_journal(),
        words,
    }
}

/// What is left of a plan's domains.
// Six clauses: there is a lock and room for each domain, and what is left is theirs.
pub(crate) fn close_domains<R: Wait>(
    rt: &R,
    plan: &AcceptedPlan,
    locks: Vec<Mutex<SeatedDomain>>,
    mut closed: Vec<ClosedDomain>,
    mut rooms: Vec<WordMemory>,
) -> Vec<ClosedDomain>
    requires locks { length locks.items ≡ length plan.now }
    requires rooms { length rooms.items ≡ length plan.now }
    requires room { length plan.now ≤ vec_capacity closed }
    requires empty { closed.items ≡ [] }
    ensures domains { AreDomainsOf plan.now result.items }
    ensures runs { EachMergeRuns (places_of plan.now) result.items }
{
    // The domains of an accepted plan share no port.
    plan.separate_law();
    // Domains that share no port have places that are separate.
    numbered_domains_are_separate();
    // Every merge of the journals is a run of the farm.
    each_merge_is_a_run();
    // Each output of the farm is as its domain's word says.
    each_word_is_of_its_output();
    for lock in locks {
        let number = closed.len() as u8;
        match rooms.pop() {
            Some(room) => {
                closed.push_reserved(close_domain(rt, plan, number, lock.into_inner(), room));
            }
            None => unreachable!(),
        }
    }
    closed
}
