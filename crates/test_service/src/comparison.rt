//! Doing journals again on one thread, and comparing what is answered.
ghost use Rattle.std.specs.Prelude.{◌≡◌, ◌<◌, ◌↔◌, IsTrue, IfSome, Some, length, slice_get};
ghost use Rattle.farm_core.specs.PlainFarm.{word_there};

use crate::draws::Draws;
use crate::watch::Watch;
use crossbar::Word;
use domain_core::{By, Entry, Event, Journal, NoMemory, Refusal};
use farm_core::PlainFarm;
use farm_service::{Closed, ClosedDomain, Token};
use plan_rules::AcceptedPlan;
use std::alloc::Global;

/// The most domains of a plan.
const DOMAINS: usize = 16;

// Asks, and asks again if there was no memory. The farm lists what it answers.
fn ask(alloc: Global, farm: &mut PlainFarm, domain: u8, by: By, event: Event) {
    if farm.apply(alloc, domain, by, event) == Err(Refusal::NoMemory) {
        let _ = farm.apply(alloc, domain, by, event);
    }
}

// Does what an entry says again, whatever was answered.
fn do_entry(alloc: Global, farm: &mut PlainFarm, domain: u8, entry: Entry) {
    match entry {
        Entry::One { by, event, .. } => ask(alloc, farm, domain, by, event),
        Entry::Run {
            by,
            node,
            count,
            ..
        } => {
            for _step in 0..count {
                ask(alloc, farm, domain, by, Event::Step(node));
            }
        }
    }
}

// The place of the first journal from `place` on that isn't done, around the end.
fn next_place(closed: &[ClosedDomain], done: &[usize; DOMAINS], place: usize) -> Option<usize>
    ensures there { IfSome result (λ found. found < length closed.now) }
    ensures within { IfSome result (λ found. found < 16) }
{
    for step in 0..DOMAINS {
        let found = (place % DOMAINS).saturating_add(step) % DOMAINS;
        if let Some(domain) = closed.get(found)
            && done[found] < domain.journal.len()
        {
            return Some(found);
        }
    }
    None
}

// Does up to 40 entries of a journal again, after the first `done`, which are done already. Returns how many are done then.
fn do_turn(
    alloc: Global,
    farm: &mut PlainFarm,
    closed: &ClosedDomain,
    done: usize,
    draws: &mut Draws,
) -> usize {
    let count = draws.below(40) as usize + 1;
    let end = done.saturating_add(count);
    for index in done..end {
        if let Some(entry) = closed.journal.get(index) {
            do_entry(alloc, farm, closed.domain, entry);
        }
    }
    end
}

// Does the journals again, merged by chance.
fn do_all(alloc: Global, farm: &mut PlainFarm, closed: &[ClosedDomain], draws: &mut Draws) {
    let mut done = [0usize; DOMAINS];
    for _turn in 0..u64::MAX {
        let first = draws.below(16) as usize;
        let Some(place) = next_place(closed, &done, first) else {
            break;
        };
        done[place] = do_turn(alloc, farm, &closed[place], done[place], draws);
    }
}

// Whether two journals have the same entries.
fn is_same(journal: &Journal, other: &Journal) -> bool {
    for index in 0..journal.len() {
        if journal.get(index) != other.get(index) {
            return false;
        }
    }
    journal.len() == other.len()
}

// Whether all domains have answered exactly what the journals list.
fn are_journals(farm: &PlainFarm, closed: &[ClosedDomain]) -> bool {
    for domain in closed {
        match farm.journal(domain.domain) {
            Some(journal) if is_same(journal, &domain.journal) => {}
            _ => return false,
        }
    }
    true
}

// Whether an output of a domain has this word.
fn is_word(farm: &mut PlainFarm, domain: u8, output: u8, word: Word) -> bool
    ensures word { IsTrue result ↔ (word_there (slice_get farm.old domain) output ≡ Some word) }
    ensures unchanged { farm.new ≡ farm.old }
{
    farm.domain_word(domain, output) == Some(word)
}

// Whether each output has the word that was left, and the one that the operator saw last.
fn are_words(farm: &mut PlainFarm, closed: &[ClosedDomain], watch: &Watch) -> bool {
    for domain in closed {
        for (output, word) in (0u8..32).zip(domain.words.iter()) {
            if !is_word(farm, domain.domain, output, *word) {
                return false;
            }
        }
    }
    for (output, word) in (0u8..32).zip(watch.words.iter()) {
        if farm.word(output) != *word {
            return false;
        }
    }
    true
}

// Whether these are the tokens of a plan, each once.
fn are_tokens(plan: &AcceptedPlan, tokens: &[Token]) -> bool {
    let mut count = 0_usize;
    for domain in 0..plan.domains() {
        for node in 0..plan.nodes(domain) {
            if !tokens.contains(&Token { domain, node }) {
                return false;
            }
            count = count.saturating_add(1);
        }
    }
    count == tokens.len()
}

/// Whether what a closed service left is what the farm of its plan comes to on one thread: its journals, done again and
/// merged by chance, are answered alike, its words are left, and were seen last, and each token is there once.
///
/// # Errors
///
/// `NoMemory`.
pub fn is_alike(
    alloc: Global,
    plan: &AcceptedPlan,
    closed: &Closed,
    watch: &Watch,
    seed: u64,
) -> Result<bool, NoMemory> {
    let domains = closed.domains.as_slice();
    let mut farm = PlainFarm::open(alloc, plan)?;
    do_all(alloc, &mut farm, domains, &mut Draws::new(seed));
    Ok(
        are_journals(&farm, domains)
            && are_words(&mut farm, domains, watch)
            && are_tokens(plan, closed.tokens.as_slice()),
    )
}
