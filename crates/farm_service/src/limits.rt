//! Whether each pass has met a full journal only if that of its domain is full, one that is nearly full only if that of its
//! domain is nearly full, and no room only if there was none.
ghost use Rattle.std.specs.Prelude.{◌≡◌, ◌+◌, ◌<◌, ◌∷◌, [], length, true, IfSome};
ghost use Rattle.domain_core.specs.Journal.{expanded};
ghost use Rattle.farm_service.specs.Closed.{most_quantum, IsFull, IsNearlyFull, IsOutOfSpace, MetFullTruly, AllMetFullTruly};

use crate::closed::ClosedDomain;
use crate::pass::UserPass;
use crate::waiting::block_forever;
use domain_core::laws::journals_add_up;
use domain_core::{Entry, Journal};
use plan_rules::AcceptedPlan;
use std::sync::Wait;

// The most Steps that a node does at a time while its domain settles.
const MOST_QUANTUM: u64 = 4096;

// How many events an entry stands for.
fn event_count(entry: &Entry) -> u64
    ensures { result ≡ length (expanded (entry.now ∷ [])) }
{
    match *entry {
        Entry::One { .. } => 1,
        Entry::Run { count, .. } => count,
    }
}

// How many events a journal stands for, none if that is past every limit.
fn all_events(journal: &Journal) -> Option<u64>
    ensures { IfSome result (λ n. n ≡ length (expanded journal.now.entries)) }
{
    // What is appended to a journal comes after what it stands for.
    journals_add_up();
    let mut events = 0u64;
    for index in 0..journal.len() {
        let entry = journal.get(index)?;
        events = events.checked_add(event_count(&entry))?;
    }
    Some(events)
}

// Whether a journal has exactly as many events as this limit.
fn is_at(journal: &Journal, limit: u64) -> bool
    ensures { result ≡ true → length (expanded journal.now.entries) ≡ limit }
{
    match all_events(journal) {
        Some(events) => events == limit,
        None => false,
    }
}

// Whether the domain of this number is closed with exactly as many events as the plan's limit for it.
fn is_full(plan: &AcceptedPlan, closed: &[ClosedDomain], domain: u8) -> bool
    ensures { result ≡ true → IsFull plan.now closed.now domain }
{
    if domain >= plan.domains() {
        return false;
    }
    match closed.get(usize::from(domain)) {
        Some(closed) => is_at(&closed.journal, plan.part(domain).limit()),
        None => false,
    }
}

// Whether a journal has fewer events below this limit than the most that a node does at a time.
fn is_near(journal: &Journal, limit: u64) -> bool
    ensures { result ≡ true → limit < length (expanded journal.now.entries) + most_quantum }
{
    match all_events(journal) {
        Some(events) => limit.saturating_sub(events) < MOST_QUANTUM,
        None => false,
    }
}

// Whether the domain of this number has nearly as many events as the plan's limit for it.
fn is_nearly_full(plan: &AcceptedPlan, closed: &[ClosedDomain], domain: u8) -> bool
    ensures { result ≡ true → IsNearlyFull plan.now closed.now domain }
{
    if domain >= plan.domains() {
        return false;
    }
    match closed.get(usize::from(domain)) {
        Some(closed) => is_near(&closed.journal, plan.part(domain).limit()),
        None => false,
    }
}

// Whether a pass's list, or its domain's journal, has as many entries as memory is reserved for in the list.
fn is_out_of_space(closed: &[ClosedDomain], pass: &UserPass) -> bool
    ensures { result ≡ true → IsOutOfSpace closed.now pass.now }
{
    if pass.reserved <= pass.commands().len() {
        return true;
    }
    match closed.get(usize::from(pass.domain())) {
        Some(closed) => pass.reserved <= closed.journal.len(),
        None => false,
    }
}

// Whether a pass has met a journal that is full, or nearly full, only if that of its domain is, and no room only if there is
// none.
fn met_full_truly(plan: &AcceptedPlan, closed: &[ClosedDomain], pass: &UserPass) -> bool
    ensures { result ≡ true → MetFullTruly plan.now closed.now pass.now }
{
    (!pass.met_full() || is_full(plan, closed, pass.domain()))
        && (!pass.met_nearly_full() || is_nearly_full(plan, closed, pass.domain()))
        && (!pass.met_no_room() || is_out_of_space(closed, pass))
}

// Whether each pass has.
fn all_met_full_truly(plan: &AcceptedPlan, closed: &[ClosedDomain], users: &[UserPass]) -> bool
    ensures { result ≡ true → AllMetFullTruly plan.now closed.now users.now }
{
    for pass in users {
        if !met_full_truly(plan, closed, pass) {
            return false;
        }
    }
    true
}

/// Sees that each pass has met a journal that is full, or nearly full, only if that of its domain is, and no room only if
/// there is none. If it isn't so, waits for ever.
pub(crate) fn await_limits<R: Wait>(
    rt: &R,
    plan: &AcceptedPlan,
    closed: &[ClosedDomain],
    users: &[UserPass],
)
    ensures { AllMetFullTruly plan.now closed.now users.now }
{
    if !all_met_full_truly(plan, closed, users) {
        block_forever(rt)
    }
}
