//! A lock for each domain of a plan, over one switch table.

ghost use Rattle.std.specs.Prelude.{◌≡◌, ◌≢◌, ◌<◌, ◌≤◌, ◌↔◌, None, length, vec_len, replicate, slice_index, slice_set, Ok, Err, IfOk, IfErr, IfSome, MatchOption, slice_get};
ghost use Rattle.crossbar.specs.Word.{IsAtLeastAsNew};
ghost use Rattle.domain_core.specs.declared.domain.Committed.TheVariants.{Stale};
ghost use Rattle.domain_core.specs.declared.event.Refusal.TheVariants.{NoSuch, JournalFull};
ghost use Rattle.domain_core.specs.declared.event.Refusal.TheVariants as refusal_of;
ghost use Rattle.domain_core.specs.Domain.{Fits, UnlessNoMemory, IsCalled, IsOutOfRoom};
ghost use Rattle.domain_core.specs.Ticket.{fresh_ticket};
ghost use Rattle.whole_farm.specs.Places.{places_of};
ghost use Rattle.plan_rules.specs.Part.{part_of};
ghost use Rattle.switch_table.specs.Domains.{domains_of};
ghost use Rattle.switch_table.specs.Rule.{IsConfined, word_of};
ghost use Rattle.switch_table.specs.Seats.{seen_words};
ghost use Rattle.token_queue.specs.Passes.{AreItsPasses};
ghost use Rattle.token_queue.specs.Tokens.{HasEachOnce};
ghost use Rattle.farm_service.specs.Answers.{IsAnswerIn, IsJournalOutOfRoom};
ghost use Rattle.std.specs.Sync.Mutex.{mutex_guard_value};
ghost use Rattle.farm_service.specs.Domains.{IsFound};
ghost use Rattle.farm_service.specs.Closed.{AreDomainsOf, EachMergeRuns, AreListed, AllMetFullTruly, AllAreRightlyAsked};
ghost use Rattle.farm_service.specs.Services.{IsItsOperator};

use crate::NoMemory;
use crate::askers::await_rightly_asked;
use crate::closed::{Closed, NotClosed};
use crate::closing::{ClosingMemory, close_domains};
use crate::limits::await_limits;
use crate::lists::await_listed;
use crate::locking::{await_fitting, take};
use crate::opening::{Opened, lock_each};
use crate::pass::UserPass;
use crate::resting::RestNotes;
use crate::room::Room;
use crate::seated_domains::SeatedDomains;
use crate::waiting::block_forever;
use crossbar::Word;
use domain_core::laws::histories_grow;
use domain_core::{By, Committed, Domain, Event, Refusal, Reply, Ticket};
use plan_rules::AcceptedPlan;
use std::alloc::Global;
use std::marker::Model;
use std::sync::atomic::{AtomicBool, Ordering};
use std::sync::{Mutex, MutexGuard, Wait};
use switch_table::{DomainSeat, OperatorSeat, SwitchTable};
use token_queue::{TokenQueue, WorkerPass};
use turn_schedule::Schedule;

/// A domain over its seat at the switch table.
pub type SeatedDomain = Domain<DomainSeat>;

/// The domains of a plan, each under a lock of its own, and the tokens of their nodes. Contracts see
/// the plan, which queue of tokens this is, and which switch table.
///
/// What a lock holds is known by its type alone. So a user's command asks under the lock whether the
/// domain is the plan's, and `close` asks it of each; where it isn't, which no run comes to, the call
/// waits for ever.
pub struct Service {
    plan: AcceptedPlan,
    domains: Vec<Mutex<SeatedDomain>>,
    table: SwitchTable,
    tokens: TokenQueue,
    stopped: AtomicBool,
    room: Room,
    // What is noted of the rest of each domain.
    rest_notes: Vec<RestNotes>,
    // Which bursts are to be done next. Nobody relies on it: it spares bursts that would be stale, or too many.
    schedule: Schedule,
}

// Dropped by hand, since a derived `Drop` makes callers prove the drop of each field.
impl Drop for Service {
    fn drop(self) {
        let Service {
            plan: _,
            domains: _,
            table: _,
            tokens: _,
            stopped: _,
            room: _,
            rest_notes: _,
            schedule: _,
        } = self;
    }
}

impl Model for Service {
    ghost use Rattle.std.specs.Prelude.{◌≡◌, length};
    ghost use Rattle.switch_table.specs.Seats.{table_of};
    ghost use Rattle.farm_service.specs.Services.{ServiceValue};

    ghost Value = { ServiceValue };

    ghost view = { λ s. record { plan = s.plan; queue = s.tokens; table = table_of s.table; room = s.room } };

    ghost invariant = { λ s. length s.domains.items ≡ length s.plan };
}

// Asks a domain that is the plan's of this number.
fn ask_planned(
    alloc: Global,
    domain: &mut SeatedDomain,
    plan: &AcceptedPlan,
    number: u8,
    by: By,
    event: Event,
) -> Result<Reply, Refusal>
    requires { Fits plan.now number domain.old }
    ensures called { IsCalled (record { by = by; event = event }) result domain.old domain.new }
    ensures answer { UnlessNoMemory result (IsAnswerIn plan.now number (record { by = by; event = event }) result) }
    ensures memory { result ≡ Err refusal_of.NoMemory → IsOutOfRoom domain.old }
    ensures reserved { domain.new.reserved ≡ domain.old.reserved }
{
    // A domain is what its journal says.
    domain.meant_law();
    // A history with one more reply is a history.
    histories_grow();
    domain.apply(alloc, by, event)
}

// Asks a domain that is the plan's of this number. If it refuses since memory ran out, and memory is reserved in it for
// fewer than `reserved` entries, waits for ever. No run comes to that.
// Six clauses: what is asked, what is answered, what it does to the domain, and when memory is wanted.
fn ask_reserved<R: Wait>(
    rt: &R,
    alloc: Global,
    domain: &mut SeatedDomain,
    plan: &AcceptedPlan,
    number: u8,
    by: By,
    event: Event,
    reserved: usize,
) -> Result<Reply, Refusal>
    requires found { IsFound plan.now number domain.old }
    ensures answer { UnlessNoMemory result (IsAnswerIn plan.now number (record { by = by; event = event }) result) }
    ensures called { IsCalled (record { by = by; event = event }) result domain.old domain.new }
    ensures own { result ≡ Err refusal_of.NoMemory → (reserved ≤ domain.old.reserved) × IsOutOfRoom domain.old }
    ensures reserved { domain.new.reserved ≡ domain.old.reserved }
{
    let there = domain.reserved_entries();
    let told = ask_planned(alloc, domain, plan, number, by, event);
    if matches!(told, Err(Refusal::NoMemory)) && there < reserved {
        return block_forever(rt);
    }
    told
}

// The domains, each under a lock of its own; the schedule of bursts; the queue of the plan's tokens; and one pass for
// each worker.
fn open_parts<R: Wait>(
    rt: &R,
    alloc: Global,
    plan: &AcceptedPlan,
    domains: Vec<SeatedDomain>,
    workers: u8,
) -> Result<
    (
        Vec<Mutex<SeatedDomain>>,
        Schedule,
        TokenQueue,
        Vec<WorkerPass>,
    ),
    NoMemory,
>
    requires { (1 ≤ workers) × (workers ≤ 8) }
    ensures locks { IfOk result (λ o. vec_len o.0 ≡ vec_len domains) }
    ensures workers { IfOk result (λ o. length o.3.items ≡ workers) }
    ensures passes { IfOk result (λ o. AreItsPasses plan.now o.2 o.3.items) }
{
    let locks = lock_each(alloc, domains)?;
    let schedule = Schedule::empty(alloc)?;
    let (tokens, passes) = TokenQueue::open(rt, alloc, plan, workers)?;
    Ok((locks, schedule, tokens, passes))
}

impl Service {
    /// A service on the domains of a plan, which are put under locks, with the passes of its users.
    // Eight clauses: how many workers, one for each thing that is opened, and when there is none.
    pub(crate) fn of<R: Wait>(
        rt: &R,
        alloc: Global,
        seated: SeatedDomains,
        workers: u8,
        users: Vec<UserPass>,
    ) -> Result<Opened, Refusal>
        requires workers { (1 ≤ workers) × (workers ≤ 8) }
        ensures plan { IfOk result (λ o. o.service.plan ≡ seated.plan) }
        ensures room { IfOk result (λ o. o.service.room ≡ seated.room) }
        ensures users { IfOk result (λ o. o.users ≡ users) }
        ensures workers { IfOk result (λ o. length o.passes.items ≡ workers) }
        ensures passes { IfOk result (λ o. AreItsPasses seated.plan o.service.queue o.passes.items) }
        ensures operator { IfOk result (λ o. IsItsOperator o.service o.operator × (seen_words o.operator ≡ replicate 32 0)) }
        ensures err { IfErr result (λ refusal. refusal ≡ refusal_of.NoMemory) }
    {
        let SeatedDomains {
            plan,
            domains,
            table,
            operator,
            room,
        } = seated;
        let rest_notes = RestNotes::of_each(alloc, domains.len())?;
        let (domains, schedule, tokens, passes) = open_parts(rt, alloc, &plan, domains, workers)?;
        Ok(Opened {
            service: Service {
                plan,
                domains,
                table,
                tokens,
                stopped: AtomicBool::new(false),
                room,
                rest_notes,
                schedule,
            },
            passes,
            users,
            operator,
        })
    }

    /// The plan on which it was opened.
    pub fn plan(&self) -> &AcceptedPlan
        ensures { result.now ≡ self.now.plan }
    {
        &self.plan
    }

    /// Makes workers end at their next turn, for good, and wakes those that sleep. It waits for nobody.
    pub fn stop(&self) {
        self.stopped.store(true, Ordering::SeqCst);
        self.schedule.sleep_board().wake_all();
    }

    /// How much memory each domain may take for its journal and for the lists of its users.
    pub fn room(&self) -> Room
        ensures { result ≡ self.now.room }
    {
        self.room
    }

    // What is noted of the rest of a domain, none if there is no such domain.
    pub(crate) fn rest_notes(&self, domain: u8) -> Option<&RestNotes> {
        self.rest_notes.get(usize::from(domain))
    }

    // Notes that it was shown that a domain rests; whether it wasn't before.
    pub(crate) fn note_rest(&self, domain: u8) -> bool {
        match self.rest_notes(domain) {
            Some(notes) => notes.note_shown(),
            None => false,
        }
    }

    // Notes that a domain was restarted.
    pub(crate) fn note_anew(&self, domain: u8) {
        self.schedule.allowance().note(domain, 0);
        if let Some(notes) = self.rest_notes(domain) {
            notes.note_anew();
        }
    }

    // Whether workers are to end.
    pub(crate) fn is_stopped(&self) -> bool {
        self.stopped.load(Ordering::SeqCst)
    }

    /// The word of a physical output below 32, by one atomic load: at least as new as the one that the
    /// operator saw there last, with an input of the output's domain where it is connected, and 0 where
    /// the output is no domain's. It takes no lock and no memory, and waits for nobody.
    // Six clauses: whose seat and which output, and of the word what is seen, how new it is and where it lies.
    pub fn survey(&self, operator: &mut OperatorSeat, output: u8) -> Word
        requires operator { IsItsOperator self.now operator.old }
        requires output { output < 32 }
        ensures seen { seen_words operator.new ≡ slice_set (seen_words operator.old) output result.bits }
        ensures newer { IsAtLeastAsNew result (word_of (slice_index (seen_words operator.old) output)) }
        ensures confined { IsConfined (domains_of self.now.plan) output result.bits }
        ensures operator { IsItsOperator self.now operator.new }
    {
        self.table.survey(operator, output)
    }

    // How many nodes a domain has.
    pub(crate) fn nodes(&self, domain: u8) -> u8
        ensures { MatchOption (slice_get self.now.plan domain) (result ≡ 0) (λ d. result ≡ length d.nodes) }
    {
        if domain < self.plan.domains() {
            self.plan.nodes(domain)
        } else {
            0
        }
    }

    // The tokens that no worker has taken.
    pub(crate) fn tokens(&self) -> &TokenQueue
        ensures { result.now ≡ self.now.queue }
    {
        &self.tokens
    }

    // The guard of a domain's lock, none where the plan has no such domain.
    pub(crate) fn hold<R: Wait>(&self, rt: &R, domain: u8) -> Option<MutexGuard<'_, SeatedDomain>>
        ensures { (result ≡ None) ↔ (length self.now.plan ≤ domain) }
    {
        let lock = self.domains.get(usize::from(domain))?;
        Some(take(rt, lock))
    }

    // The guard of the lock of a domain of the plan, none if the plan has no such domain. If the lock keeps another domain,
    // waits for ever.
    pub(crate) fn hold_found<R: Wait>(
        &self,
        rt: &R,
        domain: u8,
    ) -> Option<MutexGuard<'_, SeatedDomain>>
        ensures found { IfSome result (λ guard. IsFound self.now.plan domain (mutex_guard_value guard)) }
        ensures none { (result ≡ None) ↔ (length self.now.plan ≤ domain) }
    {
        let seated = self.hold(rt, domain)?;
        await_fitting(rt, &seated, &self.plan, domain);
        // A domain is what its journal says.
        seated.meant_law();
        Some(seated)
    }

    // Asks a domain under its lock. If that one isn't the plan's, or has no memory though it has as many entries as this at the
    // most and none is reserved for them, waits for ever.
    pub(crate) fn ask_domain<R: Wait>(
        &self,
        rt: &R,
        alloc: Global,
        domain: u8,
        by: By,
        event: Event,
        reserved: usize,
    ) -> Result<Reply, Refusal>
        ensures answer { UnlessNoMemory result (IsAnswerIn self.now.plan domain (record { by = by; event = event }) result) }
        ensures memory { result ≡ Err refusal_of.NoMemory → IsJournalOutOfRoom self.now.plan domain reserved }
    {
        let told = match self.hold_found(rt, domain) {
            Some(mut seated) => ask_reserved(
                rt,
                alloc,
                &mut seated,
                &self.plan,
                domain,
                by,
                event,
                reserved,
            ),
            None => Err(Refusal::NoSuch),
        };
        // A look gives no node work.
        if told.is_ok() && !matches!(event, Event::Look(_)) {
            self.note_call(domain);
        }
        told
    }

    // Whether no Step and no Move of a domain would be recorded now.
    pub(crate) fn is_quiet<R: Wait>(&self, rt: &R, domain: u8) -> Result<bool, Refusal>
        ensures elsewhere { length self.now.plan ≤ domain → result ≡ Err NoSuch }
        ensures there { domain < length self.now.plan → result ≢ Err NoSuch }
    {
        match self.hold(rt, domain) {
            Some(mut seated) => Ok(seated.quiet()),
            None => Err(Refusal::NoSuch),
        }
    }

    /// A ticket of a node, which is copied under its domain's lock. The domain stays.
    ///
    /// # Errors
    ///
    /// `NoSuch` where there is no such domain or node, and else `NoMemory` where the node can't be
    /// copied; see [`Domain::checkout`], which is lent the guard.
    pub fn checkout<R: Wait>(
        &self,
        rt: &R,
        alloc: Global,
        domain: u8,
        node: u8,
    ) -> Result<Ticket, Refusal>
        ensures ticket { IfOk result (λ t. t ≡ fresh_ticket domain node t.start) }
        ensures elsewhere { length self.now.plan ≤ domain → result ≡ Err NoSuch }
        ensures full { result ≢ Err JournalFull }
    {
        match self.hold(rt, domain) {
            Some(seated) => seated.checkout(alloc, domain, node),
            None => Err(Refusal::NoSuch),
        }
    }

    /// Commits a ticket under its domain's lock, if the home node is still the ticket's
    /// start, and else answers `Stale`, as where there is no such domain. The ticket is spent in each
    /// case.
    ///
    /// # Errors
    ///
    /// `JournalFull` where the ticket's Steps pass the domain's limit, and else `NoMemory` where the
    /// journal can't grow; see [`Domain::commit`], which is lent the guard. Nothing has changed then.
    pub fn commit<R: Wait>(
        &self,
        rt: &R,
        alloc: Global,
        ticket: Ticket,
    ) -> Result<Committed, Refusal>
        ensures elsewhere { length self.now.plan ≤ ticket.domain → result ≡ Ok Stale }
        ensures no_such { result ≢ Err NoSuch }
    {
        let domain = ticket.domain();
        let committed = match self.hold(rt, domain) {
            Some(mut seated) => seated.commit(alloc, ticket),
            None => Ok(Committed::Stale),
        };
        self.note_call(domain);
        committed
    }

    // Tells the workers that there may be work in a domain.
    pub(crate) fn note_call(&self, domain: u8) {
        self.schedule.sleep_board().note_call(domain);
    }

    // Which bursts are to be done next.
    pub(crate) fn schedule(&self) -> &Schedule {
        &self.schedule
    }

    /// Ends the service. Every merge of the journals is a run of the whole farm of the plan, which answers the
    /// stored replies and ends as the words say; each user's commands in the journal of the user's domain, with
    /// their replies, are the list of the pass that was handed in for the user, in its order; a pass has met a
    /// full journal only if its domain's journal has as many events as its limit, and no room only if its list or the journal has
    /// as many entries as memory is reserved for; users asked for all commands,
    /// and the farm itself for nothing but Steps and Moves; and the tokens are the plan's nodes, each once.
    ///
    /// If a journal has other commands of a user than the user's pass lists, or isn't full, or nearly full, or has
    /// room, though the pass notes the contrary, or has a command of the farm itself or a Step or a Move of a user, the call
    /// waits for ever. No run
    /// comes to it whose passes are those of this service's opening, unless a history that was done again has such a call.
    ///
    /// # Errors
    ///
    /// Service and passes as they were handed in, if there is no memory for what is left of them.
    // Eight clauses: what closing vouches for of domains, runs, users and tokens, and what is given back.
    pub fn close<R: Wait>(
        self,
        rt: &R,
        alloc: Global,
        passes: Vec<WorkerPass>,
        users: Vec<UserPass>,
    ) -> Result<Closed, NotClosed>
        requires { AreItsPasses self.plan self.queue passes.items }
        ensures domains { IfOk result (λ closed. AreDomainsOf self.plan closed.domains.items) }
        ensures runs { IfOk result (λ closed. EachMergeRuns (places_of self.plan) closed.domains.items) }
        ensures users { IfOk result (λ closed. AreListed closed.domains.items users.items) }
        ensures full { IfOk result (λ closed. AllMetFullTruly self.plan closed.domains.items users.items) }
        ensures asked { IfOk result (λ closed. AllAreRightlyAsked closed.domains.items) }
        ensures tokens { IfOk result (λ closed. HasEachOnce self.plan closed.tokens.items) }
        ensures err { IfErr result (λ e. (e.service ≡ self) × (e.passes.items ≡ passes.items) × (e.users.items ≡ users.items)) }
    {
        let Ok(room) = ClosingMemory::of(alloc, self.domains.len()) else {
            return Err(NotClosed {
                service: self,
                passes,
                users,
            });
        };
        let Service {
            plan,
            domains,
            table: _,
            tokens,
            stopped: _,
            room: _,
            rest_notes: _,
            schedule: _,
        } = self;
        let ClosingMemory {
            domains: closed,
            words,
            tokens: mut left,
        } = room;
        let closed = close_domains(rt, &plan, domains, closed, words);
        await_listed(rt, closed.as_slice(), users.as_slice());
        await_limits(rt, &plan, closed.as_slice(), users.as_slice());
        await_rightly_asked(rt, closed.as_slice());
        tokens.end(rt, &plan, passes, &mut left);
        Ok(Closed {
            domains: closed,
            tokens: left,
        })
    }
}
