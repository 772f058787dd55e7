//! A domain: its machine, with the journal of what it answered.
ghost use Rattle.std.specs.Prelude.{◌≡◌, ◌≢◌, ◌<◌, ◌+◌, [], None, Some, Ok, Err, length, IfErr, IfOk, IfSome, OnOk, OnErr, IsTrue, ◌↔◌, slice_get, true, not};
ghost use Rattle.std.specs.List.{AllZip};
ghost use Rattle.std.specs.Option.{option_copied};
ghost use Rattle.crossbar.specs.Row.{switch_of, IsRow, number_among};
ghost use Rattle.virtual_switch.specs.SwitchValue.{row_of};
ghost use Rattle.crossbar.specs.Switch.{cleared};
ghost use Rattle.crossbar.specs.Word.{CountsChange};
ghost use Rattle.domain_core.specs.declared.domain.Committed.TheVariants.{Done, Stale};
ghost use Rattle.domain_core.specs.declared.event.By.TheVariants.{Farm};
ghost use Rattle.domain_core.specs.declared.event.Event.{Event as SpecEvent};
ghost use Rattle.domain_core.specs.declared.event.Refusal.TheVariants.{NoSuch, JournalFull};
ghost use Rattle.domain_core.specs.declared.event.Refusal.TheVariants as refusal_of;
ghost use Rattle.domain_core.specs.declared.event.Reply.TheVariants.{Look};
ghost use Rattle.domain_core.specs.Machine.{is_recorded};
ghost use Rattle.domain_core.specs.MachineValue.{machine_of};
ghost use Rattle.domain_core.specs.PrivateFarm.{is_there, opening};
ghost use Rattle.domain_core.specs.Journal.{expanded, IsKeptWithin};
ghost use Rattle.domain_core.specs.Domain.{state_of, IsMeant, IsCalled, IsOutOfRoom, IsPastLimit, Fits, IsQuiet};
ghost use Rattle.domain_core.specs.PortStates.{IsPortState};
ghost use Rattle.domain_core.specs.Ticket.{IsCurrent, Commits, fresh_ticket};

use crate::NoMemory;
use crate::entries::SmallReply;
use crate::event::{By, Event, Refusal, Reply};
use crate::host::Host;
use crate::journal::Journal;
use crate::machine::{Acted, RunningMachine};
use crate::moves::has_moved;
use crate::port_state::PortState;
use crate::ticket::Ticket;
use bootstrap::{Node, Seen};
use crossbar::laws::unchanged_words_count_nothing;
use crossbar::{Outputs, Word};
use plan_rules::{AcceptedPlan, Part};
use std::alloc::Global;
use std::marker::Model;

/// What became of a ticket.
#[derive(Clone, Copy, PartialEq, Eq)]
pub enum Committed {
    /// The copy is in the node's place, and its Steps are in the journal.
    Done,
    /// The home node isn't the ticket's start, or isn't there. Nothing has changed.
    Stale,
}

/// A domain: a switch over its outputs, its nodes and its hosts, and the journal of the events that
/// it answered. At every moment it is what its journal says: the state to which a farm that holds the
/// domain alone comes by the same events, which it answers alike.
///
/// A call that may take memory takes `alloc` first. The copies of a ticket are made by it; the journal grows by the allocator that
/// the domain was opened with.
pub struct Domain<O: Outputs> {
    machine: RunningMachine<O>,
    journal: Journal,
    recorded: u64,
}

// Dropped by hand, since a derived `Drop` makes callers prove the drop of each field.
impl<O: Outputs + Drop> Drop for Domain<O> {
    fn drop(self) {
        let Domain {
            machine: _,
            journal: _,
            recorded: _,
        } = self;
    }
}

impl<O: Outputs> Model for Domain<O> {
    ghost use Rattle.std.specs.Prelude.{◌≡◌, length};
    ghost use Rattle.domain_core.specs.Domain.{DomainValue, domain_of, IsMeant};
    ghost use Rattle.domain_core.specs.Journal.{expanded, IsKeptWithin};

    ghost Value = { DomainValue };

    ghost view = { λ d. domain_of d.machine d.journal };

    ghost invariant = { λ d. IsMeant (domain_of d.machine d.journal)
        × (d.recorded ≡ length (expanded d.journal.entries)) };
}

impl<O: Outputs + Drop> Domain<O> {
    /// A domain as it is opened, with an empty journal.
    ///
    /// The outputs are as many as the part's ports, and all are disconnected. `NoMemory` where
    /// memories or queues can't be allocated.
    // Seven clauses: two of the outputs, and one for each part of the domain.
    pub fn open(alloc: Global, part: Part, outputs: O) -> Result<Domain<O>, NoMemory>
        requires count { length (O.seen outputs).ports ≡ part.count }
        requires cleared { switch_of (O.seen outputs).words ≡ cleared }
        ensures state { IfOk result (λ d. state_of d ≡ opening part) }
        ensures journal { IfOk result (λ d. d.journal ≡ []) }
        ensures reserved { IfOk result (λ d. d.reserved ≡ 0) }
        ensures part { IfOk result (λ d. d.machine.part ≡ part) }
        ensures row { IfOk result (λ d. row_of d.machine.switch ≡ O.seen outputs) }
    {
        let machine = RunningMachine::open(alloc, part, outputs)?;
        Ok(Domain {
            machine,
            journal: Journal::new(alloc),
            recorded: 0,
        })
    }

    /// The part that the domain was opened with.
    pub fn part(&self) -> &Part
        ensures { result.now ≡ self.now.machine.part }
    {
        self.machine.part()
    }

    /// A domain is its journal. No entry of that is empty, and there are no more than memory is reserved for, if it is. Its words
    /// are a row of its ports, which are as many as the part's count, and it has as many nodes as the part.
    ///
    /// The call does nothing: its contract is the law.
    pub fn meant_law(&self)
        ensures journal { IsMeant self.now }
        ensures kept { IsKeptWithin self.now.journal self.now.reserved }
        ensures row { IsRow (row_of self.now.machine.switch) }
        ensures count { length self.now.machine.switch.ports ≡ self.now.machine.part.count }
        ensures nodes { length self.now.machine.devices.nodes ≡ length self.now.machine.part.nodes }
    {
        // A machine has the ports and nodes of its part.
        self.machine.of_part_law();
        // A journal has no empty entry, and none past those that are reserved.
        self.journal.kept_law();
    }

    /// Answers an event as a farm does that holds the domain alone.
    ///
    /// `NoSuch` where there is no such user, host, node or port, or the host isn't the user's; else
    /// `JournalFull` where the recorded events number the limit; else `NoMemory` where the journal has as many entries as memory
    /// is reserved for, or none is reserved and the system has none. After a refusal nothing has changed.
    // Six clauses: what is answered, when memory is wanted, and what stays. Each kind of event has a copy of the code, in
    // which its tests are known.
    pub fn apply(&mut self, _alloc: Global, by: By, event: Event) -> Result<Reply, Refusal>
        ensures called { IsCalled (record { by = by; event = event }) result self.old self.new }
        ensures memory { result ≡ Err refusal_of.NoMemory → IsOutOfRoom self.old }
        ensures reserved { self.new.reserved ≡ self.old.reserved }
        ensures err { OnErr result (self.new ≡ self.old) }
        ensures part { self.new.machine.part ≡ self.old.machine.part }
        ensures ports { self.new.machine.switch.ports ≡ self.old.machine.switch.ports }
    {
        match event {
            Event::Config(byte) => self.answer(by, Event::Config(byte)),
            Event::Write(host, byte) => self.answer(by, Event::Write(host, byte)),
            Event::Read(host) => self.answer(by, Event::Read(host)),
            Event::Reset(node) => self.answer(by, Event::Reset(node)),
            Event::Look(node) => self.answer(by, Event::Look(node)),
            Event::Step(node) => self.answer(by, Event::Step(node)),
            Event::Move(port) => self.answer(by, Event::Move(port)),
        }
    }

    // Answers an event of any kind.
    // Six clauses: those of `apply`.
    #[inline(always)]
    #[tactic(auto, using(crate::proofs::Unchanged::counts_itself))]
    fn answer(&mut self, by: By, event: Event) -> Result<Reply, Refusal>
        ensures called { IsCalled (record { by = by; event = event }) result self.old self.new }
        ensures memory { result ≡ Err refusal_of.NoMemory → IsOutOfRoom self.old }
        ensures reserved { self.new.reserved ≡ self.old.reserved }
        ensures err { OnErr result (self.new ≡ self.old) }
        ensures part { self.new.machine.part ≡ self.old.machine.part }
        ensures ports { self.new.machine.switch.ports ≡ self.old.machine.switch.ports }
    {
        // Words that stay count no change.
        unchanged_words_count_nothing();
        if !self.machine.has_target(by, event) {
            return Err(Refusal::NoSuch);
        }
        if self.recorded == self.machine.part().limit() {
            return Err(Refusal::JournalFull);
        }
        if let Event::Look(node) = event {
            return Ok(Reply::Look(self.answer_look(by, node)?));
        }
        let journal = &mut self.journal;
        if journal.entries.reserve().is_err() {
            return Err(Refusal::NoMemory);
        }
        // A Step that isn't recorded changes nothing.
        bootstrap::quiet_step_changes_nothing();
        let Acted { reply, recorded } = self.machine.act(event);
        if recorded {
            journal.entries.push_answer(by, event, reply);
            self.recorded += 1;
        }
        Ok(reply.reply())
    }

    // Answers a look by what is seen. That is large, so that the other events are answered without it.
    // Nine clauses: two of when it is asked, and those of `apply`, with one of them for a look and two for a refusal.
    #[inline(never)]
    #[tactic(auto, using(crate::proofs::Unchanged::counts_itself))]
    fn answer_look(&mut self, by: By, node: u8) -> Result<Seen, Refusal>
        requires there { is_there self.old.machine.part (record { by = by; event = SpecEvent.Look node }) ≡ true }
        requires room { length (expanded self.old.journal) ≢ self.old.machine.part.limit }
        ensures called { IfOk result (λ seen. IsCalled (record { by = by; event = SpecEvent.Look node }) (Ok (Look seen)) self.old self.new) }
        ensures refused { IfErr result (λ refusal. IsCalled (record { by = by; event = SpecEvent.Look node }) (Err refusal) self.old self.new) }
        ensures memory { OnErr result (IsOutOfRoom self.old) }
        ensures reserved { self.new.reserved ≡ self.old.reserved }
        ensures err { OnErr result (self.new ≡ self.old) }
        ensures part { self.new.machine.part ≡ self.old.machine.part }
        ensures ports { self.new.machine.switch.ports ≡ self.old.machine.switch.ports }
    {
        // Words that stay count no change.
        unchanged_words_count_nothing();
        let journal = &mut self.journal;
        if journal.entries.reserve_look().is_err() {
            return Err(Refusal::NoMemory);
        }
        let seen = self.machine.look(node);
        journal.entries.push_seen(by, Event::Look(node), seen);
        self.recorded += 1;
        Ok(seen)
    }

    /// As [`Domain::apply`] of a Move of a port of the domain, for which the farm asks. The packet's way is found once, and
    /// where nothing waits the journal isn't asked for room.
    // Eight clauses: one of the port, those of `apply`, and one of the refusals.
    #[tactic(auto, using(crate::proofs::Unchanged::counts_itself))]
    pub fn move_port(&mut self, _alloc: Global, port: u8) -> Result<Reply, Refusal>
        requires { port < self.old.machine.part.count }
        ensures called { IsCalled (record { by = Farm; event = SpecEvent.Move port }) result self.old self.new }
        ensures memory { result ≡ Err refusal_of.NoMemory → IsOutOfRoom self.old }
        ensures reserved { self.new.reserved ≡ self.old.reserved }
        ensures no_such { result ≢ Err NoSuch }
        ensures err { OnErr result (self.new ≡ self.old) }
        ensures part { self.new.machine.part ≡ self.old.machine.part }
        ensures ports { self.new.machine.switch.ports ≡ self.old.machine.switch.ports }
    {
        // Words that stay count no change.
        unchanged_words_count_nothing();
        if self.is_full() {
            return Err(Refusal::JournalFull);
        }
        let route = self.machine.route(port);
        let moved = route.answer();
        if has_moved(moved) {
            let journal = &mut self.journal;
            journal.entries.reserve()?;
            self.machine.follow(route);
            journal
                .entries
                .push_answer(By::Farm, Event::Move(port), SmallReply::Moved(moved));
            self.recorded += 1;
        }
        Ok(Reply::Moved(moved))
    }

    /// Whether no Step and no Move would be recorded, the limit aside. Nothing changes.
    pub fn quiet(&mut self) -> bool
        ensures quiet { IsTrue result ↔ IsQuiet self.old.machine.part (machine_of self.old.machine) }
        ensures unchanged { self.new ≡ self.old }
    {
        self.machine.quiet()
    }

    /// Whether a Step of this node of the part would not be recorded, the limit aside.
    pub fn node_is_quiet(&self, node: u8) -> bool
        requires { node < length self.now.machine.part.nodes }
        ensures { result ≡ not (is_recorded self.now.machine.part (machine_of self.now.machine) (SpecEvent.Step node)) }
    {
        self.machine.node_is_quiet(node)
    }

    /// Whether the recorded events number the part's limit.
    pub fn is_full(&self) -> bool
        ensures { IsTrue result ↔ (length (expanded self.now.journal) ≡ self.now.machine.part.limit) }
    {
        self.recorded == self.machine.part().limit()
    }

    /// The switch word of a virtual output below the domain's count. Nothing changes.
    pub fn word(&mut self, output: u8) -> Word
        requires { output < self.old.machine.part.count }
        ensures word { slice_get self.old.machine.switch.words output ≡ Some result }
        ensures row { IsRow (row_of self.old.machine.switch) }
        ensures unchanged { self.new ≡ self.old }
    {
        self.machine.word(output)
    }

    /// The virtual number of a physical port, or `None` where it is none of the domain's.
    pub fn virtual_of(&self, port: u8) -> Option<u8>
        ensures { result ≡ number_among self.now.machine.switch.ports port }
    {
        self.machine.virtual_of(port)
    }

    /// Whether the domain has the part and the physical ports of this domain of a plan. It hasn't
    /// where the plan has no such domain.
    pub fn fits(&self, plan: &AcceptedPlan, number: u8) -> bool
        ensures { IsTrue result ↔ Fits plan.now number self.now }
    {
        number < plan.domains()
            && self.machine.part().equals(plan.part(number))
            && self.machine.is_at(plan.ports(number))
    }

    /// Reserves memory for `entries` entries of the journal in all, whether they are looks or not. There may be no more then,
    /// but for 0 as many as the system has memory for. The memory isn't touched before it is needed.
    ///
    /// `NoMemory` if the system doesn't give that much, or the journal has more entries already. Nothing has changed then.
    pub fn reserve(&mut self, _alloc: Global, entries: usize) -> Result<(), NoMemory>
        ensures ok { OnOk result (self.new ≡ record self.old { reserved = entries }) }
        ensures err { OnErr result (self.new ≡ self.old) }
    {
        self.journal.reserve(entries)
    }

    /// For how many entries of the journal in all memory is reserved.
    pub fn reserved_entries(&self) -> usize
        ensures { result ≡ self.now.reserved }
    {
        self.journal.reserved_entries()
    }

    /// Makes the domain as it was opened, with an empty journal. The journal's memory goes back to the system, and as
    /// much as before is reserved again. Change counts go on.
    // Six clauses: one for each part of the domain.
    pub fn restart(&mut self)
        ensures state { state_of self.new ≡ opening self.old.machine.part }
        ensures journal { self.new.journal ≡ [] }
        ensures reserved { self.new.reserved ≡ self.old.reserved }
        ensures part { self.new.machine.part ≡ self.old.machine.part }
        ensures ports { self.new.machine.switch.ports ≡ self.old.machine.switch.ports }
        ensures counts { AllZip CountsChange self.old.machine.switch.words self.new.machine.switch.words }
    {
        self.machine.clear();
        self.journal.clear();
        self.recorded = 0;
    }

    /// How many events are recorded, at most the part's limit.
    pub fn recorded_events(&self) -> u64
        ensures { result ≡ length (expanded self.now.journal) }
    {
        self.recorded
    }

    /// What the domain answered, in order.
    pub fn journal(&self) -> &Journal
        ensures entries { result.now.entries ≡ self.now.journal }
        ensures reserved { result.now.reserved ≡ self.now.reserved }
    {
        &self.journal
    }

    /// What the domain answered, in order, at its end.
    pub fn into_journal(self) -> Journal
        ensures { result.entries ≡ self.journal }
    {
        let Domain {
            journal: answered,
            machine: _,
            recorded: _,
        } = self;
        answered
    }

    /// A node, if it is there.
    pub fn node(&self, number: u8) -> Option<&Node>
        ensures { option_copied result ≡ slice_get self.now.machine.devices.nodes number }
    {
        self.machine.node(number)
    }

    /// A host, if it is there.
    pub fn host(&self, number: u8) -> Option<&Host>
        ensures { option_copied result ≡ slice_get self.now.machine.devices.hosts number }
    {
        self.machine.host(number)
    }

    /// What waits at a virtual port, and what a Move of it would come to. Nothing changes.
    pub fn port_state(&mut self, port: u8) -> PortState
        requires { port < self.old.machine.part.count }
        ensures state { IsPortState self.old.machine.part (machine_of self.old.machine) port result }
        ensures unchanged { self.new ≡ self.old }
    {
        self.machine.port_state(port)
    }

    // A node, or `NoSuch`.
    fn home(&self, node: u8) -> Result<&Node, Refusal>
        ensures node { IfOk result (λ home. slice_get self.now.machine.devices.nodes node ≡ Some home.now) }
        ensures no_such { IfErr result (λ refusal. (slice_get self.now.machine.devices.nodes node ≡ None) × (refusal ≡ NoSuch)) }
    {
        self.machine.node(node).ok_or(Refusal::NoSuch)
    }

    /// A ticket of a node: a copy of it, with no Steps yet. The domain's number is only written into
    /// the ticket.
    ///
    /// `NoSuch` where there is no such node, and else `NoMemory` where it can't be copied.
    pub fn checkout(&self, alloc: Global, domain: u8, node: u8) -> Result<Ticket, Refusal>
        ensures no_such { (result ≡ Err NoSuch) ↔ (slice_get self.now.machine.devices.nodes node ≡ None) }
        ensures ticket { IfOk result (λ t. (slice_get self.now.machine.devices.nodes node ≡ Some t.start) × (t ≡ fresh_ticket domain node t.start)) }
        ensures full { result ≢ Err JournalFull }
    {
        Ok(Ticket::of(alloc, domain, node, self.home(node)?)?)
    }

    /// As [`Domain::checkout`], but the ticket is put in a slot, where the memory of the one that lies
    /// there serves again if it is of the same size. After a refusal the slot is what it was.
    pub fn checkout_to(
        &self,
        alloc: Global,
        slot: &mut Option<Ticket>,
        domain: u8,
        node: u8,
    ) -> Result<(), Refusal>
        ensures no_such { (result ≡ Err NoSuch) ↔ (slice_get self.now.machine.devices.nodes node ≡ None) }
        ensures ticket { IfOk result (λ _. IfSome (slice_get self.now.machine.devices.nodes node) (λ home. slot.new ≡ Some (fresh_ticket domain node home))) }
        ensures full { result ≢ Err JournalFull }
        ensures err { OnErr result (slot.new ≡ slot.old) }
    {
        Ok(Ticket::put(alloc, slot, domain, node, self.home(node)?)?)
    }

    /// Puts a ticket's copy in its node's place, if the home node is still the ticket's start, and records its
    /// Steps, for which the farm asked. The ticket is spent in each case.
    ///
    /// `Stale` where the home node isn't the start or isn't there; else `JournalFull` where the
    /// recorded events and the ticket's Steps pass the limit; else `NoMemory` where the journal has as many entries as
    /// memory is reserved for, or none is reserved and the system has none. In each of these nothing has changed.
    // Seven clauses: when each outcome comes, and what changes then.
    pub fn commit(&mut self, alloc: Global, mut ticket: Ticket) -> Result<Committed, Refusal>
        ensures stale { (result ≡ Ok Stale) ↔ ¬ IsCurrent self.old ticket }
        ensures full { (result ≡ Err JournalFull) ↔ (IsCurrent self.old ticket × IsPastLimit self.old ticket.steps) }
        ensures no_such { result ≢ Err NoSuch }
        ensures memory { result ≡ Err refusal_of.NoMemory → IsOutOfRoom self.old }
        ensures done { result ≡ Ok Done → Commits self.old ticket self.new }
        ensures unchanged { result ≢ Ok Done → self.new ≡ self.old }
    {
        self.commit_in_place(alloc, &mut ticket)
    }

    /// As [`Domain::commit`], but the ticket is lent. If it was committed it is a ticket of no Steps
    /// of its start, and else what it was.
    // Eight clauses: those of `commit`, and what becomes of the ticket.
    pub fn commit_in_place(
        &mut self,
        _alloc: Global,
        ticket: &mut Ticket,
    ) -> Result<Committed, Refusal>
        ensures stale { (result ≡ Ok Stale) ↔ ¬ IsCurrent self.old ticket.old }
        ensures full { (result ≡ Err JournalFull) ↔ (IsCurrent self.old ticket.old × IsPastLimit self.old ticket.old.steps) }
        ensures no_such { result ≢ Err NoSuch }
        ensures memory { result ≡ Err refusal_of.NoMemory → IsOutOfRoom self.old }
        ensures done { result ≡ Ok Done → Commits self.old ticket.old self.new }
        ensures spent { result ≡ Ok Done → ticket.new ≡ fresh_ticket ticket.old.domain ticket.old.number ticket.old.start }
        ensures unchanged { result ≢ Ok Done → (self.new ≡ self.old) × (ticket.new ≡ ticket.old) }
    {
        if !self.machine.is_current(ticket) {
            return Ok(Committed::Stale);
        }
        if self.machine.part().limit() - self.recorded < ticket.steps() {
            return Err(Refusal::JournalFull);
        }
        let journal = &mut self.journal;
        if journal.entries.reserve().is_err() {
            return Err(Refusal::NoMemory);
        }
        // A Step keeps the size of memory.
        bootstrap::steps_keep_the_size();
        // A recorded Step that leaves a node which can step again ran.
        bootstrap::recorded_step_ran();
        // A ticket's node is its start after its Steps.
        ticket.stepped_law();
        let number = ticket.number();
        let steps = ticket.steps();
        let last = ticket.last();
        self.machine.commit_node(ticket);
        journal.entries.push_ticket(number, steps, last);
        self.recorded += steps;
        Ok(Committed::Done)
    }
}
