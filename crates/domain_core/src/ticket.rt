//! A copy of a node, whose Steps are done outside the lock of its domain.
ghost use Rattle.std.specs.Prelude.{◌≡◌, ◌<◌, ◌≤◌, IfOk, IsTrue, OnErr, Some, ◌↔◌, min};
ghost use Rattle.bootstrap.specs.Laws.{later_or};
ghost use Rattle.domain_core.specs.Ticket.{Bursts, fresh_ticket};

use crate::NoMemory;
use bootstrap::{Burst, Node};
use std::alloc::Global;
use std::marker::Model;
use std::mem::swap;
use t414_step::Stepped;

/// The most Steps of one ticket.
pub const TICKET_STEPS: u64 = 1 << 40;

// From how many Steps on a period of the node is looked for.
const LEAST_FOR_PERIODS: u64 = 1 << 24;

// How many Steps are done one by one, at most, to find a period.
const PERIOD_STEPS: u64 = 1 << 14;

/// A copy of a node, and the Steps that it has done since it was copied. The home node may change
/// meanwhile: then the ticket is stale.
pub struct Ticket {
    domain: u8,
    number: u8,
    start: Node,
    node: Node,
    steps: u64,
    last: Option<Stepped>,
}

// Dropped by hand, since a derived `Drop` makes callers prove the drop of each field.
impl Drop for Ticket {
    fn drop(self) {
        let Ticket {
            domain: _,
            number: _,
            start: _,
            node: _,
            steps: _,
            last: _,
        } = self;
    }
}

impl Model for Ticket {
    ghost use Rattle.domain_core.specs.Ticket.{TicketValue, IsTicket};

    ghost Value = { TicketValue };

    ghost view = { λ t. record { domain = t.domain; number = t.number; start = t.start; node = t.node; steps = t.steps; last = t.last } };

    ghost invariant = { λ t. IsTicket (record { domain = t.domain; number = t.number; start = t.start; node = t.node; steps = t.steps; last = t.last }) };
}

impl Ticket {
    ghost use Rattle.domain_core.specs.Ticket.{IsTicket};

    // A ticket of no Steps.
    pub(crate) fn of(alloc: Global, domain: u8, number: u8, home: &Node) -> Result<Ticket, NoMemory>
        ensures { IfOk result (λ t. t ≡ fresh_ticket domain number home.now) }
    {
        let start = home.copy(alloc)?;
        let node = home.copy(alloc)?;
        Ok(Ticket {
            domain,
            number,
            start,
            node,
            steps: 0,
            last: None,
        })
    }

    // Makes it a ticket of no Steps of a node whose memory is of the size of its own; whether it is. Else nothing
    // changes. No memory is allocated.
    fn renew(&mut self, domain: u8, number: u8, home: &Node) -> bool
        ensures renewed { IsTrue result → self.new ≡ fresh_ticket domain number home.now }
        ensures other_size { ¬ IsTrue result → self.new ≡ self.old }
    {
        // Steps keep the size of memory, so that the copy's is that of the start.
        bootstrap::steps_keep_the_size();
        if !self.start.copy_from(home) {
            return false;
        }
        self.node.copy_from(home);
        (self.domain, self.number) = (domain, number);
        (self.steps, self.last) = (0, None);
        true
    }

    // Makes the ticket of a slot one of no Steps of this node. The ticket that lies there is used again if it can be.
    // After `NoMemory` the slot is what it was.
    pub(crate) fn put(
        alloc: Global,
        slot: &mut Option<Ticket>,
        domain: u8,
        number: u8,
        home: &Node,
    ) -> Result<(), NoMemory>
        ensures ticket { IfOk result (λ _. slot.new ≡ Some (fresh_ticket domain number home.now)) }
        ensures err { OnErr result (slot.new ≡ slot.old) }
    {
        if let Some(ticket) = slot
            && ticket.renew(domain, number, home)
        {
            return Ok(());
        }
        *slot = Some(Ticket::of(alloc, domain, number, home)?);
        Ok(())
    }

    /// Does Steps up to the nth, to the first that would not be recorded, or until the ticket has
    /// 2^40. It takes neither a lock nor memory.
    pub fn burst(&mut self, n: u64)
        ensures { Bursts n self.old self.new }
    {
        // Steps after Steps are as many as both.
        bootstrap::steps_add_up();
        let most = at_most(n, TICKET_STEPS - self.steps);
        let Burst { steps, last } = self.node.burst(most);
        self.steps += steps;
        self.last = later_or(last, self.last);
    }

    /// Does the same as `burst`, but if the copy comes to be its start again, as it does in an endless loop, it counts whole
    /// periods without doing them. A period is looked for only if n is 2^24 or more, and only among the next 16,384 Steps.
    pub fn burst_by_periods(&mut self, n: u64)
        ensures { Bursts n self.old self.new }
    {
        // Steps after Steps are as many as both.
        bootstrap::steps_add_up();
        let most = if n < LEAST_FOR_PERIODS {
            0
        } else {
            PERIOD_STEPS
        };
        let tried = self.burst_to_start(most);
        let skipped = self.skip_periods(n - tried);
        // It is a ticket still.
        self.stepped_law();
        self.burst(n - tried - skipped);
        self.stepped_law();
    }

    /// Does Steps one by one, up to `most`, until the copy is its start again. Returns for how many it asked.
    pub fn burst_to_start(&mut self, most: u64) -> u64
        ensures few { result ≤ most }
        ensures bursts { Bursts result self.old self.new }
    {
        // Steps after Steps are as many as both.
        bootstrap::steps_add_up();
        for tried in 0..most {
            if self.is_start_again() {
                return tried;
            }
            self.burst(1);
            // It is a ticket still.
            self.stepped_law();
        }
        most
    }

    /// Whether the copy is its start again, after some Steps: then all Steps since the checkout are a period.
    pub fn is_start_again(&self) -> bool
        ensures { IsTrue result ↔ ((0 < self.now.steps) × (self.now.node ≡ self.now.start)) }
    {
        self.steps > 0 && self.node.same(&self.start)
    }

    // Counts as many whole periods as fit, without doing them, if the copy is its start again: all Steps since the
    // checkout are a period then. How many Steps it counted.
    fn skip_periods(&mut self, most: u64) -> u64
        ensures few { result ≤ most }
        ensures bursts { Bursts result self.old self.new }
    {
        // Steps after Steps are as many as both.
        bootstrap::steps_add_up();
        if !self.is_start_again() {
            return 0;
        }
        let room = at_most(most, TICKET_STEPS - self.steps);
        let skipped = room / self.steps * self.steps;
        self.steps += skipped;
        skipped
    }

    /// The number of the domain that was written into the ticket at its checkout.
    pub fn domain(&self) -> u8
        ensures { result ≡ self.now.domain }
    {
        self.domain
    }

    /// The number of the node in its domain.
    pub fn number(&self) -> u8
        ensures { result ≡ self.now.number }
    {
        self.number
    }

    /// How many Steps were done since the checkout, at most 2^40.
    pub fn steps(&self) -> u64
        ensures { result ≡ self.now.steps }
    {
        self.steps
    }

    /// What the last Step answered, none where there was none.
    pub fn last(&self) -> Option<Stepped>
        ensures { result ≡ self.now.last }
    {
        self.last
    }

    /// The copy is its start after the Steps since, and each of them would be recorded.
    ///
    /// The call does nothing: its contract is the law.
    pub fn stepped_law(&self)
        ensures { IsTicket self.now }
    {
        let _ = &self.node;
    }

    // Whether a node is the ticket's start.
    pub(crate) fn starts_at(&self, home: &Node) -> bool
        ensures { IsTrue result ↔ (home.now ≡ self.now.start) }
    {
        home.same(&self.start)
    }

    // Puts the copy in the place of the home node, which is the start, and takes that for it: it is a ticket of no Steps then.
    pub(crate) fn commit_to(&mut self, home: &mut Node)
        requires { home.old ≡ self.old.start }
        ensures home { home.new ≡ self.old.node }
        ensures spent { self.new ≡ fresh_ticket self.old.domain self.old.number self.old.start }
    {
        swap(home, &mut self.node);
        (self.steps, self.last) = (0, None);
    }
}

/// The lesser of two numbers.
pub(crate) fn at_most(n: u64, most: u64) -> u64
    ensures { result ≡ min n most }
{
    if n < most { n } else { most }
}

// What the last of the later Steps answered, or of those before them where there are no later ones.
fn later_or(later: Option<Stepped>, before: Option<Stepped>) -> Option<Stepped>
    ensures { result ≡ later_or later before }
{
    match later {
        Some(answer) => Some(answer),
        None => before,
    }
}
