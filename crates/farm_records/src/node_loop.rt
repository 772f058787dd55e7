//! The endless loop in which a node is, as far as it is known.
ghost use Rattle.std.specs.Prelude.{◌≡◌, ◌<◌, ◌≤◌};

use domain_core::Ticket;

/// How many Steps the first burst of a line has, at most, if no period is known.
const FIRST_BURST: u64 = 1 << 16;

/// After how many Steps a period is looked for again.
const STEPS_BETWEEN_LOOKS: u64 = 1 << 24;

/// How many Steps a later burst has, at most, if no period is known: about a second's work.
const MOST_BURST: u64 = 1 << 28;

/// How many Steps are done one by one, at most, to find a period.
const PERIOD_STEPS: u64 = 1 << 14;

/// What is known of the loop in which a node is. It says what is tried first, and whether it still holds is seen each time: a
/// node that is the same after some Steps will be the same after as many more.
#[derive(Clone, Copy)]
pub struct NodeLoop {
    // After how many Steps the node was the same again; 0 if that isn't known.
    period: u64,
    // How many Steps it did since a period was last looked for.
    steps: u64,
}

impl NodeLoop {
    /// Nothing is known.
    pub fn none() -> NodeLoop {
        NodeLoop {
            period: 0,
            steps: 0,
        }
    }

    /// How many of these Steps the first burst has: those of a period if one is known, or else a few.
    pub fn first_steps(self, times: u64) -> u64
        requires { 0 < times }
        ensures some { 0 < result }
        ensures within { result ≤ times }
    {
        if self.period > 0 && self.period <= times {
            self.period
        } else {
            times.min(FIRST_BURST)
        }
    }

    /// How many of the Steps that are left the next burst has: all if a period is known, or else no more than were done before, and
    /// 2^28 at the most. So where a program comes to an endless loop, a burst begins in the loop before it has done twice as many
    /// Steps.
    pub fn next_steps(self, done: u64, left: u64) -> u64
        requires done { 0 < done }
        requires left { 0 < left }
        ensures some { 0 < result }
        ensures within { result ≤ left }
    {
        if self.period > 0 {
            left
        } else {
            done.min(left).min(MOST_BURST)
        }
    }

    /// Does the first of `times` Steps of a ticket that has done none: a period if one is known, and it is forgotten if the node
    /// isn't the same after it. If none is known it is looked for, once in 2^24 Steps.
    pub fn begin(&mut self, ticket: &mut Ticket, times: u64)
        ensures { ticket.new.number ≡ ticket.old.number }
    {
        self.steps = self.steps.saturating_add(times);
        if self.period > 0 {
            self.try_period(ticket, times);
        } else if self.steps >= STEPS_BETWEEN_LOOKS && times >= FIRST_BURST {
            self.steps = 0;
            self.look_for_period(ticket);
        }
    }

    fn try_period(&mut self, ticket: &mut Ticket, times: u64)
        ensures { ticket.new.number ≡ ticket.old.number }
    {
        if self.period > times {
            return;
        }
        ticket.burst(self.period);
        if !ticket.is_start_again() {
            self.period = 0;
        }
    }

    fn look_for_period(&mut self, ticket: &mut Ticket)
        ensures { ticket.new.number ≡ ticket.old.number }
    {
        ticket.burst_to_start(PERIOD_STEPS);
        if ticket.is_start_again() {
            self.period = ticket.steps();
        }
    }
}
