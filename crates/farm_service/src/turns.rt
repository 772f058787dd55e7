//! Turns of workers, and rounds of `settle`.

ghost use Rattle.std.specs.Prelude.{◌≡◌, ◌≢◌, ◌<◌, ◌≤◌, Ok, Err, length};
ghost use Rattle.domain_core.specs.declared.event.Refusal.TheVariants.{NoSuch};
ghost use Rattle.farm_service.specs.Rooms.{IsUsedUp, least_bytes};
ghost use Rattle.farm_service.specs.declared.turns.Begun.TheVariants.{CheckedOut};

use crate::halves::{TurnOutcome, Turned, begin_turn, commit_slot, end_turn};
use crate::moves::{MovesOutcome, end_round};
use crate::service::{SeatedDomain, Service};
use crate::session::Settled;
use crate::worker::Gate;
use domain_core::{Committed, Refusal, Ticket};
use std::alloc::Global;
use std::sync::Wait;
use token_queue::Token;
use turn_schedule::{BurstLength, Pace, RoundOutcome};

// Does up to `steps` Steps of the ticket in a slot; returns how many it has then.
fn burst(slot: &mut Option<Ticket>, steps: u64) -> u64 {
    match slot {
        Some(ticket) => {
            ticket.burst(steps);
            ticket.steps()
        }
        None => 0,
    }
}

// How a turn begins.
#[derive(Clone, Copy, PartialEq, Eq)]
pub(crate) enum Begun {
    // The node was copied.
    CheckedOut,
    // The node has no Step to do.
    NoStep,
    // The domain has no room.
    NoRoom,
}

impl TurnOutcome {
    // There was nothing to do.
    fn nothing() -> TurnOutcome {
        TurnOutcome {
            turned: Ok(Turned::NoStep),
            moved: Ok(false),
        }
    }

    // The node's Steps were refused.
    fn of_refusal(refusal: Refusal) -> TurnOutcome {
        TurnOutcome {
            turned: Err(refusal),
            moved: Ok(false),
        }
    }

    // What became of the ticket. One of no Steps counts as committed.
    fn commit_outcome(self) -> Result<Committed, Refusal> {
        match self.turned {
            Ok(Turned::Stale) => Ok(Committed::Stale),
            Ok(Turned::BurstRecorded | Turned::NoStep) => Ok(Committed::Done),
            Err(refusal) => Err(refusal),
        }
    }

    // What was done, or the first refusal.
    fn turn_done(self) -> Result<TurnDone, Refusal> {
        let turned = self.turned?;
        let moved = self.moved?;
        Ok(TurnDone { turned, moved })
    }
}

// What was done in a turn: with its node, and whether a packet moved after it.
#[derive(Clone, Copy)]
struct TurnDone {
    turned: Turned,
    moved: bool,
}

impl TurnDone {
    // Whether there was anything to do.
    fn is_busy(self) -> bool {
        self.moved || self.turned != Turned::NoStep
    }
}

impl Service {
    // Begins a turn of a domain that is held. There is none if the domain has no room.
    fn begin_held(
        &self,
        alloc: Global,
        domain: &SeatedDomain,
        token: Token,
        slot: &mut Option<Ticket>,
    ) -> Result<Begun, Refusal>
        ensures room { result ≡ Ok CheckedOut → ¬ IsUsedUp self.now.room (least_bytes domain.now) }
        ensures no_such { result ≢ Err NoSuch }
    {
        if self.has_no_room(token.domain, domain) {
            Ok(Begun::NoRoom)
        } else if begin_turn(alloc, domain, token.domain, token.node, slot)? {
            Ok(Begun::CheckedOut)
        } else {
            Ok(Begun::NoStep)
        }
    }

    // Begins a turn in one hold of the domain's lock.
    fn begin<R: Wait>(
        &self,
        rt: &R,
        alloc: Global,
        token: Token,
        slot: &mut Option<Ticket>,
    ) -> Result<Begun, Refusal>
        ensures there { token.domain < length self.now.plan → result ≢ Err NoSuch }
    {
        match self.hold(rt, token.domain) {
            Some(seated) => self.begin_held(alloc, &seated, token, slot),
            None => Err(Refusal::NoSuch),
        }
    }

    // Ends a turn in one hold of the domain's lock.
    fn end<R: Wait>(
        &self,
        rt: &R,
        alloc: Global,
        token: Token,
        checked_out: bool,
        slot: &mut Option<Ticket>,
    ) -> TurnOutcome {
        match self.hold(rt, token.domain) {
            Some(seated) if !checked_out && self.has_no_room(token.domain, &seated) => {
                TurnOutcome::nothing()
            }
            Some(mut seated) => {
                let ended = end_turn(alloc, &mut seated, checked_out, slot);
                let recorded = seated.recorded_events();
                self.schedule().allowance().note(token.domain, recorded);
                ended
            }
            None => TurnOutcome::of_refusal(Refusal::NoSuch),
        }
    }

    // A turn of a node that was taken, of up to `steps` Steps.
    fn turn_alone<R: Wait, G: Gate>(
        &self,
        rt: &R,
        alloc: Global,
        token: Token,
        gate: &G,
        slot: &mut Option<Ticket>,
        steps: u64,
    ) -> Result<TurnDone, Refusal> {
        let begun = self.begin(rt, alloc, token, slot)?;
        if begun == Begun::NoRoom && self.note_rest(token.domain) {
            gate.rests(rt, token.domain);
        }
        let checked_out = begun == Begun::CheckedOut;
        gate.begins(rt, token);
        let done = if checked_out { burst(slot, steps) } else { 0 };
        self.schedule().note_steps(token, done);
        let ended = self.end(rt, alloc, token, checked_out, slot);
        gate.ended(rt, token, &ended.commit_outcome());
        ended.turn_done()
    }

    // The same, of `quanta` quanta. If the journal has no room for them, the turn is done once more, with one.
    fn turn_of<R: Wait, G: Gate>(
        &self,
        rt: &R,
        alloc: Global,
        token: Token,
        gate: &G,
        slot: &mut Option<Ticket>,
        quantum: u64,
        quanta: u64,
    ) -> Result<TurnDone, Refusal> {
        let ended = self.turn_alone(rt, alloc, token, gate, slot, quantum.saturating_mul(quanta));
        if quanta == 1 || !matches!(ended, Err(Refusal::JournalFull)) {
            return ended;
        }
        self.schedule().shorten(token);
        self.turn_alone(rt, alloc, token, gate, slot, quantum)
    }

    // Notes what a turn found. The turn began after `changes` changes of its domain. A refusal for a full journal comes
    // again until the domain is changed.
    fn note_turn(&self, token: Token, changes: u64, ended: &Result<TurnDone, Refusal>) {
        let rest = self.schedule().sleep_board();
        match ended {
            Ok(ended) if ended.is_busy() => {
                if ended.moved {
                    rest.note_moved(token.domain);
                }
                rest.note_busy(token);
            }
            Ok(_) | Err(Refusal::JournalFull) => rest.note_idle(token, changes),
            Err(_) => {}
        }
    }

    // A turn: a burst of a node outside the lock, if it has a Step to do, and then the Moves of its domain; whether there
    // was anything to do. There is no turn if the node rests, if its domain is paused, or if the schedule doesn't give it.
    pub(crate) fn turn<R: Wait, G: Gate>(
        &self,
        rt: &R,
        alloc: Global,
        token: Token,
        gate: &G,
        slot: &mut Option<Ticket>,
        length: BurstLength,
    ) -> Result<bool, Refusal> {
        let changes = self.schedule().sleep_board().changes(token.domain);
        if self.schedule().sleep_board().is_resting(token)
            || self.schedule().is_paused(token.domain)
        {
            return Ok(false);
        }
        let Some(take) = self.schedule().take(token) else {
            return Ok(false);
        };
        let quanta = if length.may_grow {
            self.schedule().turn_quanta(token, changes, length.quantum)
        } else {
            1
        };
        let ended = self.turn_of(rt, alloc, token, gate, slot, length.quantum, quanta);
        self.schedule().give_back(token, take);
        self.note_turn(token, changes, &ended);
        Ok(ended?.is_busy())
    }

    // A burst of a node outside the lock, of up to `steps` Steps, if the node has one to do. A stale ticket is passed
    // over.
    fn burst_alone<R: Wait>(
        &self,
        rt: &R,
        alloc: Global,
        token: Token,
        slot: &mut Option<Ticket>,
        steps: u64,
    ) -> Result<(), Refusal>
        ensures there { token.domain < length self.now.plan → result ≢ Err NoSuch }
    {
        let checked_out = self.begin(rt, alloc, token, slot)? == Begun::CheckedOut;
        let done = if checked_out { burst(slot, steps) } else { 0 };
        self.schedule().note_steps(token, done);
        if checked_out && let Some(mut seated) = self.hold(rt, token.domain) {
            commit_slot(alloc, &mut seated, true, slot)?;
        }
        Ok(())
    }

    // The same, of as many quanta as the round has. If the journal has no room for them, it is done once more, with one.
    fn burst_of_round<R: Wait>(
        &self,
        rt: &R,
        alloc: Global,
        token: Token,
        slot: &mut Option<Ticket>,
        quantum: u64,
    ) -> Result<(), Refusal>
        ensures there { token.domain < length self.now.plan → result ≢ Err NoSuch }
    {
        let quanta = self.schedule().round_quanta(token.domain);
        let done = self.burst_alone(rt, alloc, token, slot, quantum.saturating_mul(quanta));
        if quanta == 1 || !matches!(done, Err(Refusal::JournalFull)) {
            return done;
        }
        self.schedule().shorten(token);
        self.burst_alone(rt, alloc, token, slot, quantum)
    }

    // The burst of a node in a round, if the schedule gives the node: a worker may be doing it.
    fn burst_free<R: Wait>(
        &self,
        rt: &R,
        alloc: Global,
        token: Token,
        slot: &mut Option<Ticket>,
        quantum: u64,
    ) -> Result<(), Refusal>
        ensures there { token.domain < length self.now.plan → result ≢ Err NoSuch }
    {
        let Some(take) = self.schedule().take(token) else {
            return Ok(());
        };
        let done = self.burst_of_round(rt, alloc, token, slot, quantum);
        self.schedule().give_back(token, take);
        done
    }

    // Sees that the burst of a node in a round is over. A worker that keeps it out for long may have no core: then the
    // burst is done here, and the worker's is stale.
    fn finish_burst<R: Wait>(
        &self,
        rt: &R,
        alloc: Global,
        token: Token,
        slot: &mut Option<Ticket>,
        quantum: u64,
        quanta: u64,
    ) -> Result<(), Refusal>
        ensures there { token.domain < length self.now.plan → result ≢ Err NoSuch }
    {
        let steps = quantum.saturating_mul(quanta);
        if self.schedule().await_commit(token, steps) {
            Ok(())
        } else {
            self.burst_of_round(rt, alloc, token, slot, quantum)
        }
    }

    // How many quanta the bursts of a round used, of the `quanta` that each could use: the most that one of them did,
    // and at least one.
    fn quanta_used(&self, domain: u8, nodes: u8, quantum: u64, quanta: u64) -> u64
        requires quantum { 1 ≤ quantum }
        requires quanta { 1 ≤ quanta }
    {
        if quanta == 1 {
            return 1;
        }
        let most = self.schedule().most_steps(domain, nodes);
        most.div_ceil(quantum).clamp(1, quanta)
    }

    // The bursts of a round, of `quanta` quanta each, no matter who does them.
    fn bursts<R: Wait>(
        &self,
        rt: &R,
        alloc: Global,
        domain: u8,
        nodes: u8,
        slot: &mut Option<Ticket>,
        quantum: u64,
        quanta: u64,
    ) -> Result<(), Refusal>
        ensures there { domain < length self.now.plan → result ≢ Err NoSuch }
    {
        self.schedule().begin_round(domain, nodes, quanta);
        for node in 0..nodes {
            self.burst_free(rt, alloc, Token { domain, node }, slot, quantum)?;
        }
        for node in 0..nodes {
            self.finish_burst(rt, alloc, Token { domain, node }, slot, quantum, quanta)?;
        }
        Ok(())
    }

    // A burst of each node of a domain that has a Step to do, of `quanta` quanta, no matter who does it, and then the
    // Moves.
    pub(crate) fn round<R: Wait>(
        &self,
        rt: &R,
        alloc: Global,
        domain: u8,
        slot: &mut Option<Ticket>,
        quantum: u64,
        quanta: u64,
    ) -> Result<RoundOutcome, Refusal>
        requires quantum { 1 ≤ quantum }
        requires quanta { 1 ≤ quanta }
        ensures there { domain < length self.now.plan → result ≢ Err NoSuch }
    {
        let nodes = self.nodes(domain);
        self.bursts(rt, alloc, domain, nodes, slot, quantum, quanta)?;
        let MovesOutcome { moved, is_quiet } = match self.hold(rt, domain) {
            Some(mut seated) => end_round(alloc, &mut seated)?,
            None => return Err(Refusal::NoSuch),
        };
        Ok(RoundOutcome {
            moved,
            is_quiet,
            rounds: self.quanta_used(domain, nodes, quantum, quanta),
            was_shortened: self.schedule().round_quanta(domain) < quanta,
        })
    }

    // Whether nodes and packets of a domain rest since it has no room.
    fn rests<R: Wait>(&self, rt: &R, domain: u8) -> bool {
        match self.hold(rt, domain) {
            Some(seated) => self.has_no_room(domain, &seated),
            None => false,
        }
    }

    // Whether a domain is quiet after up to `rounds` rounds of a quantum. As long as nothing moves, the bursts of a
    // round are twice as long as those before, and the round counts as several.
    pub(crate) fn settle<R: Wait>(
        &self,
        rt: &R,
        alloc: Global,
        domain: u8,
        quantum: u64,
        rounds: u64,
    ) -> Result<Settled, Refusal>
        requires quantum { 1 ≤ quantum }
        ensures elsewhere { length self.now.plan ≤ domain → result ≡ Err NoSuch }
        ensures there { domain < length self.now.plan → result ≢ Err NoSuch }
    {
        if self.is_quiet(rt, domain)? {
            return Ok(Settled::Quiet);
        }
        let mut slot = None;
        self.settle_by(rt, alloc, domain, &mut slot, quantum, rounds)
    }

    // The same of a domain that isn't quiet, by bursts of the ticket in a slot.
    fn settle_by<R: Wait>(
        &self,
        rt: &R,
        alloc: Global,
        domain: u8,
        slot: &mut Option<Ticket>,
        quantum: u64,
        rounds: u64,
    ) -> Result<Settled, Refusal>
        requires quantum { 1 ≤ quantum }
        ensures there { domain < length self.now.plan → result ≢ Err NoSuch }
    {
        let mut pace = Pace::of(rounds, self.schedule().sleep_board().changes(domain));
        for _round in 0..rounds {
            if pace.is_over() || self.rests(rt, domain) {
                break;
            }
            let ended = self.round(rt, alloc, domain, slot, quantum, pace.quanta())?;
            if ended.is_quiet {
                return Ok(Settled::Quiet);
            }
            let changes = self.schedule().sleep_board().changes(domain);
            pace = pace.after(ended, changes, quantum);
        }
        Ok(Settled::Busy)
    }
}
