//! A farm with its tickets, and what it answers.
ghost use Rattle.std.specs.Prelude.{◌≡◌, ◌↔◌, ◌<◌, ◌≤◌, ◌∷◌, [], IsTrue, IfOk, IfSome, OnErr, OnOk, length, slice_get, string_bytes};
ghost use Rattle.std.specs.Option.{unwrap_or};
ghost use Rattle.answer_text.specs.Replies.{stepped_text};
ghost use Rattle.domain_core.specs.Domain.{UnlessNoMemory};
ghost use Rattle.whole_farm.specs.Places.{places_of};
ghost use Rattle.farm_core.specs.PlainFarm.{journal_there};
ghost use Rattle.farm_replay.specs.Plain.{event_calls, asked_once, asked_of_domain};
ghost use Rattle.farm_replay.specs.Answering.{ShowsCall, StayIfUnrecorded, AnswersCalls, AnswersTimes, AnswersAsked, HasDone};
ghost use Rattle.farm_replay.specs.Runs.{HasGoneOn, HasRestarted, HaveRun, IsOpenedFarm};

use crate::answer_list::AnswerList;
use crate::bursts::{DoneSteps, burst, run_ticket, try_burst};
use crate::fault::{AskFault, FarmStop};
use answer_text::{write_refusal, write_reply, write_stepped};
use crossbar::{PORTS, Word};
use domain_core::{By, Committed, Entry, Event, NoMemory, Refusal, Reply, Ticket};
use event_text::{DomainRequest, Request, write_entry};
use farm_core::PlainFarm;
use plan_checker::AcceptedPlan;
use script_text::TextWriter;
use std::alloc::Global;
use step_meter::StepMeter;
use t414_step::Stepped;
use whole_farm::laws::{each_call_is_private, runs_add_up};

/// A farm on one thread, and the tickets that it gave, each until it is spent.
pub struct OpenFarm {
    alloc: Global,
    /// The farm.
    pub farm: PlainFarm,
    tickets: Vec<Option<Ticket>>,
}

// Dropped by hand, since a derived `Drop` makes callers prove the drop of each field.
impl Drop for OpenFarm {
    fn drop(self) {
        let OpenFarm {
            alloc: _,
            farm: _,
            tickets: _,
        } = self;
    }
}

// The place of a ticket of the domain that isn't spent.
fn ticket_of(
    tickets: &mut [Option<Ticket>],
    domain: u8,
    ticket: usize,
) -> Result<&mut Option<Ticket>, Refusal> {
    match tickets.get_mut(ticket) {
        Some(held) if held.as_ref().is_some_and(|it| it.domain() == domain) => Ok(held),
        _ => Err(Refusal::NoSuch),
    }
}

impl OpenFarm {
    /// The farm of a plan as it is opened.
    pub fn open(alloc: Global, plan: &AcceptedPlan) -> Result<OpenFarm, NoMemory>
        ensures opening { IfOk result (λ farm. IsOpenedFarm (places_of plan.now) farm.farm) }
    {
        Ok(OpenFarm {
            alloc,
            farm: PlainFarm::open(alloc, plan)?,
            tickets: Vec::new(alloc),
        })
    }

    /// Adds the answers to a request.
    ///
    /// # Errors
    ///
    /// `Steps` if it needs more Steps than the meter allows; `Memory` if an allocation fails.
    #[tactic(auto, using(crate::proofs::Changed::answers_done))]
    pub fn answer<M: StepMeter>(
        &mut self,
        plan: &AcceptedPlan,
        request: &Request,
        answers: &mut AnswerList,
        meter: &mut M,
    ) -> Result<(), FarmStop>
        ensures asked { OnOk result (AnswersAsked (places_of plan.now) (asked_once request.now) self.old.farm self.new.farm answers.old answers.new) }
    {
        let mut text = TextWriter::new(self.alloc);
        match request {
            Request::Reopen => {
                *self = OpenFarm::open(self.alloc, plan)?;
                text.push("opened");
            }
            Request::Words => self.write_words(&mut text),
            Request::Events(domain, by, events) => {
                return Ok(self.answer_events(*domain, *by, events.as_slice(), answers)?);
            }
            Request::Domain(domain, request) => {
                match self.write_answer(*domain, *request, &mut text, meter) {
                    Ok(()) => {}
                    Err(AskFault::Refused(refusal)) => {
                        let written = write_refusal(text.as_mut_string(), refusal);
                        text.keep_failure(written);
                    }
                    Err(AskFault::Steps(end)) => return Err(FarmStop::Steps(end)),
                }
            }
        }
        Ok(answers.push(text.finish()?)?)
    }

    fn write_answer<M: StepMeter>(
        &mut self,
        domain: u8,
        request: DomainRequest,
        text: &mut TextWriter,
        meter: &mut M,
    ) -> Result<(), AskFault>
        ensures done { HasDone (asked_of_domain domain request) self.old.farm self.new.farm }
    {
        match request {
            DomainRequest::Quiet => self.write_quiet(domain, text),
            DomainRequest::Word(output) => self.write_word(domain, output, text),
            DomainRequest::Recorded => self.write_recorded(domain, text),
            DomainRequest::Restart => self.restart(domain, text),
            DomainRequest::Journal => self.write_journal(domain, text),
            DomainRequest::Checkout(node) => self.checkout(domain, node, text),
            DomainRequest::Burst(ticket, steps) => {
                self.burst(domain, ticket, steps, text, meter)
            }
            DomainRequest::Commit(ticket) => self.commit(domain, ticket, text),
            DomainRequest::Settle(quantum, rounds) => {
                self.write_settled(domain, quantum, rounds, text, meter)
            }
        }
    }

    fn has_domain(&self, domain: u8) -> bool
        ensures { IsTrue result ↔ (domain < length self.now.farm) }
    {
        usize::from(domain) < self.farm.domains()
    }

    fn answer_events(
        &mut self,
        domain: u8,
        by: By,
        events: &[Event],
        answers: &mut AnswerList,
    ) -> Result<(), NoMemory>
        ensures calls { OnOk result (AnswersCalls (event_calls domain by events.now) self.old.farm self.new.farm answers.old answers.new) }
    {
        // A run of calls and then of others is the run of all.
        runs_add_up();
        for event in events {
            answers.push(self.answer_event(domain, by, *event)?)?;
        }
        Ok(())
    }

    /// Adds the answers to an event that is asked `times` times. Steps for which the farm asks are done together, as far as
    /// they are recorded and the meter allows them.
    pub fn answer_repeated<M: StepMeter>(
        &mut self,
        plan: &AcceptedPlan,
        domain: u8,
        by: By,
        event: Event,
        times: u64,
        answers: &mut AnswerList,
        meter: &mut M,
    ) -> Result<(), FarmStop>
        ensures calls { OnOk result (AnswersTimes times domain by event self.old.farm self.new.farm answers.old answers.new) }
    {
        // A run of calls and then of others is the run of all.
        runs_add_up();
        let done = self.answer_burst(plan, domain, by, event, times, answers, meter)?;
        Ok(self.answer_each(domain, by, event, times - done, answers)?)
    }

    // Adds the answers to Steps that are done together, if the event is a Step for which the farm asks. Returns how many there
    // were, which is at most `most`.
    fn answer_burst<M: StepMeter>(
        &mut self,
        plan: &AcceptedPlan,
        domain: u8,
        by: By,
        event: Event,
        most: u64,
        answers: &mut AnswerList,
        meter: &mut M,
    ) -> Result<u64, FarmStop>
        ensures calls { IfOk result (λ done. AnswersTimes done domain by event self.old.farm self.new.farm answers.old answers.new) }
        ensures most { IfOk result (λ done. done ≤ most) }
    {
        let (By::Farm, Event::Step(node)) = (by, event) else {
            return Ok(0);
        };
        let most = most.min(self.room(plan, domain));
        // One Step alone is done quicker without a copy of the node.
        if most < 2 {
            return Ok(0);
        }
        let Some(DoneSteps { before, last }) = burst(
            self.alloc,
            &mut self.farm,
            domain,
            node,
            most,
            meter,
        )?
        else {
            return Ok(0);
        };
        answers.push_many(self.step_answer(Stepped::Ran)?, before)?;
        answers.push(self.step_answer(last)?)?;
        Ok(before + 1)
    }

    // How many events more the domain may record.
    fn room(&self, plan: &AcceptedPlan, domain: u8) -> u64 {
        if domain >= plan.domains() {
            return 0;
        }
        let recorded = self.farm.recorded_events(domain).unwrap_or(0);
        plan.part(domain).limit().saturating_sub(recorded)
    }

    // The answer to a Step.
    fn step_answer(&self, stepped: Stepped) -> Result<String, NoMemory>
        ensures text { IfOk result (λ text. string_bytes text ≡ stepped_text stepped) }
    {
        let mut answer = String::new(self.alloc);
        write_stepped(&mut answer, stepped)?;
        Ok(answer)
    }

    // Adds the answers to an event that is asked `times` times, one after another. A time that isn't recorded changes nothing,
    // so all later ones are answered alike.
    fn answer_each(
        &mut self,
        domain: u8,
        by: By,
        event: Event,
        times: u64,
        answers: &mut AnswerList,
    ) -> Result<(), NoMemory>
        ensures calls { OnOk result (AnswersTimes times domain by event self.old.farm self.new.farm answers.old answers.new) }
    {
        // A run of calls and then of others is the run of all.
        runs_add_up();
        for asked in 0..times {
            let before = self.farm.recorded_events(domain);
            let answer = self.answer_event(domain, by, event)?;
            if self.farm.recorded_events(domain) == before {
                return answers.push_many(answer, times - asked);
            }
            answers.push(answer)?;
        }
        Ok(())
    }

    fn answer_event(&mut self, domain: u8, by: By, event: Event) -> Result<String, NoMemory>
        ensures call { IfOk result (λ text. ShowsCall (domain, record { by = by; event = event }) self.old.farm self.new.farm (string_bytes text)) }
        ensures unrecorded { IfOk result (λ _. StayIfUnrecorded domain self.old.farm self.new.farm) }
    {
        // A domain is what its journal says, before and after.
        self.farm.whole_law();
        let mut answer = String::new(self.alloc);
        match self.farm.apply(self.alloc, domain, by, event) {
            Ok(reply) => write_reply(&mut answer, reply)?,
            Err(refusal) => write_refusal(&mut answer, refusal)?,
        }
        self.farm.whole_law();
        Ok(answer)
    }

    fn write_quiet(&mut self, domain: u8, text: &mut TextWriter) -> Result<(), AskFault>
        ensures farm { self.new.farm ≡ self.old.farm }
    {
        if !self.has_domain(domain) {
            return Err(AskFault::Refused(Refusal::NoSuch));
        }
        text.push(if self.farm.quiet(domain) {
            "true"
        } else {
            "false"
        });
        Ok(())
    }

    fn write_word(&mut self, domain: u8, output: u8, text: &mut TextWriter) -> Result<(), AskFault>
        ensures farm { self.new.farm ≡ self.old.farm }
    {
        let word = self
            .farm
            .domain_word(domain, output)
            .ok_or(Refusal::NoSuch)?;
        text.push_hexadecimal(word.bits);
        Ok(())
    }

    fn write_recorded(&self, domain: u8, text: &mut TextWriter) -> Result<(), AskFault> {
        text.push_decimal(self.farm.recorded_events(domain).ok_or(Refusal::NoSuch)?);
        Ok(())
    }

    #[tactic(auto, using(crate::proofs::Changed::restarts, crate::proofs::Changed::restarts_nowhere))]
    fn restart(&mut self, domain: u8, text: &mut TextWriter) -> Result<(), AskFault>
        ensures restarted { HasRestarted domain self.old.farm self.new.farm }
    {
        // The domains are those of a whole farm, before and after.
        self.farm.whole_law();
        if !self.has_domain(domain) {
            return Err(AskFault::Refused(Refusal::NoSuch));
        }
        self.farm.restart(domain);
        self.farm.whole_law();
        text.push("restarted");
        Ok(())
    }

    fn write_journal(&self, domain: u8, text: &mut TextWriter) -> Result<(), AskFault> {
        let journal = self.farm.journal(domain).ok_or(Refusal::NoSuch)?;
        for index in 0..journal.len() {
            if let Some(entry) = journal.get(index) {
                let written = write_entry(text.as_mut_string(), entry);
                text.keep_failure(written);
                text.push("\n");
            }
        }
        text.push("end");
        Ok(())
    }

    fn checkout(&mut self, domain: u8, node: u8, text: &mut TextWriter) -> Result<(), AskFault>
        ensures farm { self.new.farm ≡ self.old.farm }
    {
        let ticket = self.farm.checkout(self.alloc, domain, node)?;
        text.push("ticket ");
        text.push_decimal(self.tickets.len() as u64);
        match self.tickets.push(Some(ticket)) {
            Ok(()) => Ok(()),
            Err(_) => Err(AskFault::Refused(Refusal::NoMemory)),
        }
    }

    fn burst<M: StepMeter>(
        &mut self,
        domain: u8,
        ticket: usize,
        steps: u64,
        text: &mut TextWriter,
        meter: &mut M,
    ) -> Result<(), AskFault>
        ensures farm { self.new.farm ≡ self.old.farm }
    {
        let Some(ticket) = ticket_of(&mut self.tickets, domain, ticket)? else {
            return Err(AskFault::Refused(Refusal::NoSuch));
        };
        run_ticket(ticket, steps, meter)?;
        text.push_decimal(ticket.steps());
        Ok(())
    }

    #[tactic(auto, using(crate::proofs::Running::gone_nowhere, crate::proofs::Changed::gone_by_commit))]
    fn commit(&mut self, domain: u8, ticket: usize, text: &mut TextWriter) -> Result<(), AskFault>
        ensures on { HasGoneOn domain self.old.farm self.new.farm }
    {
        // Each call of the whole farm is one of a domain alone.
        each_call_is_private();
        // A domain is what its journal says, before and after.
        self.farm.whole_law();
        let Some(ticket) = ticket_of(&mut self.tickets, domain, ticket)?.take() else {
            return Err(AskFault::Refused(Refusal::NoSuch));
        };
        match self.farm.commit(self.alloc, domain, ticket)? {
            Committed::Done => {
                self.farm.whole_law();
                text.push("done");
            }
            Committed::Stale => text.push("stale"),
        }
        Ok(())
    }

    /// One event of a domain, by this asker.
    ///
    /// # Errors
    ///
    /// Those of the farm. Nothing has changed then.
    pub fn ask(&mut self, domain: u8, by: By, event: Event) -> Result<Reply, Refusal>
        ensures call { UnlessNoMemory result (HaveRun self.old.farm self.new.farm ((domain, record { by = by; event = event }) ∷ []) (result ∷ [])) }
        ensures unchanged { OnErr result (self.new.farm ≡ self.old.farm) }
    {
        self.farm.apply(self.alloc, domain, by, event)
    }

    fn write_settled<M: StepMeter>(
        &mut self,
        domain: u8,
        quantum: u64,
        rounds: u64,
        text: &mut TextWriter,
        meter: &mut M,
    ) -> Result<(), AskFault>
        ensures on { HasGoneOn domain self.old.farm self.new.farm }
    {
        let is_quiet = self.settle(domain, quantum, rounds, meter)?;
        text.push(if is_quiet { "quiet" } else { "busy" });
        Ok(())
    }

    /// Does rounds of a domain until it is quiet, at most `rounds`, and returns whether it is quiet. In each round every
    /// node does up to `quantum` Steps, and then the packets of all ports move, as in the rounds of a service's sessions.
    ///
    /// # Errors
    ///
    /// `Refused` with `NoSuch` if there is no such domain, and else with the first refusal of a Step or Move; `Steps` if more
    /// Steps are wanted than the meter allows. What was recorded before stays recorded.
    #[tactic(auto, using(crate::proofs::Running::gone_nowhere, crate::proofs::Running::gone_still, crate::proofs::Running::gone_further, crate::proofs::Running::gone_on_from))]
    pub fn settle<M: StepMeter>(
        &mut self,
        domain: u8,
        quantum: u64,
        rounds: u64,
        meter: &mut M,
    ) -> Result<bool, AskFault>
        ensures on { HasGoneOn domain self.old.farm self.new.farm }
    {
        // A run of calls and then of others is the run of all.
        runs_add_up();
        if !self.has_domain(domain) {
            return Err(AskFault::Refused(Refusal::NoSuch));
        }
        for _ in 0..rounds {
            if self.is_quiet(domain) {
                break;
            }
            self.round(domain, quantum, meter)?;
        }
        Ok(self.is_quiet(domain))
    }

    #[tactic(auto, using(crate::proofs::Running::gone_further))]
    fn round<M: StepMeter>(
        &mut self,
        domain: u8,
        quantum: u64,
        meter: &mut M,
    ) -> Result<(), AskFault>
        ensures on { HasGoneOn domain self.old.farm self.new.farm }
    {
        // A run of calls and then of others is the run of all.
        runs_add_up();
        self.step_nodes(domain, quantum, meter)?;
        Ok(self.move_packets(domain)?)
    }

    fn is_quiet(&mut self, domain: u8) -> bool
        ensures farm { self.new.farm ≡ self.old.farm }
    {
        self.has_domain(domain) && self.farm.quiet(domain)
    }

    // Does up to `quantum` Steps of each node of a domain.
    #[tactic(auto, using(crate::proofs::Running::gone_nowhere, crate::proofs::Running::gone_further, crate::proofs::Running::gone_by_steps))]
    fn step_nodes<M: StepMeter>(
        &mut self,
        domain: u8,
        quantum: u64,
        meter: &mut M,
    ) -> Result<(), AskFault>
        ensures on { HasGoneOn domain self.old.farm self.new.farm }
    {
        // A run of calls and then of others is the run of all.
        runs_add_up();
        for node in 0..=u8::MAX {
            match try_burst(self.alloc, &mut self.farm, domain, node, quantum, meter) {
                Ok(_) => {}
                Err(AskFault::Refused(Refusal::NoSuch)) => break,
                Err(fault) => return Err(fault),
            }
        }
        Ok(())
    }

    // A Move of each port of a domain.
    #[tactic(auto, using(crate::proofs::Running::gone_nowhere, crate::proofs::Running::gone_further, crate::proofs::Running::gone_by_call))]
    fn move_packets(&mut self, domain: u8) -> Result<(), Refusal>
        ensures on { HasGoneOn domain self.old.farm self.new.farm }
    {
        // A run of calls and then of others is the run of all.
        runs_add_up();
        for port in 0..PORTS {
            match self.ask(domain, By::Farm, Event::Move(port)) {
                Ok(_) => {}
                Err(Refusal::NoSuch) => break,
                Err(refusal) => return Err(refusal),
            }
        }
        Ok(())
    }

    /// What a domain answered since it was opened or restarted, entry by entry; nothing if there is no such domain.
    #[tactic(auto, using(crate::proofs::Entries::one_more_entry, crate::proofs::Entries::all_entries))]
    pub fn entries(&self, domain: u8) -> Result<Vec<Entry>, NoMemory>
        ensures { IfOk result (λ entries. entries.items ≡ unwrap_or (journal_there (slice_get self.now.farm domain)) []) }
    {
        let mut entries = Vec::new(self.alloc);
        let Some(journal) = self.farm.journal(domain) else {
            return Ok(entries);
        };
        for index in 0..journal.len() {
            if let Some(entry) = journal.get(index) {
                entries.push(entry)?;
            }
        }
        Ok(entries)
    }

    // The words of the physical outputs.
    fn words(&mut self) -> [Word; PORTS as usize]
        ensures farm { self.new.farm ≡ self.old.farm }
    {
        let mut words = [Word::UNUSED; PORTS as usize];
        for output in 0..PORTS {
            words[usize::from(output)] = self.farm.word(output);
        }
        words
    }

    // Each physical output whose word isn't 0, with its word.
    fn write_words(&mut self, text: &mut TextWriter)
        ensures farm { self.new.farm ≡ self.old.farm }
    {
        for (output, word) in (0..PORTS).zip(self.words().iter()) {
            if *word != Word::UNUSED {
                if !text.is_empty() {
                    text.push(" ");
                }
                text.push_decimal(u64::from(output));
                text.push(":");
                text.push_hexadecimal(word.bits);
            }
        }
        if text.is_empty() {
            text.push("-");
        }
    }
}
