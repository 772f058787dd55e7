//! All domains of a plan, on one thread.
ghost use Rattle.std.specs.Prelude.{◌≡◌, ◌≢◌, ◌<◌, ◌↔◌, [], length, slice_get, option_map, All, IfOk, IfSome, IsTrue, OnErr, None, Some, Ok, Err};
ghost use Rattle.std.specs.Option.{option_copied};
ghost use Rattle.crossbar.specs.Word.{IsProper};
ghost use Rattle.plan_rules.specs.Part.{part_of};
ghost use Rattle.domain_core.specs.declared.domain.Committed.TheVariants.{Done};
ghost use Rattle.domain_core.specs.declared.event.Refusal.TheVariants.{NoSuch, JournalFull};
ghost use Rattle.domain_core.specs.Domain.{state_of, IsMeant, IsQuiet, UnlessNoMemory};
ghost use Rattle.domain_core.specs.Ticket.{fresh_ticket};
ghost use Rattle.domain_core.specs.MachineValue.{machine_of};
ghost use Rattle.domain_core.specs.PrivateFarm.{opening};
ghost use Rattle.whole_farm.specs.Places.{place_of, places_of, AreSeparatePlaces};
ghost use Rattle.whole_farm.specs.Whole.{whole_opening};
ghost use Rattle.whole_farm.specs.Domains.{IsFree, IsMadeOf};
ghost use Rattle.whole_farm.specs.Merges.{own_place};
ghost use Rattle.whole_farm.specs.Values.{all_places, all_states};
ghost use Rattle.whole_farm.specs.Words.{HasRow};
ghost use Rattle.farm_core.specs.PlainFarm.{openings, IsUnused, HaveAWhole, OthersStay, IsCalledAt, IsCallOfEachWhole, node_there, IsCommittedAt, word_there, journal_there, recorded_there, HasOutput, IsWordOfOwner, SaysEachWhole, IsRestartedAt, FitsAt};

use crossbar::laws::switches_say_their_words;
use crossbar::{PlainOutputs, Word};
use domain_core::{By, Committed, Domain, Event, Journal, NoMemory, Refusal, Reply, Ticket};
use plan_rules::AcceptedPlan;
use std::alloc::Global;
use std::marker::Model;
use whole_farm::laws::{
    each_call_is_private, each_merge_is_a_run, each_word_is_of_its_output,
    numbered_domains_are_separate,
};

/// The domains of a plan, each over words of its own. Contracts see them in the order of the plan, as
/// their numbers go. The farm keeps no plan: each domain knows its part and its physical ports, and
/// no two have a port in common.
#[derive(Drop)]
pub struct PlainFarm {
    domains: Vec<Domain<PlainOutputs>>,
}

impl Model for PlainFarm {
    ghost use Rattle.std.specs.Prelude.{List};
    ghost use Rattle.domain_core.specs.Domain.{DomainValue};
    ghost use Rattle.whole_farm.specs.Places.{AreSeparatePlaces};
    ghost use Rattle.whole_farm.specs.Values.{all_places};

    ghost Value = { List DomainValue };

    ghost view = { λ f. f.domains.items };

    ghost invariant = { λ f. AreSeparatePlaces (all_places f.domains.items) };
}

// A domain of a plan as it is opened.
fn open_domain(
    alloc: Global,
    plan: &AcceptedPlan,
    number: u8,
) -> Result<Domain<PlainOutputs>, NoMemory>
    requires { number < length plan.now }
    ensures place { IfOk result (λ d. IfSome (slice_get plan.now number) (λ of. own_place d ≡ place_of of)) }
    ensures state { IfOk result (λ d. IfSome (slice_get plan.now number) (λ of. state_of d ≡ opening (part_of of))) }
    ensures journal { IfOk result (λ d. d.journal ≡ []) }
    ensures words { IfOk result IsUnused }
{
    // The domains of an accepted plan share no port.
    plan.separate_law();
    let part = plan.part(number).copy(alloc)?;
    Domain::open(alloc, part, PlainOutputs::new(plan.ranges(number)))
}

// The word of a domain's virtual output, if it has that output.
fn word_of(domain: &mut Domain<PlainOutputs>, output: u8) -> Option<Word>
    ensures word { result ≡ slice_get domain.old.machine.switch.words output }
    ensures proper { IfSome result IsProper }
    ensures unchanged { domain.new ≡ domain.old }
{
    // A domain is what its journal says.
    domain.meant_law();
    if output < domain.part().count() {
        Some(domain.word(output))
    } else {
        None
    }
}

// All domains of a plan as they are opened, in its order.
fn open_domains(alloc: Global, plan: &AcceptedPlan) -> Result<Vec<Domain<PlainOutputs>>, NoMemory>
    ensures places { IfOk result (λ domains. all_places domains.items ≡ places_of plan.now) }
    ensures states { IfOk result (λ domains. all_states domains.items ≡ openings (places_of plan.now)) }
    ensures journals { IfOk result (λ domains. All (λ d. d.journal ≡ []) domains.items) }
    ensures words { IfOk result (λ domains. All IsUnused domains.items) }
{
    let mut domains = Vec::new(alloc);
    for number in 0..plan.domains() {
        domains.push(open_domain(alloc, plan, number)?)?;
    }
    Ok(domains)
}

impl PlainFarm {
    /// The farm of a plan as it is opened: all outputs disconnected, with words of 0, no message begun, nodes
    /// and hosts fresh, all journals empty.
    ///
    /// # Errors
    ///
    /// `NoMemory` where parts, memories or queues can't be allocated.
    pub fn open(alloc: Global, plan: &AcceptedPlan) -> Result<PlainFarm, NoMemory>
        ensures whole { IfOk result (λ farm. IsMadeOf (places_of plan.now) (whole_opening (places_of plan.now)) (all_states farm)) }
        ensures places { IfOk result (λ farm. all_places farm ≡ places_of plan.now) }
        ensures states { IfOk result (λ farm. all_states farm ≡ openings (places_of plan.now)) }
        ensures journals { IfOk result (λ farm. All (λ d. d.journal ≡ []) farm) }
        ensures words { IfOk result (λ farm. All IsUnused farm) }
    {
        // The whole farm is opened as its domains are.
        each_call_is_private();
        // Domains that are numbered and share no port have separate places.
        numbered_domains_are_separate();
        // The domains of an accepted plan share no port.
        plan.separate_law();
        let domains = open_domains(alloc, plan)?;
        Ok(PlainFarm { domains })
    }

    /// There is a whole farm that is made of the domains: some merge of their journals leads it from its
    /// opening, by the stored replies, to what they are. Their ports are separate, each domain is its
    /// journal, and the words of each are a row of its ports.
    ///
    /// The call changes nothing: its contract is the law.
    pub fn whole_law(&self)
        ensures separate { AreSeparatePlaces (all_places self.now) }
        ensures meant { All IsMeant self.now }
        ensures rows { All HasRow self.now }
        ensures whole { HaveAWhole self.now }
    {
        // Every merge of the domains' journals is a run of the whole farm.
        each_merge_is_a_run();
        for domain in &self.domains {
            // A domain is what its journal says.
            domain.meant_law();
        }
    }

    /// How many domains there are. They are numbered from 0.
    pub fn domains(&self) -> usize
        ensures { result ≡ length self.now }
    {
        self.domains.len()
    }

    /// Answers an event of one domain as a farm does that holds the domain alone. In the whole farm,
    /// which is one machine in physical numbers, it is one call, with the answer in the domain's
    /// virtual numbers; all other domains stay.
    ///
    /// # Errors
    ///
    /// `NoSuch` where there is no such domain, and else those of [`Domain::apply`]. After a refusal
    /// nothing has changed.
    pub fn apply(
        &mut self,
        alloc: Global,
        domain: u8,
        by: By,
        event: Event,
    ) -> Result<Reply, Refusal>
        ensures own { IsCalledAt (record { by = by; event = event }) result (slice_get self.old domain) (slice_get self.new domain) }
        ensures others { OthersStay domain self.old self.new }
        ensures whole { UnlessNoMemory result (IsCallOfEachWhole domain (record { by = by; event = event }) result self.old self.new) }
        ensures places { all_places self.new ≡ all_places self.old }
        ensures err { OnErr result (self.new ≡ self.old) }
    {
        self.answer(alloc, domain, by, event)
    }

    // The one place where an event changes a domain.
    fn answer(&mut self, alloc: Global, domain: u8, by: By, event: Event) -> Result<Reply, Refusal>
        ensures own { IsCalledAt (record { by = by; event = event }) result (slice_get self.old domain) (slice_get self.new domain) }
        ensures others { OthersStay domain self.old self.new }
        ensures whole { UnlessNoMemory result (IsCallOfEachWhole domain (record { by = by; event = event }) result self.old self.new) }
        ensures places { all_places self.new ≡ all_places self.old }
        ensures err { OnErr result (self.new ≡ self.old) }
    {
        // In the whole farm it is one call, and all other domains stay.
        each_call_is_private();
        let Some(domain) = self.domains.get_mut(usize::from(domain)) else {
            return Err(Refusal::NoSuch);
        };
        domain.apply(alloc, by, event)
    }

    /// A ticket of a node: a copy of it, with no Steps yet and the domain's number in it.
    ///
    /// # Errors
    ///
    /// `NoSuch` where there is no such domain or node, and else `NoMemory` where it can't be copied.
    pub fn checkout(&self, alloc: Global, domain: u8, node: u8) -> Result<Ticket, Refusal>
        ensures no_such { (result ≡ Err NoSuch) ↔ (node_there (slice_get self.now domain) node ≡ None) }
        ensures ticket { IfOk result (λ t. (node_there (slice_get self.now domain) node ≡ Some t.start) × (t ≡ fresh_ticket domain node t.start)) }
        ensures full { result ≢ Err JournalFull }
    {
        let Some(home) = self.domains.get(usize::from(domain)) else {
            return Err(Refusal::NoSuch);
        };
        home.checkout(alloc, domain, node)
    }

    /// Commits a ticket to a domain, if the home node is still the ticket's start, and
    /// records its Steps, for which the farm asked. The ticket is spent in each case, and all other
    /// domains stay.
    ///
    /// # Errors
    ///
    /// `NoSuch` where there is no such domain, and else those of [`Domain::commit`]. After a refusal,
    /// and where the ticket is stale, nothing has changed.
    pub fn commit(
        &mut self,
        alloc: Global,
        domain: u8,
        ticket: Ticket,
    ) -> Result<Committed, Refusal>
        ensures own { IsCommittedAt ticket result (slice_get self.old domain) (slice_get self.new domain) }
        ensures others { OthersStay domain self.old self.new }
        ensures places { all_places self.new ≡ all_places self.old }
        ensures unchanged { result ≢ Ok Done → self.new ≡ self.old }
    {
        let Some(home) = self.domains.get_mut(usize::from(domain)) else {
            return Err(Refusal::NoSuch);
        };
        home.commit(alloc, ticket)
    }

    /// What a domain answered, in order; `None` where there is no such domain.
    pub fn journal(&self, domain: u8) -> Option<&Journal>
        ensures { option_map (λ j. j.entries) (option_copied result) ≡ journal_there (slice_get self.now domain) }
    {
        match self.domains.get(usize::from(domain)) {
            Some(domain) => Some(domain.journal()),
            None => None,
        }
    }

    /// How many events of a domain are recorded; `None` where there is no such domain.
    pub fn recorded_events(&self, domain: u8) -> Option<u64>
        ensures { result ≡ recorded_there (slice_get self.now domain) }
    {
        match self.domains.get(usize::from(domain)) {
            Some(domain) => Some(domain.recorded_events()),
            None => None,
        }
    }

    /// The switch word of a virtual output of a domain; `None` where there is no such domain, or it
    /// has no such output. It is proper, as that of `word`. Nothing changes.
    pub fn domain_word(&mut self, domain: u8, output: u8) -> Option<Word>
        ensures word { result ≡ word_there (slice_get self.old domain) output }
        ensures proper { IfSome result IsProper }
        ensures unchanged { self.new ≡ self.old }
    {
        match self.domains.get_mut(usize::from(domain)) {
            Some(domain) => word_of(domain, output),
            None => None,
        }
    }

    /// The switch word of a physical output, below 32: that of the domain whose output it is, and 0 if it is no
    /// domain's. It is proper: bits 0 to 7 are exactly those of what it says. In the whole farm the output is driven
    /// and ready as the word says. Nothing changes.
    pub fn word(&mut self, output: u8) -> Word
        ensures proper { IsProper result }
        ensures owner { IsWordOfOwner self.old output result }
        ensures free { IsFree (all_places self.old) output → result ≡ record { bits = 0 } }
        ensures whole { SaysEachWhole self.old output result }
        ensures unchanged { self.new ≡ self.old }
    {
        // An output of the whole farm is as its domain's word says.
        each_word_is_of_its_output();
        let Some((domain, number)) = self.owner(output) else {
            return Word::UNUSED;
        };
        self.domains[domain].word(number)
    }

    // The index of the domain whose output this is, and the output's number there.
    fn owner(&self, output: u8) -> Option<(usize, u8)>
        ensures owned { IfSome result (λ owner. HasOutput (slice_get self.now owner.0) owner.1 output) }
        ensures free { result ≡ None → IsFree (all_places self.now) output }
    {
        // What a private switch has is what its words say.
        switches_say_their_words();
        for (index, domain) in self.domains.iter().enumerate() {
            if let Some(number) = domain.virtual_of(output) {
                return Some((index, number));
            }
        }
        None
    }

    /// Whether no Step and no Move of a domain that is there would be recorded, the limit aside.
    /// Nothing changes.
    pub fn quiet(&mut self, domain: u8) -> bool
        requires { domain < length self.old }
        ensures quiet { IfSome (slice_get self.old domain) (λ d. IsTrue result ↔ IsQuiet d.machine.part (machine_of d.machine)) }
        ensures unchanged { self.new ≡ self.old }
    {
        self.domains[usize::from(domain)].quiet()
    }

    /// Makes a domain that is there as it was opened, with an empty journal. Its change counts go on,
    /// and all other domains stay.
    pub fn restart(&mut self, domain: u8)
        requires { domain < length self.old }
        ensures own { IsRestartedAt (slice_get self.old domain) (slice_get self.new domain) }
        ensures others { OthersStay domain self.old self.new }
        ensures places { all_places self.new ≡ all_places self.old }
    {
        self.domains[usize::from(domain)].restart();
    }

    /// Whether the domain of this number has the part and the physical ports of that of a plan. It
    /// hasn't where the farm or the plan has no such domain.
    pub fn fits(&self, plan: &AcceptedPlan, number: u8) -> bool
        ensures { IsTrue result ↔ FitsAt plan.now number (slice_get self.now number) }
    {
        let Some(domain) = self.domains.get(usize::from(number)) else {
            return false;
        };
        domain.fits(plan, number)
    }

    /// The domains at their end, in the order of the plan.
    pub fn into_domains(self) -> Vec<Domain<PlainOutputs>>
        ensures { result.items ≡ self }
    {
        let PlainFarm { domains } = self;
        domains
    }
}
