//! Laws of the whole farm, which is one machine in physical numbers.

ghost use Rattle.whole_farm.specs.Domains.{OpeningIsMadeOfOpenings, EachCallIsPrivate, NoDomainNoChange, EachOutputIsOfItsDomain};
ghost use Rattle.whole_farm.specs.Laws.{EachDomainIsPrivate, EqualDomainsAreAnsweredAlike, EachIsToldPrivately, RunsAddUp, NumberedDomainsAreSeparate};
ghost use Rattle.whole_farm.specs.Laws.{EachDomainOfAPlanIsPrivate, EachOfAPlanIsToldPrivately, EqualDomainsOfPlansAreAnsweredAlike};
ghost use Rattle.whole_farm.specs.Merges.{EachMergeIsARun, EachMergeOfDomainsIsARun};
ghost use Rattle.whole_farm.specs.Words.{EachWordSaysItsOutput, EachWholeIsAsWordsSay, EachMergeEndsAsWordsSay, FittingDomainsHaveItsPlaces};

use crossbar::laws::switches_say_their_words;

/// The places of a plan whose domains are numbered and share no port are separate.
pub fn numbered_domains_are_separate()
    ensures law { NumberedDomainsAreSeparate }
{}

/// Under a separate plan the whole farm is made of its domains' states, at its opening and after every call: a call of a
/// domain is answered as by the domain alone, which becomes what it would become alone, and all others stay. A call of a
/// domain that isn't in the plan changes nothing.
pub fn each_call_is_private()
    ensures opening { OpeningIsMadeOfOpenings }
    ensures call { EachCallIsPrivate }
    ensures elsewhere { NoDomainNoChange }
{
    // What a private switch has is what its words say.
    switches_say_their_words();
}

/// A physical output of the whole farm is driven and ready exactly as its domain, alone, says of its virtual number.
pub fn each_output_is_of_its_domain()
    ensures law { EachOutputIsOfItsDomain }
{
    // What a private switch has is what its words say.
    switches_say_their_words();
}

/// Later calls go on from the farm that the earlier ones left.
pub fn runs_add_up()
    ensures law { RunsAddUp }
{}

/// Under a separate plan, for every list of calls of all domains, each domain is answered as in a farm that holds it
/// alone and that takes its own calls in the same order, and it ends in the state in which that farm ends. The list of
/// all callers' answers has exactly these answers at the domain's places. No connection of its outputs comes from
/// outside.
pub fn each_domain_is_private()
    ensures private { EachDomainIsPrivate }
    ensures told { EachIsToldPrivately }
{
    // What a private switch has is what its words say.
    switches_say_their_words();
}

/// Two domains with equal parts and equal calls of their own are answered alike, each in its own farm, no matter
/// where their ports lie, who their neighbours are and what these call.
pub fn equal_domains_are_answered_alike()
    ensures law { EqualDomainsAreAnsweredAlike }
{
    // What a private switch has is what its words say.
    switches_say_their_words();
}

/// The whole farm, from its opening, answers the calls of every merge of its domains' journals by the stored replies,
/// and ends made of the states to which the journals lead; so for the domains themselves, each with its own journal.
pub fn each_merge_is_a_run()
    ensures journals { EachMergeIsARun }
    ensures domains { EachMergeOfDomainsIsARun }
{
    // What a private switch has is what its words say.
    switches_say_their_words();
}

/// Under every plan that breaks none of the checker's rules each domain is answered as in a farm that holds it alone, and
/// two farms that agree on a domain answer it alike.
pub fn each_domain_of_a_plan_is_private()
    ensures private { EachDomainOfAPlanIsPrivate }
    ensures told { EachOfAPlanIsToldPrivately }
    ensures alike { EqualDomainsOfPlansAreAnsweredAlike }
{
    // What a private switch has is what its words say.
    switches_say_their_words();
    // The domains of a plan without a fault share no port.
    plan_rules::laws::faultless_plans_are_separate();
}

/// Each output of the whole farm is driven and ready as its domain's switch word says, in every whole farm that is made of
/// the domains, and so at the end of every merge of their journals. Of one domain's words that holds if they are a row.
pub fn each_word_is_of_its_output()
    ensures word { EachWordSaysItsOutput }
    ensures whole { EachWholeIsAsWordsSay }
    ensures merge { EachMergeEndsAsWordsSay }
{
    // What a private switch has is what its words say.
    switches_say_their_words();
}

/// Domains that fit a plan, each at its number, have its places.
pub fn fitting_domains_have_its_places()
    ensures law { FittingDomainsHaveItsPlaces }
{}
