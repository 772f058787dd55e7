//! The verbs that a script hasn't.
ghost use Rattle.std.specs.Prelude.{◌≡◌, ◌≢◌, MatchOption};
ghost use Rattle.live_lines.specs.declared.verbs.DomainVerb.{DomainVerb as SpecDomainVerb};
ghost use Rattle.live_lines.specs.declared.verbs.OperatorVerb.{OperatorVerb as SpecOperatorVerb};
ghost use Rattle.live_lines.specs.LiveVerbs.{domain_verb_name, operator_verb_name};

/// What a user asks of their domain as a whole.
#[derive(Clone, Copy)]
pub enum DomainVerb {
    /// Whether it is at rest.
    Rest,
    /// That it begins again.
    Restart,
    /// Why its nodes do no more than they do.
    Why,
}

impl DomainVerb {
    /// The verb whose name a word is.
    pub fn of(word: &[u8]) -> Option<DomainVerb>
        ensures { MatchOption result ((v : SpecDomainVerb) → word.now ≢ domain_verb_name v) (λ v. word.now ≡ domain_verb_name v) }
    {
        if word == b"rest".as_slice() {
            Some(DomainVerb::Rest)
        } else if word == b"restart".as_slice() {
            Some(DomainVerb::Restart)
        } else if word == b"why".as_slice() {
            Some(DomainVerb::Why)
        } else {
            None
        }
    }
}

/// What the operator asks.
#[derive(Clone, Copy)]
pub enum OperatorVerb {
    /// The words of all outputs.
    Words,
    /// What each user has done.
    Users,
    /// How much memory the farm takes.
    Memory,
    /// That the domain of a user begins again.
    Restart,
    /// The end.
    Stop,
}

impl OperatorVerb {
    /// The verb whose name a word is.
    pub fn of(word: &[u8]) -> Option<OperatorVerb>
        ensures { MatchOption result ((v : SpecOperatorVerb) → word.now ≢ operator_verb_name v) (λ v. word.now ≡ operator_verb_name v) }
    {
        if word == b"!words".as_slice() {
            Some(OperatorVerb::Words)
        } else if word == b"!users".as_slice() {
            Some(OperatorVerb::Users)
        } else if word == b"!memory".as_slice() {
            Some(OperatorVerb::Memory)
        } else if word == b"!restart".as_slice() {
            Some(OperatorVerb::Restart)
        } else if word == b"!stop".as_slice() {
            Some(OperatorVerb::Stop)
        } else {
            None
        }
    }
}
