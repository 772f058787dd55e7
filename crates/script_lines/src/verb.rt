//! The verbs of script lines.
ghost use Rattle.std.specs.Prelude.{◌≡◌, ◌≢◌, MatchOption, string_bytes};
ghost use Rattle.script_lines.specs.declared.verb.Verb.{Verb as SpecVerb};
ghost use Rattle.script_lines.specs.Verbs.{name_of};

/// What a line asks for, without its words.
#[derive(Clone, Copy)]
pub enum Verb {
    /// Configuration bytes for the switch of the user's domain.
    Config,
    /// Bytes for a host.
    Write,
    /// Code for the node that a host is joined to.
    Boot,
    /// A word for the memory of that node.
    Poke,
    /// The word at an address of that node.
    Peek,
    /// All bytes that have come to a host.
    Collect,
    /// Reset of a node.
    Reset,
    /// A look at a node.
    Look,
}

impl Verb {
    /// The word that stands for it in a line.
    pub fn name(self) -> &'static str
        ensures { result.now ≡ name_of self }
    {
        match self {
            Verb::Config => "config",
            Verb::Write => "write",
            Verb::Boot => "boot",
            Verb::Poke => "poke",
            Verb::Peek => "peek",
            Verb::Collect => "collect",
            Verb::Reset => "reset",
            Verb::Look => "look",
        }
    }

    /// The verb whose name a word is.
    pub(crate) fn of(word: &[u8]) -> Option<Verb>
        ensures { MatchOption result ((v : SpecVerb) → word.now ≢ name_of v) (λ v. word.now ≡ name_of v) }
    {
        match word {
            b"config" => Some(Verb::Config),
            b"write" => Some(Verb::Write),
            b"boot" => Some(Verb::Boot),
            b"poke" => Some(Verb::Poke),
            b"peek" => Some(Verb::Peek),
            b"collect" => Some(Verb::Collect),
            b"reset" => Some(Verb::Reset),
            b"look" => Some(Verb::Look),
            _ => None,
        }
    }
}
