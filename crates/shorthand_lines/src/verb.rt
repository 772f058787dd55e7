//! The shorthand verbs.
ghost use Rattle.std.specs.Prelude.{◌≡◌, ◌≢◌, MatchOption};
ghost use Rattle.shorthand_lines.specs.declared.verb.ShorthandVerb.{ShorthandVerb as SpecShorthandVerb};
ghost use Rattle.shorthand_lines.specs.ShorthandVerbs.{shorthand_name};

/// The name of the verb that loads a program.
pub const LOAD: &str = "load";

/// The names of all shorthand verbs: `load`, and those of `ShorthandVerb`.
pub const SHORTHAND_NAMES: [&str; 4] = ["load", "join", "send", "text"];

/// A shorthand verb, and asks what a plain line asks.
#[derive(Clone, Copy)]
pub enum ShorthandVerb {
    /// Two ports are joined in both directions and made ready.
    Join,
    /// A host gets the bytes of a text.
    Send,
    /// All bytes that have come to a host are taken.
    Text,
}

impl ShorthandVerb {
    /// The word that stands for it in a line.
    pub fn name(self) -> &'static str
        ensures { result.now ≡ shorthand_name self }
    {
        match self {
            ShorthandVerb::Join => "join",
            ShorthandVerb::Send => "send",
            ShorthandVerb::Text => "text",
        }
    }

    /// The verb whose name a word is.
    pub fn of(word: &[u8]) -> Option<ShorthandVerb>
        ensures { MatchOption result ((v : SpecShorthandVerb) → word.now ≢ shorthand_name v) (λ v. word.now ≡ shorthand_name v) }
    {
        match word {
            b"join" => Some(ShorthandVerb::Join),
            b"send" => Some(ShorthandVerb::Send),
            b"text" => Some(ShorthandVerb::Text),
            _ => None,
        }
    }
}
