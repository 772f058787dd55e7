//! What a script line asks.
ghost use Rattle.std.specs.Prelude.{◌≡◌};
ghost use Rattle.script_lines.specs.Verbs.{verb_of, target_asked};

use crate::verb::Verb;

/// What a script line asks.
pub enum Command {
    /// Configuration bytes for the switch of the user's domain.
    Config(Vec<u8>),
    /// Bytes for a host.
    Write { host: u8, bytes: Vec<u8> },
    /// Code for the node that a host is joined to.
    Boot { host: u8, code: Vec<u8> },
    /// A word for the memory of that node.
    Poke { host: u8, address: u32, word: u32 },
    /// The word at an address of that node.
    Peek { host: u8, address: u32 },
    /// All bytes that have come to a host.
    Collect { host: u8 },
    /// Reset of a node.
    Reset { node: u8 },
    /// A look at a node.
    Look { node: u8 },
}

// Dropped by hand, since a derived `Drop` makes callers prove the drop of each field.
impl Drop for Command {
    fn drop(self) {
        match self {
            Command::Config(_)
            | Command::Write { host: _, bytes: _ }
            | Command::Boot { host: _, code: _ }
            | Command::Poke {
                host: _,
                address: _,
                word: _,
            }
            | Command::Peek {
                host: _,
                address: _,
            }
            | Command::Collect { host: _ }
            | Command::Reset { node: _ }
            | Command::Look { node: _ } => {}
        }
    }
}

impl Command {
    /// The verb of its line.
    pub fn verb(&self) -> Verb
        ensures { result ≡ verb_of self.now }
    {
        match self {
            Command::Config(_) => Verb::Config,
            Command::Write { .. } => Verb::Write,
            Command::Boot { .. } => Verb::Boot,
            Command::Poke { .. } => Verb::Poke,
            Command::Peek { .. } => Verb::Peek,
            Command::Collect { .. } => Verb::Collect,
            Command::Reset { .. } => Verb::Reset,
            Command::Look { .. } => Verb::Look,
        }
    }

    /// The number of the host or node that it asks, if it asks one.
    pub fn target(&self) -> Option<u8>
        ensures { result ≡ target_asked self.now }
    {
        match self {
            Command::Config(_) => None,
            Command::Write { host, .. }
            | Command::Boot { host, .. }
            | Command::Poke { host, .. }
            | Command::Peek { host, .. }
            | Command::Collect { host } => Some(*host),
            Command::Reset { node } | Command::Look { node } => Some(*node),
        }
    }
}
