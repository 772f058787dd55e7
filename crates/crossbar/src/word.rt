//! The word that a switch keeps of an output.
ghost use Rattle.std.specs.Prelude.{◌≡◌, ◌<◌, ◌^◌, Option};
ghost use Rattle.crossbar.specs.Word.{connection_of, changes_of, low_byte, word_after, IsAtLeastAsNew};
ghost use Rattle.crossbar.specs.Fits.{InputFits};

/// What drives an output, and whether the output is ready.
#[derive(Clone, Copy)]
pub struct Connection {
    /// The physical input, below 32.
    pub input: u8,
    /// Whether packets pass (configuration message 3). The data sheet doesn't say what ready
    /// belongs to: one bit for each output is this project's choice.
    pub ready: bool,
}

/// What a switch keeps of an output, in 64 bits: bits 0 to 4 the physical input, bit 6 ready, bit 7
/// connected, bits 8 to 63 how often bits 0 to 7 have changed. Bit 5 is 0, and so are bits 0 to 7 of
/// a disconnected output.
#[derive(Clone, Copy, PartialEq, Eq)]
pub struct Word {
    /// The bits as they lie in memory.
    pub bits: u64,
}

/// The change count that stays.
const MOST_CHANGES: u64 = (1 << 56) - 1;

impl Word {
    /// The word of an output that has never been connected.
    pub const UNUSED: Word = Word { bits: 0 };

    /// What drives the output, or `None` where nothing does.
    pub fn connection(self) -> Option<Connection>
        ensures { result ≡ connection_of self }
    {
        if self.bits / 128 % 2 == 1 {
            Some(Connection {
                input: (self.bits % 32) as u8,
                ready: self.bits / 64 % 2 == 1,
            })
        } else {
            None
        }
    }

    /// How often bits 0 to 7 have changed. The count stays at 2^56 - 1.
    pub fn changes(self) -> u64
        ensures { result ≡ changes_of self }
    {
        self.bits / 256
    }

    /// The word once this connection is set: the count rises by one where bits 0 to 7 change, and
    /// else the word stays.
    pub fn after(self, connection: Option<Connection>) -> Word
        requires { InputFits connection }
        ensures { result ≡ word_after self connection }
    {
        let low = low_byte_of(connection);
        if self.bits % 256 == low {
            self
        } else {
            Word {
                bits: 256 * (self.changes() + 1).min(MOST_CHANGES) + low,
            }
        }
    }
}

/// Bits 0 to 7 of a word.
fn low_byte_of(connection: Option<Connection>) -> u64
    requires { InputFits connection }
    ensures value { result ≡ low_byte connection }
    ensures fits { result < 256 }
{
    match connection {
        Some(Connection { input, ready: true }) => 192 + input as u64,
        Some(
            Connection {
                input,
                ready: false,
            },
        ) => 128 + input as u64,
        None => 0,
    }
}
