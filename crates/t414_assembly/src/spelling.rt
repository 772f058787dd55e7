//! The bytes of one instruction.
ghost use Rattle.std.specs.Prelude.{◌≤◌};

/// Up to eight bytes, which need no allocation.
#[derive(Clone, Copy)]
pub struct Spelling {
    bytes: [u8; 8],
    count: u8,
    ghost within: { count ≤ 8 },
}

impl Spelling {
    ghost use Rattle.std.specs.Prelude.{◌≡◌, ◌<◌, ◌++◌, ◌∷◌, [], length};
    ghost use Rattle.t414_assembly.specs.Spelled.{spelled};

    /// No bytes.
    pub fn empty() -> Spelling
        ensures { spelled result ≡ [] }
    {
        Spelling {
            bytes: [0; 8],
            count: 0,
        }
    }

    /// The bytes, the first one first.
    pub fn as_slice(&self) -> &[u8]
        ensures bytes { result.now ≡ spelled self.now }
        ensures most { length result.now ≤ 8 }
    {
        &self.bytes[..usize::from(self.count)]
    }

    /// How many bytes there are, at most 8.
    pub fn count(&self) -> u8
        ensures count { result ≡ length (spelled self.now) }
        ensures most { result ≤ 8 }
    {
        self.count
    }

    /// Appends a byte to the others, which are fewer than 8.
    pub fn push(&mut self, byte: u8)
        requires { length (spelled self.old) < 8 }
        ensures { spelled self.new ≡ spelled self.old ++ byte ∷ [] }
    {
        self.bytes[usize::from(self.count)] = byte;
        self.count += 1;
    }
}
