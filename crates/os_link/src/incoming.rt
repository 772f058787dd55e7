//! What has arrived at a link end.

ghost use Rattle.std.specs.Prelude.{◌≡◌, None};
ghost use Rattle.os_link.specs.End.{with_arrived};

/// The input buffer of one byte, and how many bytes were dropped because it was full.
///
/// Source: Transputer Reference Manual, links; that an overrun is counted is our choice.
#[derive(Clone, Copy, PartialEq, Eq)]
pub struct LinkIn {
    /// The byte that has arrived and is not taken yet.
    pub buffer: Option<u8>,
    /// How many bytes were dropped, at most 4,294,967,295, where the number stays.
    pub overruns: u32,
}

impl LinkIn {
    /// The input at which nothing has arrived.
    pub fn new() -> LinkIn
        ensures { result ≡ record { buffer = None; overruns = 0 } }
    {
        LinkIn {
            buffer: None,
            overruns: 0,
        }
    }

    /// A byte arrives. It fills an empty buffer; where the buffer is full it is dropped and counted.
    pub fn deliver(&mut self, byte: u8)
        ensures { self.new ≡ with_arrived byte self.old }
    {
        if self.buffer.is_none() {
            self.buffer = Some(byte);
        } else {
            self.overruns = self.overruns.saturating_add(1);
        }
    }

    /// The byte in the buffer, which stays there.
    pub fn holds(&self) -> Option<u8>
        ensures { result ≡ self.now.buffer }
    {
        self.buffer
    }

    /// Takes the byte in the buffer.
    pub fn take_byte(&mut self) -> Option<u8>
        ensures answer { result ≡ self.old.buffer }
        ensures state { self.new ≡ record self.old { buffer = None } }
    {
        self.buffer.take()
    }

    /// Empties the buffer; the overruns go on counting.
    pub fn empty(&mut self)
        ensures { self.new ≡ record self.old { buffer = None } }
    {
        self.buffer = None;
    }

    /// How many bytes were dropped, 4,294,967,295 where they are more.
    pub fn overruns(&self) -> u32
        ensures { result ≡ self.now.overruns }
    {
        self.overruns
    }
}
