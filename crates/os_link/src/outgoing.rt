//! What a link end knows of the byte that it sent last.

ghost use Rattle.std.specs.Prelude.{◌≡◌, true, false};
ghost use Rattle.os_link.specs.End.{with_acknowledge};

/// Whether an acknowledge is awaited, and whether one has come that nobody has asked after yet.
///
/// Source: Transputer Reference Manual, links.
#[derive(Clone, Copy, PartialEq, Eq)]
pub struct LinkOut {
    /// A byte was sent, and its acknowledge has not come.
    pub awaits: bool,
    /// The acknowledge has come, and nobody has asked after it.
    pub acknowledged: bool,
}

impl LinkOut {
    /// The output that has sent nothing.
    pub fn new() -> LinkOut
        ensures { result ≡ record { awaits = false; acknowledged = false } }
    {
        LinkOut {
            awaits: false,
            acknowledged: false,
        }
    }

    /// A byte is sent: its acknowledge is awaited, and an older one is forgotten.
    pub fn begin(&mut self)
        ensures { self.new ≡ record { awaits = true; acknowledged = false } }
    {
        self.awaits = true;
        self.acknowledged = false;
    }

    /// An acknowledge arrives. One that nobody awaits is dropped.
    pub fn acked(&mut self)
        ensures { self.new ≡ with_acknowledge self.old }
    {
        if self.awaits {
            self.awaits = false;
            self.acknowledged = true;
        }
    }

    /// Whether an acknowledge is awaited.
    pub fn waits(&self) -> bool
        ensures { result ≡ self.now.awaits }
    {
        self.awaits
    }

    /// Whether the byte was acknowledged. This clears the note of it, so the next call answers
    /// `false` until another acknowledge comes.
    pub fn take_acked(&mut self) -> bool
        ensures answer { result ≡ self.old.acknowledged }
        ensures state { self.new ≡ record self.old { acknowledged = false } }
    {
        let acknowledged = self.acknowledged;
        self.acknowledged = false;
        acknowledged
    }

    /// Forgets the byte: no acknowledge is awaited, and none has come.
    pub fn clear(&mut self)
        ensures { self.new ≡ record { awaits = false; acknowledged = false } }
    {
        *self = LinkOut::new();
    }
}
