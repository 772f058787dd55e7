//! Who asks for what of a channel.

ghost use Rattle.std.specs.Prelude.{◌≡◌};

/// The process that asks: its workspace, and the address of its next instruction.
#[derive(Clone, Copy, PartialEq, Eq)]
pub struct Process {
    pub workspace: u32,
    pub instruction: u32,
}

/// What is asked for: `count` bytes through the channel at an address, from or to a pointer.
#[derive(Clone, Copy)]
pub struct Transfer {
    pub count: u32,
    pub channel: u32,
    pub pointer: u32,
}

/// Whether a process takes bytes from a channel, or gives it bytes.
#[derive(Clone, Copy)]
pub enum TransferDirection {
    Input,
    Output,
}

/// Whether the process goes on, or waits with its place saved.
#[derive(Clone, Copy)]
pub enum TransferOutcome {
    GoesOn,
    Waits,
}

impl Process {
    ghost use Rattle.link_channels.specs.Waiting.{descriptor_of};

    // The own descriptor.
    #[inline(always)]
    pub(crate) fn descriptor(&self) -> u32
        ensures answer { result ≡ descriptor_of self.now }
    {
        self.workspace | 1
    }
}
