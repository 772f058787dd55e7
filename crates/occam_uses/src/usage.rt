//! Uses of bytes and channels.
ghost use Rattle.std.specs.Prelude.{◌≡◌};
ghost use Rattle.occam_uses.specs.Uses.{are_clashing_ways, is_clash};

use occam_core::CorePlace;

/// How a process uses bytes of the frame or channels.
#[derive(Clone, Copy)]
pub enum UsageWay {
    /// It changes the bytes.
    Changes,
    /// It reads the bytes.
    Reads,
    /// It sends by the channels.
    Sends,
    /// It receives by the channels.
    Receives,
}

/// Bytes of the frame, or channels, that a statement uses. Byte b of variable v has the number 4 * v + b. The channel of a
/// link has the number of that channel, and the channel that variable v is has the number 256 + v.
#[derive(Clone, Copy)]
pub struct Usage {
    pub way: UsageWay,
    /// The number of the first byte or channel.
    pub first: u64,
    /// The number after the last. Nothing is used unless it is above `first`.
    pub end: u64,
    /// Whether it is known while compiling what is used. Of an array whose subscript isn't known, all elements count as used.
    pub is_known: bool,
    /// Where the statement begins.
    pub place: CorePlace,
}

impl UsageWay {
    // Whether two processes may not use the same byte or channel at the same time in these ways.
    fn clashes_with(self, other: UsageWay) -> bool
        ensures { result ≡ are_clashing_ways self other }
    {
        matches!(
            (self, other),
            (UsageWay::Changes, UsageWay::Changes | UsageWay::Reads)
                | (UsageWay::Reads, UsageWay::Changes)
                | (UsageWay::Sends, UsageWay::Sends)
                | (UsageWay::Receives, UsageWay::Receives)
        )
    }
}

impl Usage {
    // Whether two processes may not make these uses at the same time.
    pub(crate) fn clashes_with(self, other: Usage) -> bool
        ensures { result ≡ is_clash self other }
    {
        self.way.clashes_with(other.way) && self.first.max(other.first) < self.end.min(other.end)
    }
}
