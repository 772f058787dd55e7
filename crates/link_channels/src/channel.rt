//! Which channels belong to links.

ghost use Rattle.std.specs.Prelude.{◌≡◌};

use crate::number::LinkNumber;

/// What a channel's address stands for. T414 data sheet, memory map.
#[derive(Clone, Copy)]
pub enum Channel {
    /// A word of memory at which two processes of the node meet.
    Soft,
    /// The output channel of a link, words 80000000 to 8000000C.
    LinkOutput(LinkNumber),
    /// The input channel of a link, words 80000010 to 8000001C.
    LinkInput(LinkNumber),
    /// The event channel, word 80000020, which no instruction can use here.
    Event,
}

impl Channel {
    ghost use Rattle.link_channels.specs.Kinds.{kind_of};

    /// The channel in whose word an address lies; its low two bits are ignored.
    #[inline]
    #[tactic(auto, unfolding(crate::specs::Kinds::kind_of))]
    pub fn of(address: u32) -> Channel
        ensures answer { result ≡ kind_of address }
    {
        match address - address % 4 {
            0x8000_0000 => Channel::LinkOutput(LinkNumber::Zero),
            0x8000_0004 => Channel::LinkOutput(LinkNumber::One),
            0x8000_0008 => Channel::LinkOutput(LinkNumber::Two),
            0x8000_000c => Channel::LinkOutput(LinkNumber::Three),
            0x8000_0010 => Channel::LinkInput(LinkNumber::Zero),
            0x8000_0014 => Channel::LinkInput(LinkNumber::One),
            0x8000_0018 => Channel::LinkInput(LinkNumber::Two),
            0x8000_001c => Channel::LinkInput(LinkNumber::Three),
            0x8000_0020 => Channel::Event,
            _ => Channel::Soft,
        }
    }
}
