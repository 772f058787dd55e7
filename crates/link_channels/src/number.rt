//! The numbers of a node's links.

ghost use Rattle.std.specs.Prelude.{◌≡◌};

/// The number of a link of a node, 0 to 3.
#[derive(Clone, Copy, PartialEq, Eq)]
pub enum LinkNumber {
    Zero,
    One,
    Two,
    Three,
}

impl LinkNumber {
    ghost use Rattle.link_channels.specs.Links.{every_link, input_channel, output_channel};

    /// The four links of a node, from 0 to 3.
    pub fn all() -> [LinkNumber; 4]
        ensures answer { result ≡ every_link }
    {
        [
            LinkNumber::Zero,
            LinkNumber::One,
            LinkNumber::Two,
            LinkNumber::Three,
        ]
    }

    /// The address of the word of the link's output channel, 80000000 to 8000000C. T414 data sheet, memory map.
    pub fn output_channel(self) -> u32
        ensures answer { result ≡ output_channel self }
    {
        match self {
            LinkNumber::Zero => 0x8000_0000,
            LinkNumber::One => 0x8000_0004,
            LinkNumber::Two => 0x8000_0008,
            LinkNumber::Three => 0x8000_000c,
        }
    }

    /// The address of the word of the link's input channel, 80000010 to 8000001C. T414 data sheet, memory map.
    pub fn input_channel(self) -> u32
        ensures answer { result ≡ input_channel self }
    {
        match self {
            LinkNumber::Zero => 0x8000_0010,
            LinkNumber::One => 0x8000_0014,
            LinkNumber::Two => 0x8000_0018,
            LinkNumber::Three => 0x8000_001c,
        }
    }
}
