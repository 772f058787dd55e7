//! Numbers by chance.
ghost use Rattle.std.specs.Prelude.{◌<◌, ◌≤◌};

/// A stream of numbers that depends on its seed: SplitMix64.
#[derive(Clone, Copy)]
pub struct Draws {
    state: u64,
}

impl Draws {
    /// The stream of a seed.
    pub fn new(seed: u64) -> Draws {
        Draws { state: seed }
    }

    // The next 64 bits.
    fn next(&mut self) -> u64 {
        self.state = self.state.wrapping_add(0x9e37_79b9_7f4a_7c15);
        let mixed = (self.state ^ (self.state >> 30)).wrapping_mul(0xbf58_476d_1ce4_e5b9);
        let mixed = (mixed ^ (mixed >> 27)).wrapping_mul(0x94d0_49bb_1331_11eb);
        mixed ^ (mixed >> 31)
    }

    /// A number below a bound.
    pub fn below(&mut self, bound: u64) -> u64
        requires { 0 < bound }
        ensures { result < bound }
    {
        self.next() % bound
    }

    /// A byte, 0 to the greatest.
    pub fn byte(&mut self, greatest: u8) -> u8
        ensures { result ≤ greatest }
    {
        self.below(u64::from(greatest) + 1) as u8
    }
}
