//! Ranges of physical ports.

/// How many ports the crossbar has.
pub const PORTS: u8 = 32;

/// How many ranges a domain has at most.
pub const MOST_RANGES: usize = 4;

/// A range of physical ports, both ends in it.
#[derive(Clone, Copy, PartialEq, Eq)]
pub struct PortRange {
    /// The first port, 0 to 31.
    pub first: u8,
    /// The last port, from `first` to 31.
    pub last: u8,
}
