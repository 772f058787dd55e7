//! Which physical port each virtual port of a domain is.
ghost use Rattle.std.specs.Prelude.{◌≡◌, ◌<◌, ◌++◌, ◌∷◌, [], None, length, slice_get};
ghost use Rattle.crossbar.specs.Ranges.{ranged_ports, ports_at, ports_of, AreRanges, IsPortRange, IsNumbering};
ghost use Rattle.crossbar.specs.Row.{number_among};

use crate::range::{MOST_RANGES, PORTS, PortRange};
use std::marker::Model;

/// The physical ports of a domain in the order of their virtual numbers. Contracts see it as that
/// list: distinct ports below 32.
#[derive(Drop)]
pub struct Numbering {
    ports: [u8; PORTS as usize],
    numbers: [Option<u8>; PORTS as usize],
    count: u8,
}

impl Model for Numbering {
    ghost use Rattle.std.specs.Prelude.{ℕ, List, take};
    ghost use Rattle.crossbar.specs.Numbers.{IsNumberTable};

    ghost Value = { List ℕ };

    ghost view = { λ n. take n.count n.ports };

    ghost invariant = { λ n. IsNumberTable n.ports n.numbers n.count };
}

impl Numbering {
    /// The ports of a domain's ranges, in the order of the row.
    pub fn of(ranges: [Option<PortRange>; MOST_RANGES]) -> Numbering
        requires { AreRanges ranges }
        ensures { result ≡ ranged_ports ranges }
    {
        let mut numbering = Numbering::empty();
        for place in ranges {
            numbering.append(place);
        }
        numbering
    }

    /// No port.
    fn empty() -> Numbering
        ensures { result ≡ [] }
    {
        Numbering {
            ports: [0; PORTS as usize],
            numbers: [None; PORTS as usize],
            count: 0,
        }
    }

    /// The ports of one more place.
    fn append(&mut self, place: Option<PortRange>)
        requires range { IsPortRange place }
        requires apart { IsNumbering (self.old ++ ports_at place) }
        ensures { self.new ≡ self.old ++ ports_at place }
    {
        if let Some(range) = place {
            self.append_range(range);
        }
    }

    /// The ports of one more range.
    fn append_range(&mut self, range: PortRange)
        requires range { IsPortRange (Some range) }
        requires apart { IsNumbering (self.old ++ ports_of range) }
        ensures { self.new ≡ self.old ++ ports_of range }
    {
        for port in range.first..range.last + 1 {
            self.push(port);
        }
    }

    /// One more port.
    fn push(&mut self, port: u8)
        requires { IsNumbering (self.old ++ port ∷ []) }
        ensures { self.new ≡ self.old ++ port ∷ [] }
    {
        self.ports[usize::from(self.count)] = port;
        self.numbers[usize::from(port)] = Some(self.count);
        self.count += 1;
    }

    /// An equal numbering.
    pub fn copy(&self) -> Numbering
        ensures { result ≡ self.now }
    {
        Numbering {
            ports: self.ports,
            numbers: self.numbers,
            count: self.count,
        }
    }

    /// How many virtual ports there are, 0 to 32.
    pub fn count(&self) -> u8
        ensures { result ≡ length self.now }
    {
        self.count
    }

    /// The physical port, below 32, of a virtual one.
    pub fn physical(&self, number: u8) -> u8
        requires { number < length self.now }
        ensures { slice_get self.now number ≡ Some result }
    {
        self.ports[usize::from(number)]
    }

    /// The virtual number of a physical port, or `None` where it is no port of the domain.
    pub fn virtual_of(&self, port: u8) -> Option<u8>
        ensures { result ≡ number_among self.now port }
    {
        if port < PORTS {
            self.numbers[usize::from(port)]
        } else {
            None
        }
    }
}
