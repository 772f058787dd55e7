//! Outputs over words that nobody shares.
ghost use Rattle.std.specs.Prelude.{◌≡◌, replicate};
ghost use Rattle.crossbar.specs.Plain.{outputs_of, IsPlain};
ghost use Rattle.crossbar.specs.Ranges.{AreRanges};
ghost use Rattle.crossbar.specs.Row.{switch_of};
ghost use Rattle.crossbar.specs.Switch.{cleared};

use crate::numbering::Numbering;
use crate::outputs::Outputs;
use crate::range::{MOST_RANGES, PORTS, PortRange};
use crate::word::Word;
use std::marker::Model;

/// The outputs of some ranges, with words that nobody shares. Contracts see their physical ports
/// and their words, by virtual number.
#[derive(Drop)]
pub struct PlainOutputs {
    numbering: Numbering,
    words: [Word; PORTS as usize],
}

impl Model for PlainOutputs {
    ghost use Rattle.std.specs.Prelude.{take, length};
    ghost use Rattle.crossbar.specs.Plain.{IsPlainRow};
    ghost use Rattle.crossbar.specs.Row.{Row};

    ghost Value = { Row };

    ghost view = { λ o. record { ports = o.numbering; words = take (length o.numbering) o.words } };

    ghost invariant = { λ o. IsPlainRow o.numbering o.words };
}

impl PlainOutputs {
    /// The outputs of the ranges, with the words of their physical ports from a row of 32.
    pub fn of(
        words: [Word; PORTS as usize],
        ranges: [Option<PortRange>; MOST_RANGES],
    ) -> PlainOutputs
        requires { IsPlain words ranges }
        ensures { result ≡ outputs_of words ranges }
    {
        let numbering = Numbering::of(ranges);
        let mut own = words;
        for number in 0..numbering.count() {
            own[usize::from(number)] = words[usize::from(numbering.physical(number))];
        }
        PlainOutputs {
            numbering,
            words: own,
        }
    }

    /// The outputs of the ranges, all of them disconnected and never changed.
    pub fn new(ranges: [Option<PortRange>; MOST_RANGES]) -> PlainOutputs
        requires { AreRanges ranges }
        ensures row { result ≡ outputs_of (replicate 32 (record { bits = 0 })) ranges }
        ensures switch { switch_of result.words ≡ cleared }
    {
        PlainOutputs::of([Word::UNUSED; PORTS as usize], ranges)
    }

    /// Equal outputs, whose words are their own.
    pub fn copy(&self) -> PlainOutputs
        ensures { result ≡ self.now }
    {
        PlainOutputs {
            numbering: self.numbering.copy(),
            words: self.words,
        }
    }
}

impl Outputs for PlainOutputs {
    ghost seen = { λ o. o };

    fn count(&self) -> u8 {
        self.numbering.count()
    }

    fn physical(&self, number: u8) -> u8 {
        self.numbering.physical(number)
    }

    fn virtual_of(&self, port: u8) -> Option<u8> {
        self.numbering.virtual_of(port)
    }

    fn read(&mut self, number: u8) -> Word {
        self.words[usize::from(number)]
    }

    fn write(&mut self, number: u8, word: Word) {
        self.words[usize::from(number)] = word;
    }
}
