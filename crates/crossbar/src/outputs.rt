//! Who keeps the words of a domain's outputs.
ghost use Rattle.std.specs.Prelude.{◌≡◌, ◌<◌, length, Some, slice_get};
ghost use Rattle.crossbar.specs.declared.word.Word.{Word as SwitchWord};
ghost use Rattle.crossbar.specs.Row.{Row, IsRow, IsWordOf, number_among};
ghost use Rattle.crossbar.specs.Changed.{row_with};
ghost use Rattle.crossbar.specs.Word.{IsAtLeastAsNew, SaysOther};

use crate::word::Word;

/// The outputs of a domain and the switch words that stand for them, no matter who keeps the words.
/// A read gives what the last write left, a write changes its output alone, and the numbering is
/// one to one: virtual port v is the v-th of a list of distinct physical ports.
///
/// Reads take `&mut self`, since a shared word is read by a step of its own.
pub trait Outputs {
    /// The physical port and the word of each output, by its virtual number.
    ghost seen: { Self → Row };

    /// How many outputs there are, 0 to 32. Virtual numbers lie below it.
    fn count(&self) -> u8
        ensures count { result ≡ length (seen self.now).ports }
        ensures row { IsRow (seen self.now) };

    /// The physical port, below 32, of a virtual one.
    fn physical(&self, number: u8) -> u8
        requires { number < length (seen self.now).ports }
        ensures { slice_get (seen self.now).ports number ≡ Some result };

    /// The virtual number of a physical port, or `None` where it is none of the domain's.
    fn virtual_of(&self, port: u8) -> Option<u8>
        ensures { result ≡ number_among (seen self.now).ports port };

    /// The word of an output.
    fn read(&mut self, number: u8) -> Word
        requires { number < length (seen self.old).ports }
        ensures value { slice_get (seen self.old).words number ≡ Some result }
        ensures unchanged { seen self.new ≡ seen self.old }
        ensures row { IsRow (seen self.new) };

    /// Stores the word of an output: one that says something else than the word there, and is at
    /// least as new.
    // Six clauses: the number's bound, what a seat of a shared table may store, and what the row is then.
    fn write(&mut self, number: u8, word: Word)
        requires number { number < length (seen self.old).ports }
        requires word { IsWordOf (seen self.old).ports word }
        requires newer { (old : SwitchWord) → slice_get (seen self.old).words number ≡ Some old → IsAtLeastAsNew word old }
        requires other { (old : SwitchWord) → slice_get (seen self.old).words number ≡ Some old → SaysOther old word }
        ensures words { seen self.new ≡ row_with (seen self.old) number word }
        ensures row { IsRow (seen self.new) };
}
