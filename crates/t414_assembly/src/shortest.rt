//! The shortest bytes that mean an instruction.
ghost use Rattle.std.specs.Prelude.{◌≡◌, ◌<◌, ◌≤◌, ◌-◌, ◌%◌, ◌^◌, ◌++◌, ◌∷◌, ◌⊎◌, [], List, ℕ, true, false, length, IsTrue};
ghost use Rattle.t414_decode.specs.Codes.{shifted};
ghost use Rattle.t414_decode.specs.Meaning.{read_from, continues};
ghost use Rattle.t414_assembly.specs.Reach.{Reaches};
ghost use Rattle.t414_assembly.specs.Usual.{prefix_bytes, prefixes_of, usual};
ghost use Rattle.t414_assembly.specs.Spelled.{spelled, Means, IsShortest, IsByteOf, prefix_of};

use crate::codes::{byte_of, is_prefix};
use crate::spelling::Spelling;
use t414_decode::Function;

/// The shortest bytes that mean a function with an operand; of a prefix, its one byte with the operand's lowest nibble.
///
/// Source: Transputer instruction set handbook, prefixing functions.
// Six clauses: what the bytes mean, that no fewer do, a prefix by itself, the usual form, and how many they are.
pub fn spell(function: Function, operand: u32) -> Spelling
    ensures means { continues function ≡ false → Means (spelled result) function operand }
    ensures shortest { continues function ≡ false → IsShortest (spelled result) function operand }
    ensures prefix { continues function ≡ true → IsByteOf function (operand % 16) (spelled result) }
    ensures usual { spelled result ≡ usual function operand }
    ensures most { length (spelled result) ≤ 8 }
    ensures least { 0 < length (spelled result) }
{
    let mut spelling = if is_prefix(function) {
        Spelling::empty()
    } else {
        prefixes_for(operand)
    };
    spelling.push(byte_of(function, (operand % 16) as u8));
    spelling
}

// The fewest prefixes that make an operand, but for its lowest nibble.
fn prefixes_for(operand: u32) -> Spelling
    ensures operand { (rest : List ℕ) → read_from 0 (spelled result ++ rest) ≡ read_from (operand - operand % 16) rest }
    ensures usual { spelled result ≡ prefixes_of operand }
    ensures fewest { (n : ℕ) → Reaches n operand → length (spelled result) ≤ n }
    ensures most { length (spelled result) ≤ 7 }
{
    if operand < 16 {
        Spelling::empty()
    } else if operand < 0x8000_0000 {
        prefixes(operand >> 4, false)
    } else {
        prefixes(!operand >> 4, true)
    }
}

// The fewest prefixes that make of a value the operand that the last of them, pfix or nfix, makes of it.
// Seven clauses: the recursion needs each of them of the prefixes before.
fn prefixes(value: u32, negative: bool) -> Spelling
    requires { value < 2 ^ 28 }
    ensures operand { (rest : List ℕ) → read_from 0 (spelled result ++ rest) ≡ read_from (shifted (prefix_of negative) value) rest }
    ensures usual { (most : ℕ) → value < 16 ^ most → 0 < most → spelled result ≡ prefix_bytes most value negative }
    ensures enough { value < 16 ^ length (spelled result) }
    ensures fewest { (length (spelled result) ≡ 1) ⊎ (16 ^ (length (spelled result) - 1) ≤ value) }
    ensures some { 0 < length (spelled result) }
    ensures most { length (spelled result) ≤ 7 }
{
    let mut spelling = if value < 16 {
        Spelling::empty()
    } else {
        prefixes(value >> 4, false)
    };
    let function = if negative {
        Function::NegativePrefix
    } else {
        Function::Prefix
    };
    spelling.push(byte_of(function, (value % 16) as u8));
    spelling
}
