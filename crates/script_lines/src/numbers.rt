//! What a word of a line spells.
ghost use Rattle.std.specs.Prelude.{◌≡◌, ℕ, List, IfOk, IfErr};
ghost use Rattle.script_lines.specs.declared.fault.LineFault.{LineFault as SpecLineFault};
ghost use Rattle.script_lines.specs.declared.fault.LineFault.TheVariants.{Args, Hex};
ghost use Rattle.script_lines.specs.declared.fault.Unread.TheVariants.{Faulty};
ghost use Rattle.script_lines.specs.Lines.{IsTargetNumber};
ghost use Rattle.script_lines.specs.Words.{IsDecimal, IsWord};
ghost use Rattle.script_text.specs.Hexadecimal.{Spells};

use crate::fault::{LineFault, Unread};
use script_text::{HexFault, bytes_of};
use std::alloc::Global;

/// The number of a host or node that decimal digits spell, at most 255.
pub fn parse_target(word: &[u8]) -> Result<u8, Unread>
    ensures number { IfOk result (IsDecimal word.now) }
    ensures fault { IfErr result (λ u. (u ≡ Faulty Args) × ¬ IsTargetNumber word.now) }
{
    if word.first() == Some(&b'+') {
        return Err(Unread::Faulty(LineFault::Args));
    }
    match std::str::from_utf8(word) {
        Ok(digits) => digits
            .parse::<u8>()
            .map_err(|_| Unread::Faulty(LineFault::Args)),
        Err(_) => Err(Unread::Faulty(LineFault::Args)),
    }
}

/// The bytes that a word spells, two hexadecimal digits for each.
pub(crate) fn parse_bytes(alloc: Global, word: &[u8]) -> Result<Vec<u8>, Unread>
    ensures bytes { IfOk result (λ bytes. Spells word.now bytes.items) }
    ensures fault { IfErr result (λ u. (f : SpecLineFault) → u ≡ Faulty f → (f ≡ Hex) × ((bytes : List ℕ) → ¬ Spells word.now bytes)) }
{
    let Ok(digits) = std::str::from_utf8(word) else {
        return Err(Unread::Faulty(LineFault::Hex));
    };
    bytes_of(alloc, digits).map_err(|fault| match fault {
        HexFault::NotHex => Unread::Faulty(LineFault::Hex),
        HexFault::NoMemory => Unread::NoMemory,
    })
}

/// The word of 32 bits that eight hexadecimal digits spell, the most significant first.
pub(crate) fn parse_word(alloc: Global, word: &[u8]) -> Result<u32, Unread>
    ensures value { IfOk result (IsWord word.now) }
    ensures fault { IfErr result (λ u. (f : SpecLineFault) → u ≡ Faulty f → (f ≡ Hex) × ((value : ℕ) → ¬ IsWord word.now value)) }
{
    match parse_bytes(alloc, word)?.as_slice() {
        [a, b, c, d] => Ok(u32::from_be_bytes([*a, *b, *c, *d])),
        _ => Err(Unread::Faulty(LineFault::Hex)),
    }
}
