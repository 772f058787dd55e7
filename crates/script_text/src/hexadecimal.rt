//! Bytes that are spelled by hexadecimal digits.
ghost use Rattle.std.specs.Prelude.{◌≡◌, ◌%◌, IfOk, IfErr, List, ℕ, length};
ghost use Rattle.script_text.specs.Hexadecimal.{Spells};
ghost use Rattle.script_text.specs.HexFaults.{hex_fault_number};

use hex::FromHexError;
use std::alloc::Global;
use thiserror::Error;

/// Why a word gives no bytes.
#[derive(Clone, Copy, Debug, Error)]
pub enum HexFault {
    #[error("not an even number of hexadecimal digits, at least two")]
    NotHex,
    #[error("out of memory")]
    NoMemory,
}

impl HexFault {
    /// The number of the fault: 1 where the word isn't hexadecimal, 2 if memory ran out.
    pub fn number(self) -> u8
        ensures { result ≡ hex_fault_number self }
    {
        match self {
            HexFault::NotHex => 1,
            HexFault::NoMemory => 2,
        }
    }
}

/// The bytes that a word spells, two hexadecimal digits for each, in either case. `NotHex` exactly
/// where the word isn't an even number of such digits, at least two; `NoMemory` aside.
pub fn bytes_of(alloc: Global, word: &str) -> Result<Vec<u8>, HexFault>
    ensures bytes { IfOk result (λ bytes. Spells word.now bytes.items) }
    ensures empty { length word.now ≡ 0 → result ≡ Err HexFault.NotHex }
    ensures odd { length word.now % 2 ≡ 1 → result ≡ Err HexFault.NotHex }
    ensures refused { IfErr result (λ fault. fault ≡ HexFault.NotHex → (bytes : List ℕ) → ¬ Spells word.now bytes) }
{
    if word.is_empty() {
        return Err(HexFault::NotHex);
    }
    hex::decode(alloc, word).map_err(|error| match error {
        FromHexError::OutOfMemory => HexFault::NoMemory,
        _ => HexFault::NotHex,
    })
}
