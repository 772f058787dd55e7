//! The messages to a node that boots.

ghost use Rattle.std.specs.Prelude.{◌≡◌, ◌∷◌};
ghost use Rattle.node_memory.specs.Bytes.{word_from};
ghost use Rattle.bootstrap.specs.Messages.{bytes_of_word, poke_bytes, booted, boot_fault_number, length_fault};

use std::alloc::Global;
use thiserror::Error;

/// The fewest bytes of code that a boot message has: a first byte of 0 begins a poke, and one of 1 a peek.
///
/// Source: Transputer Reference Manual, bootstrapping.
pub const LEAST_BOOTED: usize = 2;

/// The most bytes of code that a boot message has: its first byte is their number.
///
/// Source: Transputer Reference Manual, bootstrapping.
pub const MOST_BOOTED: usize = 255;

/// Why code can't be sent as a boot message.
#[derive(Clone, Copy, Debug, Error)]
pub enum BootFault {
    /// It is shorter than 2 bytes, so its length would be a control byte of another meaning.
    #[error("code is at least two bytes long")]
    TooShort,
    /// It is longer than 255 bytes, so its length is no byte.
    #[error("code is at most 255 bytes long")]
    TooLong,
    /// The message can't be allocated.
    #[error("no memory")]
    NoMemory,
}

impl BootFault {
    /// Why code of this many bytes can't be sent, if its length is why.
    pub fn of_length(count: usize) -> Option<BootFault>
        ensures { result ≡ length_fault count }
    {
        match count {
            0..LEAST_BOOTED => Some(BootFault::TooShort),
            LEAST_BOOTED..=MOST_BOOTED => None,
            _ => Some(BootFault::TooLong),
        }
    }

    /// The number of the fault, from 1 to 3 in the order of the variants.
    pub fn number(self) -> u8
        ensures answer { result ≡ boot_fault_number self }
    {
        match self {
            BootFault::TooShort => 1,
            BootFault::TooLong => 2,
            BootFault::NoMemory => 3,
        }
    }
}

// The bytes of a word, least significant first.
fn bytes_of(word: u32) -> [u8; 4]
    ensures answer { result ≡ bytes_of_word word }
{
    [
        (word % 0x100) as u8,
        ((word >> 8) % 0x100) as u8,
        ((word >> 16) % 0x100) as u8,
        (word >> 24) as u8,
    ]
}

/// The message that asks for the word at an address: 1 and the address, least significant byte first.
///
/// Source: Transputer Reference Manual, peek.
pub fn peek_message(address: u32) -> [u8; 5]
    ensures answer { result ≡ 1 ∷ bytes_of_word address }
{
    let [a, b, c, d] = bytes_of(address);
    [1, a, b, c, d]
}

/// The message that stores a word at an address: 0, the address and the word, least significant bytes first.
///
/// Source: Transputer Reference Manual, poke.
pub fn poke_message(address: u32, word: u32) -> [u8; 9]
    ensures answer { result ≡ poke_bytes address word }
{
    let [a, b, c, d] = bytes_of(address);
    let [e, f, g, h] = bytes_of(word);
    [0, a, b, c, d, e, f, g, h]
}

/// The message that loads code of 2 to 255 bytes and runs it: its length, and the code.
///
/// `TooShort` and `TooLong` where the code has another length, and else `NoMemory` where the message can't be
/// allocated.
///
/// Source: Transputer Reference Manual, bootstrapping.
pub fn boot_message(alloc: Global, code: &[u8]) -> Result<Vec<u8>, BootFault>
    ensures answer { booted result code.now }
{
    if let Some(fault) = BootFault::of_length(code.len()) {
        return Err(fault);
    }
    let length = code.len() as u8;
    let mut message = Vec::new(alloc);
    if message.push(length).is_err() || message.extend_from_slice(code).is_err() {
        return Err(BootFault::NoMemory);
    }
    Ok(message)
}

/// The word that four bytes spell, least significant first.
pub fn word_of(bytes: [u8; 4]) -> u32
    ensures answer { result ≡ word_from bytes 0 }
{
    let [a, b, c, d] = bytes;
    u32::from(a) + (u32::from(b) << 8) + (u32::from(c) << 16) + (u32::from(d) << 24)
}
