//! Laws of the messages to a node that boots, seen from outside.

ghost use Rattle.bootstrap.specs.Delivered.{PokeStoresTheWord, BootLoadsTheCode};

use node_memory::{written_bytes_are_read, written_words_are_read};

/// A node that wants a control byte and is sent a poke message stores its word, or keeps its memory if the address
/// lies outside, and wants a control byte again. Each of the nine Steps answers `Ran` and acknowledges its byte, and
/// nothing else of the node has changed. The bytes come by one link, each when the one before it was acknowledged; no
/// link of this number or a lower one holds another byte.
///
/// Source: Transputer Reference Manual, links, and bootstrapping, poke.
pub fn poke_stores_the_word()
    ensures law { PokeStoresTheWord }
{}

/// A node that wants a control byte and is sent a boot message has the code at MemStart and above it, its nine channel
/// words hold no process, and the rest of its memory is as before. It runs, with Iptr at MemStart, W at the first word
/// boundary at or above the end of the code, C the address of the link's input channel, A and B zero, an empty queue
/// and no flag set. Each Step answers `Ran` and acknowledges its byte, and no link has changed. The bytes come as those
/// of a poke do.
///
/// Source: Transputer Reference Manual, links, and bootstrapping; T414 data sheet, memory map.
pub fn boot_loads_the_code()
    ensures law { BootLoadsTheCode }
{
    // A word that was written is read.
    written_words_are_read();
    // A byte that was written is read.
    written_bytes_are_read();
}
