//! Bytes from the most negative address upwards, and words of four bytes among them.

ghost use Rattle.std.specs.Prelude.{◌≡◌, ◌+◌, ◌-◌, ◌<◌, ◌≤◌, ◌↔◌, IfOk, IsTrue, OnErr, length, nat_lt, replicate, true, vec_capacity};
ghost use Rattle.node_memory.specs.Bytes.{IsMemorySize, first_address, is_inside, byte_at, word_at, with_byte, with_word, with_word_from, stored, copied, copied_within};
ghost use Rattle.node_memory.specs.Kept.{AreKept, fetched_byte, memory_of};

use crate::fault::Fault;
use std::alloc::{AllocError as NoMemory, Global};
use std::marker::Model;

/// The first address of memory, MinInt.
///
/// Source: IMS T414 data sheet, memory map.
pub const MEMORY_START: u32 = 0x8000_0000;

/// Whether memory may have `size` bytes: a multiple of 4 from 2,048 to 65,536.
pub fn is_memory_size(size: usize) -> bool
    ensures answer { IsTrue result ↔ IsMemorySize size }
{
    2048 <= size && size <= 65536 && size % 4 == 0
}

// The offset of an address. Below memory it is greater than any size.
#[inline(always)]
fn offset_of(address: u32) -> usize
    ensures there { first_address ≤ address → result ≡ address - first_address }
    ensures below { address < first_address → 65536 < result }
{
    (address as usize).wrapping_sub(MEMORY_START as usize)
}

// Puts a word's four bytes from an index on. They are the bytes of one part, so that one store writes them.
#[inline]
fn put_word(bytes: &mut [u8], first: usize, word: u32)
    requires { first + 4 ≤ length bytes.old }
    ensures { bytes.new ≡ with_word_from bytes.old first word }
{
    let part = &mut bytes[first..first + 4];
    part[0] = (word % 0x100) as u8;
    part[1] = ((word >> 8) % 0x100) as u8;
    part[2] = ((word >> 16) % 0x100) as u8;
    part[3] = (word >> 24) as u8;
}

// Copies four bytes from one index to another, upwards and one by one.
#[inline(always)]
fn copy_four(bytes: &mut [u8], from: usize, to: usize)
    requires from { from + 4 ≤ length bytes.old }
    requires to { to + 4 ≤ length bytes.old }
    ensures { bytes.new ≡ copied_within 4 bytes.old from to }
{
    bytes[to] = bytes[from];
    bytes[to + 1] = bytes[from + 1];
    bytes[to + 2] = bytes[from + 2];
    bytes[to + 3] = bytes[from + 3];
}

// Keeps the bytes up to the end of the word at an offset that is past those that are kept; returns whether the offset
// lies in memory.
// Six clauses: what is kept before and after, that memory is the same, and what the answer says.
#[cold]
#[inline(never)]
#[tactic(auto, using(crate::proofs::Kept::one_more))]
fn reach(kept: &mut Vec<u8>, size: usize, offset: usize) -> bool
    requires kept { AreKept kept.old.items size (vec_capacity kept.old) }
    requires behind { length kept.old.items ≤ offset }
    ensures answer { result ≡ nat_lt offset size }
    ensures unchanged { memory_of kept.new.items size ≡ memory_of kept.old.items size }
    ensures kept { AreKept kept.new.items size (vec_capacity kept.new) }
    ensures there { IsTrue result → offset < length kept.new.items }
{
    if offset >= size {
        return false;
    }
    let end = offset - offset % 4 + 4;
    while kept.len() < end {
        kept.push_reserved(0);
    }
    true
}

// Whether all of these bytes are 0.
fn are_zero(bytes: &[u8]) -> bool
    ensures { IsTrue result ↔ (bytes.now ≡ replicate (length bytes.now) 0) }
{
    bytes.iter().all(|byte| *byte == 0)
}

// Whether two lists of bytes are the same.
fn are_same(bytes: &[u8], others: &[u8]) -> bool
    ensures { IsTrue result ↔ (bytes.now ≡ others.now) }
{
    bytes == others
}

/// What is found at an address from which a byte is fetched.
#[derive(Clone, Copy)]
pub enum Fetched {
    /// A byte that is kept.
    Kept(u8),
    /// A byte of memory after those that are kept, which is 0.
    Behind,
    /// No byte of memory.
    Outside,
}

/// A node's memory: its bytes from `MEMORY_START` upwards.
///
/// Only the bytes up to the last word that was ever written are kept, since all after it are 0. So a
/// copy and a comparison cost what a program has used of memory, and not its size.
pub struct Memory {
    kept: Vec<u8>,
    size: usize,
}

// Dropped by hand, since a derived `Drop` makes callers prove the drop of each field.
impl Drop for Memory {
    fn drop(self) {
        let Memory { kept: _, size: _ } = self;
    }
}

impl Model for Memory {
    ghost use Rattle.std.specs.Prelude.{List, ℕ, vec_capacity};
    ghost use Rattle.node_memory.specs.Kept.{AreKept, memory_of};

    ghost Value = { List ℕ };

    ghost view = { λ m. memory_of m.kept.items m.size };

    ghost invariant = { λ m. AreKept m.kept.items m.size (vec_capacity m.kept) };
}

impl Memory {
    /// Memory of `size` bytes, all zero.
    ///
    /// `size` is a multiple of 4 from 2,048 to 65,536 (our choice; the chip's address space is
    /// larger); `is_memory_size` tells. `NoMemory` where the bytes can't be allocated.
    pub fn new(alloc: Global, size: usize) -> Result<Memory, NoMemory>
        requires { IsMemorySize size }
        ensures { IfOk result (λ memory. memory ≡ replicate size 0) }
    {
        let kept = Vec::with_capacity(alloc, size)?;
        Ok(Memory { kept, size })
    }

    /// The byte at an address, or `Fault::OutsideMemory` where it lies outside.
    ///
    /// Source: Transputer instruction set handbook, load byte.
    #[inline]
    #[tactic(auto, unfolding(crate::specs::Bytes::byte_at))]
    pub fn byte(&self, address: u32) -> Result<u8, Fault>
        ensures { result ≡ byte_at self.now address }
    {
        let offset = offset_of(address);
        if offset < self.kept.len() {
            Ok(self.kept[offset])
        } else if offset < self.size {
            Ok(0)
        } else {
            Err(Fault::OutsideMemory)
        }
    }

    /// The byte at an address, as `byte` reads it. A byte that isn't kept is an answer of its own, so that a loop which
    /// seldom meets one needs no value for it.
    ///
    /// Source: Transputer instruction set handbook, the fetch of an instruction byte.
    #[inline]
    #[tactic(auto, unfolding(crate::specs::Bytes::byte_at))]
    pub fn fetch(&self, address: u32) -> Fetched
        ensures { fetched_byte result ≡ byte_at self.now address }
    {
        let offset = offset_of(address);
        if offset < self.kept.len() {
            Fetched::Kept(self.kept[offset])
        } else if offset < self.size {
            Fetched::Behind
        } else {
            Fetched::Outside
        }
    }

    /// Writes the byte at an address.
    ///
    /// `Fault::OutsideMemory` where it lies outside; memory is then unchanged.
    ///
    /// Source: Transputer instruction set handbook, store byte.
    #[inline]
    #[tactic(auto, unfolding(crate::specs::Bytes::with_byte), using(crate::proofs::Kept::kept_set, crate::proofs::Kept::length_memory))]
    pub fn set_byte(&mut self, address: u32, byte: u8) -> Result<(), Fault>
        ensures stored { stored result self.new ≡ with_byte self.old address byte }
        ensures err { OnErr result (self.new ≡ self.old) }
    {
        let offset = offset_of(address);
        if offset >= self.kept.len() && !reach(&mut self.kept, self.size, offset) {
            return Err(Fault::OutsideMemory);
        }
        self.kept[offset] = byte;
        Ok(())
    }

    /// Whether the byte at an address is kept, so that a store there makes nothing longer. Then it lies in memory. If it
    /// isn't kept nothing is said of it, so this is of use for speed alone.
    ///
    /// Source: our choice, as what is kept is.
    #[inline]
    pub fn keeps(&self, address: u32) -> bool
        ensures { result ≡ true → is_inside self.now address ≡ true }
    {
        offset_of(address) < self.kept.len()
    }

    /// The word that an address lies in, its low two bits ignored.
    ///
    /// `Fault::OutsideMemory` where the word lies outside.
    ///
    /// Source: Transputer instruction set handbook, load non-local.
    #[inline]
    #[tactic(auto, unfolding(crate::specs::Bytes::word_at))]
    pub fn word(&self, address: u32) -> Result<u32, Fault>
        ensures { result ≡ word_at self.now address }
    {
        let offset = offset_of(address);
        if offset < self.kept.len() {
            let first = offset - offset % 4;
            let bytes = &self.kept.as_slice()[first..first + 4];
            let low = u32::from(bytes[0]);
            let second = u32::from(bytes[1]);
            let third = u32::from(bytes[2]);
            let high = u32::from(bytes[3]);
            Ok(low + (second << 8) + (third << 16) + (high << 24))
        } else if offset < self.size {
            Ok(0)
        } else {
            Err(Fault::OutsideMemory)
        }
    }

    /// Writes the word that an address lies in, its low two bits ignored.
    ///
    /// `Fault::OutsideMemory` where the word lies outside; memory is then unchanged.
    ///
    /// Source: Transputer instruction set handbook, store non-local.
    #[inline]
    #[tactic(auto, unfolding(crate::specs::Bytes::with_word), using(crate::proofs::Kept::length_memory))]
    pub fn set_word(&mut self, address: u32, word: u32) -> Result<(), Fault>
        ensures stored { stored result self.new ≡ with_word self.old address word }
        ensures err { OnErr result (self.new ≡ self.old) }
    {
        let offset = offset_of(address);
        if offset >= self.kept.len() && !reach(&mut self.kept, self.size, offset) {
            return Err(Fault::OutsideMemory);
        }
        put_word(self.kept.as_mut_slice(), offset - offset % 4, word);
        Ok(())
    }

    // Copies bytes as `copy_up` does, and tests each address.
    #[inline(never)]
    fn copy_bytes(&mut self, from: u32, to: u32, count: u32) -> Result<(), Fault>
        ensures { (result, self.new) ≡ copied count self.old from to }
    {
        for i in 0..count {
            // No address passes 2^32: memory's size bounds those that were copied.
            let _ = &self.kept;
            let byte = self.byte(from + i)?;
            self.set_byte(to + i, byte)?;
        }
        Ok(())
    }

    /// Copies `count` bytes from one address to another, upwards and one by one, so that a byte
    /// written is read again where the two blocks overlap so.
    ///
    /// `Fault::OutsideMemory` at the first byte that can't be read or written; the bytes before it
    /// are copied and stay so.
    ///
    /// Source: Transputer instruction set handbook, move message; for blocks that overlap and for
    /// a fault our choice.
    // Most messages are words, whose bytes are kept: two tests are enough for all four.
    #[inline(always)]
    pub fn copy_up(&mut self, from: u32, to: u32, count: u32) -> Result<(), Fault>
        ensures { (result, self.new) ≡ copied count self.old from to }
    {
        let source = from.wrapping_sub(MEMORY_START) as usize;
        let target = to.wrapping_sub(MEMORY_START) as usize;
        let kept = self.kept.len();
        if count == 4 && source + 4 <= kept && target + 4 <= kept {
            copy_four(self.kept.as_mut_slice(), source, target);
            return Ok(());
        }
        self.copy_bytes(from, to, count)
    }

    /// Makes every byte zero.
    pub fn clear(&mut self)
        ensures { self.new ≡ replicate (length self.old) 0 }
    {
        self.kept.clear();
    }

    /// The allocator that its bytes were made with.
    pub fn allocator(&self) -> Global {
        *self.kept.allocator()
    }

    /// Memory with the same bytes. `NoMemory` where they can't be allocated.
    pub fn copy(&self, alloc: Global) -> Result<Memory, NoMemory>
        ensures { IfOk result (λ memory. memory ≡ self.now) }
    {
        let mut kept = Vec::with_capacity(alloc, self.size)?;
        kept.extend_from_slice(self.kept.as_slice())?;
        Ok(Memory {
            kept,
            size: self.size,
        })
    }

    /// Makes the bytes those of another memory if both are of one size; whether they are. If they aren't nothing
    /// changes. No memory is allocated.
    pub fn copy_from(&mut self, other: &Memory) -> bool
        ensures answer { IsTrue result ↔ (length self.old ≡ length other.now) }
        ensures copied { IsTrue result → self.new ≡ other.now }
        ensures other_size { ¬ IsTrue result → self.new ≡ self.old }
    {
        if self.size != other.size {
            return false;
        }
        let kept = &mut self.kept;
        kept.clear();
        // There is room for all of memory.
        if kept.extend_from_slice(other.kept.as_slice()).is_err() {
            unreachable!();
        }
        true
    }

    /// Whether the sizes and all bytes are the same.
    pub fn equals(&self, other: &Memory) -> bool
        ensures equal { IsTrue result → self.now ≡ other.now }
        ensures different { self.now ≡ other.now → IsTrue result }
    {
        if self.size != other.size {
            return false;
        }
        let both = self.kept.len().min(other.kept.len());
        let (ours, our_rest) = self.kept.as_slice().split_at(both);
        let (theirs, their_rest) = other.kept.as_slice().split_at(both);
        if !are_same(ours, theirs) {
            return false;
        }
        if !are_zero(our_rest) {
            return false;
        }
        are_zero(their_rest)
    }
}
