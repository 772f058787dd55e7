//! Sets of numbers.
ghost use Rattle.std.specs.Prelude.{◌≡◌, ℕ, ◌+◌, ◌-◌, ◌*◌, ◌^◌, ◌<◌, ◌≤◌, ◌==◌, ◌||◌, true, false, OnOk, vec_len};
ghost use Rattle.std.specs.Int.{bit_at};
ghost use Rattle.occam_uses.specs.Uses.{is_between};
ghost use Rattle.occam_uses.specs.Sets.{has_number};

use std::alloc::{AllocError, Global};

// How many numbers a block has.
const BLOCK: u64 = 64;

/// A set of numbers. Bit i of block k says whether the number 64 * k + i is in it, and no number past the blocks is.
#[derive(Drop)]
pub(crate) struct NumberSet {
    blocks: Vec<u64>,
}

impl NumberSet {
    /// The empty set.
    pub(crate) fn new(alloc: Global) -> Self
        ensures { (n : ℕ) → has_number result n ≡ false }
    {
        NumberSet {
            blocks: Vec::new(alloc),
        }
    }

    // Makes room for block `last`.
    fn grow(&mut self, last: usize) -> Result<(), AllocError>
        ensures same { OnOk result ((n : ℕ) → has_number self.new n ≡ has_number self.old n) }
        ensures room { OnOk result (last < vec_len self.new.blocks) }
    {
        while self.blocks.len() <= last {
            self.blocks.push(0)?;
        }
        Ok(())
    }

    /// Adds the numbers from `first` up to `end`, which isn't added.
    ///
    /// # Errors
    ///
    /// If the blocks can't be kept.
    pub(crate) fn add(&mut self, first: u64, end: u64) -> Result<(), AllocError>
        ensures { OnOk result ((n : ℕ) → has_number self.new n ≡ (has_number self.old n || is_between first end n)) }
    {
        if first >= end {
            return Ok(());
        }
        let last = ((end - 1) / BLOCK) as usize;
        self.grow(last)?;
        for k in (first / BLOCK) as usize..last + 1 {
            self.blocks[k] |= mask(k, first, end);
        }
        Ok(())
    }

    /// Whether a number from `first` up to `end`, and not that, is in the set.
    pub(crate) fn meets(&self, first: u64, end: u64) -> bool
        ensures met { result ≡ true → (n : ℕ) × (is_between first end n ≡ true) × (has_number self.now n ≡ true) }
        ensures free { result ≡ false → (n : ℕ) → is_between first end n ≡ true → has_number self.now n ≡ false }
    {
        let from = (first / BLOCK) as usize;
        let to = ((end / BLOCK) as usize + 1).min(self.blocks.len());
        for k in from..to {
            if self.blocks[k] & mask(k, first, end) != 0 {
                return true;
            }
        }
        false
    }
}

// The bits of block k whose numbers are from `first` up to `end`.
fn mask(k: usize, first: u64, end: u64) -> u64
    requires { 64 * k < 2 ^ 64 }
    ensures { (i : ℕ) → i < 64 → (bit_at result i == 1) ≡ is_between first end (64 * k + i) }
{
    let start = k as u64 * BLOCK;
    let below_first = ones(first.saturating_sub(start).min(BLOCK));
    let below_end = ones(end.saturating_sub(start).min(BLOCK));
    below_end.saturating_sub(below_first)
}

// That many bits from the lowest on.
fn ones(count: u64) -> u64
    requires { count ≤ 64 }
    ensures { result ≡ 2 ^ count - 1 }
{
    if count < BLOCK {
        (1 << count) - 1
    } else {
        u64::MAX
    }
}
