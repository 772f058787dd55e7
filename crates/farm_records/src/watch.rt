//! Who watches how a record is replayed.

/// Who hears how far a record is replayed, and may end that.
pub trait ReplayWatch {
    /// That many Steps more were done.
    fn note_steps(&self, steps: u64);

    /// Whether it is to go on.
    fn goes_on(&self) -> bool;
}
