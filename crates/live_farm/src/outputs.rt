//! Where a farm that stays up writes.

/// The records of its domains, in the order of the plan, with what is to be replayed of each, the outlet of its answers, and where
/// its notices go. All may be shared by threads.
#[derive(Drop)]
pub struct LiveOutputs<'a, K, P, O, N> {
    /// A record for each domain.
    pub records: &'a [K],
    /// What is to be replayed of each domain.
    pub replays: &'a [P],
    /// Where the answers go.
    pub outlet: &'a O,
    /// Where the notices go.
    pub errors: &'a N,
}
