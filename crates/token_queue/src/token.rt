//! The right to step a node.

/// The right to step a node. The worker that holds it is the only one that checks the node out.
#[derive(Clone, Copy, PartialEq, Eq)]
pub struct Token {
    /// The number of the domain in the plan.
    pub domain: u8,
    /// The number of the node in its domain.
    pub node: u8,
}
