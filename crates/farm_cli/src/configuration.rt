//! What the command line settles.

/// How many workers step the nodes, and how many Steps each does at a time.
#[derive(Clone, Copy)]
pub struct Settings {
    /// 1 to 8.
    pub workers: u8,
    /// 1 to 4,096 Steps.
    pub quantum: u16,
}
