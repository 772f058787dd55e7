//! What comes to a domain's thread.

use crate::texts::NotDone;
use live_lines::LiveRequest;

/// What is to be answered.
#[derive(Drop)]
pub enum QueuedRequest {
    /// A line that asks something.
    Asked(LiveRequest),
    /// A line that is wrong, and why.
    Wrong(NotDone),
    /// The operator asks that the domain begins again.
    OperatorRestart,
}

/// A line for a domain's thread.
pub struct QueuedLine {
    /// The number in the domain of the user whose line it is, or whom the operator names.
    pub user: u8,
    /// The number of the line among those of who asks, from 1.
    pub number: u64,
    /// What is to be answered.
    pub request: QueuedRequest,
}

// Dropped by hand, since a derived `Drop` makes callers prove the drop of each field.
impl Drop for QueuedLine {
    fn drop(self) {
        let QueuedLine {
            user: _,
            number: _,
            request: _,
        } = self;
    }
}
