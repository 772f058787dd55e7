//! Channels of the core.

use crate::expression::{CoreArray, Expression};
use serde::Deserialize;

/// What one message of a channel is.
#[derive(Clone, Copy, Deserialize)]
pub enum MessageKind {
    /// A BYTE: one byte.
    Byte,
    /// An INT: four bytes, the least significant first.
    Word,
}

/// A channel where it is used.
pub enum CoreChannel {
    /// The link's channel of this number: 0 to 3 are the outputs of links 0 to 3, and 4 to 7 their inputs.
    Link(u8),
    /// The channel that the variable of this number is.
    Inside(u32),
    /// The channel that the element of an array is, which is an error unless the array has the element.
    Element(CoreArray, Expression),
}

/// What a choice waits for. The guard is open unless its condition is 0.
pub enum CoreGuard {
    /// It is ready if its condition isn't 0, and a message can be received by the channel. The process of the guard begins
    /// with the input of that message.
    Input(Expression, CoreChannel),
    /// It is ready if its condition isn't 0.
    Skip(Expression),
}

// Dropped by hand, since a derived `Drop` makes callers prove the drop of each part.
impl Drop for CoreChannel {
    fn drop(self) {
        match self {
            CoreChannel::Link(_) | CoreChannel::Inside(_) | CoreChannel::Element(_, _) => {}
        }
    }
}

// The same.
impl Drop for CoreGuard {
    fn drop(self) {
        match self {
            CoreGuard::Input(_, _) | CoreGuard::Skip(_) => {}
        }
    }
}
