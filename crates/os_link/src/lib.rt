//! Link ends: what waits to leave, what has arrived, and what is known of acknowledges.
#![tactic(auto)]

mod end;
mod incoming;
mod latch;
mod outgoing;

pub use end::LinkEnd;
pub use incoming::LinkIn;
pub use latch::{Latch, Packet};
pub use outgoing::LinkOut;
