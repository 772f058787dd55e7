//! Channels of a node: soft ones, at which two of its processes meet through a word of memory, and those of its four
//! links. A process asks by its descriptor, a link is served whenever the node steps.
//! Transputer Reference Manual, links; instruction set handbook, in, out, enbc, disc, resetch.
#![tactic(auto)]

mod channel;
mod hard;
mod laws;
mod link;
mod links;
mod messages;
mod number;
mod process;
mod resets;
mod service;
mod soft;
mod waiting;

pub use crate::channel::Channel;
pub use crate::laws::{messages_stop_at_the_edge, services_act_on_work};
pub use crate::link::{FourLinks, Link};
pub use crate::links::Links;
pub use crate::number::LinkNumber;
pub use crate::process::{Process, Transfer, TransferDirection, TransferOutcome};
pub use crate::waiting::{ENABLING, NONE_SELECTED, READY, WAITING};
