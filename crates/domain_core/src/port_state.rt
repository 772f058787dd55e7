//! What waits at a virtual port.

use crate::event::Moved;
use os_link::Packet;

/// What waits at a virtual port, and what a Move of it would come to.
#[derive(Clone, Copy)]
pub struct PortState {
    /// The packet that leaves the port's device next, if one waits.
    pub packet: Option<Packet>,
    /// The outputs that the port drives, as a mask: bit q is virtual output q.
    pub drives: u32,
    /// What a Move of the port would be answered.
    pub moved: Moved,
}
