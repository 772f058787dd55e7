//! Devices: what is joined to a port.

use link_channels::LinkNumber;

/// What sends on a port's input and listens to its output.
#[derive(Clone, Copy, PartialEq, Eq)]
pub enum Device {
    /// A host, by its number in the domain.
    Host(u8),
    /// A link of a node.
    Link {
        /// The node's number in the domain.
        node: u8,
        /// Which of its links.
        link: LinkNumber,
    },
}
