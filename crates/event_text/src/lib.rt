//! What is asked of the domains of a farm, as lines: the words of events, and the requests that a line makes.
#![tactic(auto)]

mod events;
mod reading;
mod request;

pub use events::{write_entry, write_event, write_user};
pub use reading::read_request;
pub use request::{DomainRequest, RepeatedRequest, Request};
