//! One domain as its users have it: a private machine of a switch, nodes and hosts, and the journal
//! of what it answered.
#![tactic(auto)]

mod copying;
mod device;
mod devices;
mod domain;
mod entries;
mod event;
mod host;
mod journal;
pub mod laws;
mod machine;
mod moment;
mod moves;
mod port_state;
mod table;
mod ticket;

pub use copying::Mark;
pub use device::Device;
pub use domain::{Committed, Domain};
pub use entries::{ENTRY_BYTES, LOOK_BYTES, TOLD_BYTES};
pub use event::{AnsweredCommand, By, Event, Moved, Refusal, Reply};
pub use host::{Host, QUEUE_BYTES};
pub use journal::{Entry, Journal};
pub use laws::peek_answers_the_word;
pub use moment::Moment;
pub use port_state::PortState;
pub use std::alloc::AllocError as NoMemory;
pub use table::device_at;
pub use ticket::{TICKET_STEPS, Ticket};
