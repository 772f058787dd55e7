//! The record of a domain is read, and followed to one of its moments.
#![tactic(auto)]

mod before_event;
mod cursor;
mod entries;
mod fault;
mod following;
pub mod laws;
mod line;
mod notes;
mod record;
mod trail;

pub use before_event::{is_in_mask, next_registers};
pub use cursor::{RecordCursor, apply_record};
pub use fault::{FollowFault, LineStop, RecordStop, WhyFault};
pub use following::{CallOutcome, ReplayedDomain};
pub use line::{RecordedLine, check_answer};
pub use notes::{EventNotes, FaultNotes, NodeNotes, OutputNotes, PortNotes, ZerosNotes};
pub use record::{Record, read_record};
