//! Why the nodes of a domain do no more than they do, at a moment of its record.
#![tactic(auto)]

mod cause;
mod doing;
mod explaining;
mod finding;
mod packets;
mod paragraphs;
mod passage;
mod telling;
mod words;

pub use cause::{Cause, InputWait, InsideWait, JoinWait, LinkWaits, OutputWait, Rendezvous};
pub use explaining::{explain_moment, explain_replayed};
pub use finding::{cause_in, cause_of, inside_waits, join_wait};
pub use passage::{Arrival, SentByte, Supply, arrival_at, sent_byte, supply_of};
