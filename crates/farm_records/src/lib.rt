//! The records of a farm that stays up: what a domain answered, as a text that `lab rows` judges, and how a domain does it again.
#![tactic(auto)]

mod fault;
mod head;
mod known_lines;
pub mod laws;
mod line;
mod node_loop;
mod reading;
mod redoing;
mod watch;
mod writing;

pub use fault::{HeadFault, RecordFault, RedoFault};
pub use head::head_of;
pub use line::{CallLine, RecordedCall, read_call};
pub use reading::{Redone, redo_record};
pub use redoing::{Redoing, redo_line};
pub use watch::ReplayWatch;
pub use writing::write_records_of;
