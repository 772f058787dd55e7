//! The words of answers, as the programs print them. If a call answers `NoMemory`, nothing is said of the text.
#![tactic(auto)]

mod digits;
mod replies;
mod showing;

pub use digits::write_byte;
pub use replies::{
    write_config_reply, write_fault, write_refusal, write_reply, write_seen, write_stepped,
};
pub use showing::write_line;
