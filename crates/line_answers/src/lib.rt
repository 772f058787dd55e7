//! What a script line asks of its user's domain, and its output line on the user's screen.
#![tactic(auto)]

mod asking;
pub mod laws;
mod line;
mod quantum;

pub use asking::{ROUNDS, settle};
pub use line::{answer_line, answer_lines};
pub use quantum::Quantum;
