//! All domains of a plan on one thread, and runs of a plan from its opening.
#![tactic(auto)]

mod calls;
mod farm;

pub use calls::{Answers, run};
pub use farm::PlainFarm;
pub use whole_farm::laws;
