//! Steps that are asked for by texts: how many may be done in all, and how many were.
#![tactic(auto)]

mod bound;
mod meter;

pub use crate::bound::{OutOfSteps, STEPS_AT_ONCE, StepBound};
pub use crate::meter::StepMeter;
