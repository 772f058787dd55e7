//! The whole farm as one machine, and the laws by which each domain of it is a farm of its own.
#![tactic(auto)]

pub mod laws;
