//! A record as a film: what a domain was at each moment of it, in JSON.
#![tactic(auto)]

mod changes;
mod code;
mod filming;
mod frame;
mod json;
mod leaves;
mod plan;
mod shot;
mod sources;
mod steps;

pub use filming::{Span, film_of};
pub use frame::{Frame, HostFrame, NodeFrame, frame_of};
pub use shot::{Shot, shot_of};
pub use sources::SourceLine;
pub use std::alloc::AllocError as NoMemory;
