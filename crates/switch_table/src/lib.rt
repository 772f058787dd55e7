//! The words of all 32 outputs of a switch, shared by the domains and an operator.
//!
//! Each domain's seat alone stores the words of its outputs; the operator's seat looks at any. Every
//! look and every store is one atomic step.
#![tactic(auto)]

mod domain;
mod shared_words;
mod table;
mod view;

pub use domain::DomainSeat;
pub use std::alloc::AllocError as NoMemory;
pub use table::{OperatorSeat, SwitchTable};
