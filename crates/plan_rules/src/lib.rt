//! A plan of the farm as values: the rules that keep its domains separate, the check of them, the users of an accepted plan, and
//! what each domain needs of it.
#![tactic(auto)]

mod accepted;
mod differing;
mod fault;
pub mod laws;
mod part;
mod parts;
mod plan;
mod ports;
mod row;
pub mod rules;
mod smallest;
mod users;

pub use accepted::{AcceptedPlan, check};
pub use fault::PlanFault;
pub use part::{HostPart, NodePart, Part};
pub use plan::{DomainPlan, NodePlan, Plan, RangePlan, UserPlan};
pub use users::UserNumber;

/// Memory ran out.
pub use std::alloc::AllocError as NoMemory;
