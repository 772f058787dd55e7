//! Reads a plan of the farm from TOML text, and accepts it where its domains are separate.
//!
//! The rules of a plan and their check are in `plan_rules`, which the farm's machines depend on. A program that reads
//! plans finds here the reading and the check, with the types that they return.
#![tactic(auto)]

mod accepting;
mod fields;
mod read;
mod values;
mod version;

pub use accepting::accept_plan;
pub use plan_rules::{
    AcceptedPlan, DomainPlan, HostPart, NodePart, NodePlan, Part, Plan, PlanFault, RangePlan,
    UserNumber, UserPlan, check,
};
pub use read::read_plan;

/// Memory ran out.
pub use std::alloc::AllocError as NoMemory;
