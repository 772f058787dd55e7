//! The smallest fault of a plan.
ghost use Rattle.std.specs.Prelude.{◌≡◌, ◌≢◌, ◌↔◌, [], ◌∷◌, All, IsTrue, IfOk, MatchOption};
ghost use Rattle.plan_rules.specs.Fault.{plan_fault_number};
ghost use Rattle.plan_rules.specs.Separate.{Rule, IsSeparate, KeepsBelow, IsSmallestFault};

use crate::NoMemory;
use crate::differing::differ;
use crate::fault::PlanFault;
use crate::plan::{DomainPlan, RangePlan, UserPlan};
use crate::ports::{have_distinct_ports, have_virtual_ports};
use crate::rules::{
    has_host_count, has_limit, has_memory_sizes, has_names, has_node_count, has_range_count,
    has_ranges, has_user_count, has_wired_nodes,
};
use std::alloc::Global;

/// The faults from the third on, in the order of their numbers. `NoMemory` isn't there, since it
/// breaks no rule.
const RULES: [PlanFault; 15] = [
    PlanFault::DomainCount,
    PlanFault::Name,
    PlanFault::NameTwice,
    PlanFault::Range,
    PlanFault::SharedPort,
    PlanFault::NodeCount,
    PlanFault::Memory,
    PlanFault::Port,
    PlanFault::PortTwice,
    PlanFault::HostCount,
    PlanFault::UnwiredNode,
    PlanFault::Limit,
    PlanFault::NoMemory,
    PlanFault::RangeCount,
    PlanFault::UserCount,
];

/// Whether the domain keeps the rule whose breach is this fault, of those that compare no domains and count no ports.
fn keeps_alone(domain: &DomainPlan, rule: PlanFault) -> bool
    requires names { rule ≢ PlanFault.NameTwice }
    requires ranges { rule ≢ PlanFault.SharedPort }
    requires ports { rule ≢ PlanFault.Port }
    requires uses { rule ≢ PlanFault.PortTwice }
    ensures { IsTrue result ↔ Rule rule (domain.now ∷ []) }
{
    match rule {
        PlanFault::Name => has_names(domain),
        PlanFault::Range => has_ranges(domain),
        PlanFault::NodeCount => has_node_count(domain),
        PlanFault::Memory => has_memory_sizes(domain),
        PlanFault::HostCount => has_host_count(domain),
        PlanFault::UnwiredNode => has_wired_nodes(domain),
        PlanFault::Limit => has_limit(domain),
        PlanFault::RangeCount => has_range_count(domain),
        PlanFault::UserCount => has_user_count(domain),
        _ => true,
    }
}

/// Whether each domain keeps the rule by itself.
fn each_keeps(domains: &[DomainPlan], rule: PlanFault) -> bool
    requires names { rule ≢ PlanFault.NameTwice }
    requires ranges { rule ≢ PlanFault.SharedPort }
    requires ports { rule ≢ PlanFault.Port }
    requires uses { rule ≢ PlanFault.PortTwice }
    ensures { IsTrue result ↔ All (λ d. Rule rule (d ∷ [])) domains.now }
{
    for domain in domains {
        if !keeps_alone(domain, rule) {
            return false;
        }
    }
    true
}

/// Whether the plan keeps the rule whose breach is this fault.
fn keeps(alloc: Global, domains: &[DomainPlan], rule: PlanFault) -> Result<bool, NoMemory>
    requires { KeepsBelow domains.now (plan_fault_number rule) }
    ensures { IfOk result (λ kept. IsTrue kept ↔ Rule rule domains.now) }
{
    let kept = match rule {
        PlanFault::DomainCount => (1..=16).contains(&domains.len()),
        PlanFault::NameTwice => differ::<UserPlan>(domains),
        PlanFault::SharedPort => differ::<RangePlan>(domains),
        PlanFault::Port => have_virtual_ports(alloc, domains)?,
        PlanFault::PortTwice => have_distinct_ports(alloc, domains)?,
        _ => each_keeps(domains, rule),
    };
    Ok(kept)
}

/// The smallest fault of the domains, if they have one.
pub fn smallest_fault(alloc: Global, domains: &[DomainPlan]) -> Result<Option<PlanFault>, NoMemory>
    ensures { IfOk result
        (λ fault. MatchOption fault (IsSeparate domains.now) (IsSmallestFault domains.now)) }
{
    for rule in RULES {
        if !keeps(alloc, domains, rule)? {
            return Ok(Some(rule));
        }
    }
    Ok(None)
}
