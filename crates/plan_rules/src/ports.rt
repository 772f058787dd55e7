//! The virtual ports that the domains of a plan use.
ghost use Rattle.std.specs.Prelude.{◌≡◌, ◌↔◌, ◌++◌, IsTrue, IfOk, OnOk, All};
ghost use Rattle.plan_rules.specs.Separate.{IsRange, length_of, IsVirtualPort, IsDistinct, Rule, wired_links, used_ports};

use crate::NoMemory;
use crate::differing::are_apart;
use crate::fault::PlanFault;
use crate::plan::{DomainPlan, NodePlan, RangePlan};
use crate::rules::is_wired;
use std::alloc::Global;

/// How many ports the range has.
pub fn length_of(range: &RangePlan) -> i64
    requires { IsRange range.now }
    ensures { result ≡ length_of range.now }
{
    range.last - range.first + 1
}

/// Whether the port is one of the ranges' virtual ports.
fn is_virtual_port(ranges: &[RangePlan], port: i64) -> bool
    requires { All IsRange ranges.now }
    ensures { IsTrue result ↔ IsVirtualPort ranges.now port }
{
    if port < 0 {
        return false;
    }
    let mut left = port;
    for range in ranges {
        let length = length_of(range);
        if left < length {
            return true;
        }
        left -= length;
    }
    false
}

/// The virtual ports that a domain uses.
fn used_ports(alloc: Global, domain: &DomainPlan) -> Result<Vec<i64>, NoMemory>
    ensures { IfOk result (λ ports. ports.items ≡ used_ports domain.now) }
{
    let mut ports = Vec::new(alloc);
    for user in &domain.users {
        ports.extend_from_slice(user.hosts.as_slice())?;
    }
    for node in &domain.nodes {
        push_wired(&mut ports, node)?;
    }
    Ok(ports)
}

/// Adds the ports of a node's wired links.
fn push_wired(ports: &mut Vec<i64>, node: &NodePlan) -> Result<(), NoMemory>
    ensures { OnOk result (ports.new.items ≡ ports.old.items ++ wired_links node.now) }
{
    for link in node.links {
        if is_wired(link) {
            ports.push(link)?;
        }
    }
    Ok(())
}

fn has_virtual_ports(ranges: &[RangePlan], ports: &[i64]) -> bool
    requires { All IsRange ranges.now }
    ensures { IsTrue result ↔ All (IsVirtualPort ranges.now) ports.now }
{
    for port in ports {
        if !is_virtual_port(ranges, *port) {
            return false;
        }
    }
    true
}

/// Whether each domain uses virtual ports of its own.
pub fn have_virtual_ports(alloc: Global, domains: &[DomainPlan]) -> Result<bool, NoMemory>
    requires { Rule PlanFault.Range domains.now }
    ensures { IfOk result (λ kept. IsTrue kept ↔ Rule PlanFault.Port domains.now) }
{
    for domain in domains {
        let ports = used_ports(alloc, domain)?;
        if !has_virtual_ports(domain.ranges.as_slice(), ports.as_slice()) {
            return Ok(false);
        }
    }
    Ok(true)
}

/// Whether no domain uses a port twice.
pub fn have_distinct_ports(alloc: Global, domains: &[DomainPlan]) -> Result<bool, NoMemory>
    ensures { IfOk result (λ kept. IsTrue kept ↔ Rule PlanFault.PortTwice domains.now) }
{
    for domain in domains {
        let ports = used_ports(alloc, domain)?;
        if !are_apart(ports.as_slice()) {
            return Ok(false);
        }
    }
    Ok(true)
}
