//! Making the parts of the domains of a separate plan.
ghost use Rattle.std.specs.Prelude.{◌≡◌, ◌≤◌, ◌++◌, pos, IsTrue, IfOk, OnOk, All, map, length, unsigned_abs, [], ◌∷◌};
ghost use Rattle.plan_rules.specs.Separate.{IsSeparate, IsRange, IsPlannedMemory, Lies, is_wired, wired_links, port_count};
ghost use Rattle.plan_rules.specs.Part.{part_of, node_part, port_at, host_part, host_parts};

use crate::NoMemory;
use crate::part::{HostPart, NodePart, Part};
use crate::plan::{DomainPlan, NodePlan, RangePlan, UserPlan};
use crate::ports::length_of;
use crate::rules::is_wired;
use std::alloc::Global;

/// The virtual port of a link, where it is wired.
fn port_at(link: i64) -> Option<u8>
    requires { IsTrue (is_wired link) → Lies (pos 0) (pos 31) link }
    ensures { result ≡ port_at link }
{
    if is_wired(link) {
        Some(link as u8)
    } else {
        None
    }
}

fn node_part(node: &NodePlan) -> NodePart
    requires size { IsPlannedMemory node.now.memory }
    requires ports { All (Lies (pos 0) (pos 31)) (wired_links node.now) }
    ensures { result ≡ node_part node.now }
{
    let [a, b, c, d] = node.links;
    NodePart {
        memory: node.memory as u32,
        links: [port_at(a), port_at(b), port_at(c), port_at(d)],
    }
}

fn node_parts(alloc: Global, nodes: &[NodePlan]) -> Result<Vec<NodePart>, NoMemory>
    requires sizes { All (λ n. IsPlannedMemory n.memory) nodes.now }
    requires ports { All (λ n. All (Lies (pos 0) (pos 31)) (wired_links n)) nodes.now }
    ensures { IfOk result (λ parts. parts.items ≡ map node_part nodes.now) }
{
    let mut parts = Vec::with_capacity(alloc, nodes.len())?;
    for node in nodes {
        parts.push(node_part(node))?;
    }
    Ok(parts)
}

/// Adds the hosts of the user of this number.
fn push_hosts(hosts: &mut Vec<HostPart>, number: u8, user: &UserPlan) -> Result<(), NoMemory>
    requires { All (Lies (pos 0) (pos 31)) user.now.hosts }
    ensures { OnOk result (hosts.new.items ≡ hosts.old.items ++ map (host_part number) user.now.hosts) }
{
    for port in &user.hosts {
        hosts.push(HostPart {
            port: *port as u8,
            user: number,
        })?;
    }
    Ok(())
}

fn host_parts(alloc: Global, users: &[UserPlan]) -> Result<Vec<HostPart>, NoMemory>
    requires few { length users.now ≤ 4 }
    requires ports { All (λ u. All (Lies (pos 0) (pos 31)) u.hosts) users.now }
    ensures { IfOk result (λ hosts. hosts.items ≡ host_parts 0 users.now) }
{
    let mut hosts = Vec::new(alloc);
    for (number, user) in users.iter().enumerate() {
        push_hosts(&mut hosts, number as u8, user)?;
    }
    Ok(hosts)
}

/// How many ports the ranges have.
fn port_count(ranges: &[RangePlan]) -> u8
    requires ranges { All IsRange ranges.now }
    requires few { length ranges.now ≤ 4 }
    ensures { pos result ≡ port_count ranges.now }
{
    let mut count = 0;
    for range in ranges {
        count += length_of(range) as u8;
    }
    count
}

/// The part of a domain.
fn part_of(alloc: Global, domain: &DomainPlan) -> Result<Part, NoMemory>
    requires { IsSeparate (domain.now ∷ []) }
    ensures { IfOk result (λ part. part ≡ part_of domain.now) }
{
    let nodes = node_parts(alloc, domain.nodes.as_slice())?;
    let hosts = host_parts(alloc, domain.users.as_slice())?;
    Ok(Part {
        count: port_count(domain.ranges.as_slice()),
        limit: domain.limit as u64,
        users: domain.users.len() as u8,
        nodes,
        hosts,
    })
}

/// The parts of the domains, in their order.
pub fn parts_of(alloc: Global, domains: &[DomainPlan]) -> Result<Vec<Part>, NoMemory>
    requires { IsSeparate domains.now }
    ensures { IfOk result (λ parts. parts.items ≡ map part_of domains.now) }
{
    let mut parts = Vec::with_capacity(alloc, domains.len())?;
    for domain in domains {
        parts.push(part_of(alloc, domain)?)?;
    }
    Ok(parts)
}
