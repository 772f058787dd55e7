//! Plans by their numbers of domains, nodes and users, with all domains alike.

use plan_rules::{AcceptedPlan, DomainPlan, NodePlan, Plan, PlanFault, RangePlan, UserPlan, check};
use std::alloc::{AllocError, Global};

/// How many domains, how many nodes each of them has, and how many users, each with a host of their own.
#[derive(Clone, Copy)]
pub struct Size {
    /// How many domains, 1 to 16.
    pub domains: u8,
    /// How many nodes each domain has, at virtual ports from 0 on.
    pub nodes: u8,
    /// How many users each domain has, with a host each at the ports after those of the nodes.
    pub users: u8,
    /// How many events each domain's journal holds, 1 to 2^40.
    pub limit: i64,
}

// The users of a domain, with their hosts at the ports after those of the nodes.
fn user_plans(alloc: Global, domain: u8, size: Size) -> Result<Vec<UserPlan>, AllocError> {
    let mut users = Vec::with_capacity(alloc, usize::from(size.users))?;
    for user in 0..size.users {
        let host = i64::from(size.nodes) + i64::from(user);
        users.push(UserPlan {
            name: format!(in alloc; "u{domain}x{user}")?,
            hosts: vec![in alloc; host]?,
        })?;
    }
    Ok(users)
}

// The nodes of a domain.
fn nodes_of(alloc: Global, size: Size) -> Result<Vec<NodePlan>, AllocError> {
    let mut nodes = Vec::with_capacity(alloc, usize::from(size.nodes))?;
    for node in 0..size.nodes {
        nodes.push(NodePlan {
            memory: 4096,
            links: [i64::from(node), -1, -1, -1],
        })?;
    }
    Ok(nodes)
}

// A domain whose nodes have the first ports, and its hosts the others.
fn domain_of(alloc: Global, domain: u8, size: Size) -> Result<DomainPlan, AllocError> {
    let ports = i64::from(size.nodes) + i64::from(size.users);
    let first = ports * i64::from(domain);
    let last = first + ports - 1;
    Ok(DomainPlan {
        users: user_plans(alloc, domain, size)?,
        ranges: vec![in alloc; RangePlan { first, last }]?,
        limit: size.limit,
        nodes: nodes_of(alloc, size)?,
    })
}

/// A plan of this size.
pub fn sized_plan(alloc: Global, size: Size) -> Result<AcceptedPlan, PlanFault> {
    let mut domains = Vec::with_capacity(alloc, usize::from(size.domains))?;
    for domain in 0..size.domains {
        domains.push(domain_of(alloc, domain, size)?)?;
    }
    check(alloc, Plan { domains })
}
