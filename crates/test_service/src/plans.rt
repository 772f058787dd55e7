//! The plans by which the trials open services and farms.

use plan_rules::{AcceptedPlan, DomainPlan, NodePlan, Plan, PlanFault, RangePlan, UserPlan, check};
use std::alloc::{AllocError, Global};

/// A plan of a trial.
#[derive(Clone, Copy)]
pub enum TrialPlan {
    /// Ann has ports 0 to 7, bob ports 8 to 15.
    AnnAndBob,
    /// The same, but at most three events of ann's are recorded.
    AnnOfThreeEvents,
    /// Two nodes on ports 0 and 1, host 0 on port 3 and host 1 on port 2.
    TwoNodes,
    /// Ann and cas are users of one domain, with ports 0 to 7. Ann's host is host 0, and cas's is host 1.
    AnnAndCas,
    /// Ann alone, whose ports 0 to 7 are the physical ports 24 to 31.
    AnnAtTheEnd,
    /// Ann alone, whose ports 0 to 3 are the physical ports 24 to 27, and ports 4 to 7 the physical ports 4 to 7.
    AnnInTwoRanges,
}

/// How many events a domain records at most, if nothing else is said.
const LIMIT: i64 = 1_000_000;

// A user with hosts at these ports.
fn user(alloc: Global, name: &str, hosts: &[i64]) -> Result<UserPlan, AllocError> {
    Ok(UserPlan {
        name: String::from_str(alloc, name)?,
        hosts: Vec::from_slice(alloc, hosts)?,
    })
}

// A node with its link 0 at this port.
fn node(memory: i64, port: i64) -> NodePlan {
    NodePlan {
        memory,
        links: [port, -1, -1, -1],
    }
}

// The physical ports from one to another.
fn ports(first: i64, last: i64) -> RangePlan {
    RangePlan { first, last }
}

// A domain of ranges of ports.
fn domain(
    alloc: Global,
    ranges: Vec<RangePlan>,
    limit: i64,
    users: Vec<UserPlan>,
    nodes: Vec<NodePlan>,
) -> Result<DomainPlan, AllocError> {
    Ok(DomainPlan {
        users,
        ranges,
        limit,
        nodes,
    })
}

// A domain of one user with a host at port 7, and one node at port 0.
fn domain_of_one(
    alloc: Global,
    name: &str,
    ranges: Vec<RangePlan>,
    limit: i64,
) -> Result<DomainPlan, AllocError> {
    let users = vec![in alloc; user(alloc, name, &[7])?]?;
    let nodes = vec![in alloc; node(4096, 0)]?;
    domain(alloc, ranges, limit, users, nodes)
}

// Ann alone, at these ports.
fn ann_alone(alloc: Global, ranges: Vec<RangePlan>) -> Result<Vec<DomainPlan>, AllocError> {
    Ok(vec![in alloc; domain_of_one(alloc, "ann", ranges, LIMIT)?]?)
}

// Ann, whose domain records at most `limit` events, and bob.
fn ann_and_bob(alloc: Global, limit: i64) -> Result<Vec<DomainPlan>, AllocError> {
    let ann = domain_of_one(alloc, "ann", vec![in alloc; ports(0, 7)]?, limit)?;
    let bob = domain_of_one(alloc, "bob", vec![in alloc; ports(8, 15)]?, LIMIT)?;
    Ok(vec![in alloc; ann, bob]?)
}

// A domain of ann's with two nodes at ports 0 and 1, and hosts at ports 3 and 2.
fn two_nodes(alloc: Global) -> Result<DomainPlan, AllocError> {
    let users = vec![in alloc; user(alloc, "ann", &[3, 2])?]?;
    let nodes = vec![in alloc; node(2048, 0), node(2048, 1)]?;
    domain(alloc, vec![in alloc; ports(0, 3)]?, LIMIT, users, nodes)
}

// A domain of ann's and cas's with a node at port 0, ann's host at port 7 and cas's at port 6.
fn ann_and_cas(alloc: Global) -> Result<DomainPlan, AllocError> {
    let ann = user(alloc, "ann", &[7])?;
    let cas = user(alloc, "cas", &[6])?;
    let nodes = vec![in alloc; node(4096, 0)]?;
    let ranges = vec![in alloc; ports(0, 7)]?;
    domain(alloc, ranges, LIMIT, vec![in alloc; ann, cas]?, nodes)
}

// The domains of a plan.
fn domains_of(alloc: Global, plan: TrialPlan) -> Result<Vec<DomainPlan>, AllocError> {
    match plan {
        TrialPlan::AnnAndBob => ann_and_bob(alloc, LIMIT),
        TrialPlan::AnnOfThreeEvents => ann_and_bob(alloc, 3),
        TrialPlan::TwoNodes => Ok(vec![in alloc; two_nodes(alloc)?]?),
        TrialPlan::AnnAndCas => Ok(vec![in alloc; ann_and_cas(alloc)?]?),
        TrialPlan::AnnAtTheEnd => ann_alone(alloc, vec![in alloc; ports(24, 31)]?),
        TrialPlan::AnnInTwoRanges => {
            ann_alone(alloc, vec![in alloc; ports(24, 27), ports(4, 7)]?)
        },
    }
}

/// The plan, as it is accepted.
pub fn plan_of(alloc: Global, plan: TrialPlan) -> Result<AcceptedPlan, PlanFault> {
    let domains = domains_of(alloc, plan)?;
    check(alloc, Plan { domains })
}
