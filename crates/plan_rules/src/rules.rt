//! The rules of a separate plan, one a fault.
ghost use Rattle.std.specs.Prelude.{◌≡◌, ◌↔◌, ◌++◌, ◌≤◌, ◌^◌, pos, IsTrue, All, length, filter};
ghost use Rattle.plan_rules.specs.Separate.{IsRange, IsFrom, Lies, HasWiredLink, IsName, IsPlannedMemory, is_wired, hosts_of, HasHosts};

use crate::plan::{DomainPlan, NodePlan, RangePlan, UserPlan};

/// Whether a name has the permitted form.
pub fn is_name(name: &str) -> bool
    ensures { IsTrue result ↔ IsName name.now }
{
    (1..=32).contains(&name.len())
        && name
            .as_bytes()
            .iter()
            .all(|byte| matches!(*byte, b'a'..=b'z' | b'0'..=b'9' | b'-'))
}

/// Whether each user has a name of the permitted form.
pub fn has_names(domain: &DomainPlan) -> bool
    ensures { IsTrue result ↔ All (λ u. IsName u.name) domain.now.users }
{
    domain.users.iter().all(|user| is_name(user.name.as_str()))
}

/// Whether a range is one of physical ports.
pub fn is_range(range: &RangePlan) -> bool
    ensures { IsTrue result ↔ IsRange range.now }
{
    0 <= range.first && range.first <= range.last && range.last <= 31
}

/// Whether each range is one of physical ports.
pub fn has_ranges(domain: &DomainPlan) -> bool
    ensures { IsTrue result ↔ All IsRange domain.now.ranges }
{
    domain.ranges.iter().all(is_range)
}

/// Whether there are one to four ranges.
pub fn has_range_count(domain: &DomainPlan) -> bool
    ensures { IsTrue result ↔ IsFrom 1 4 (length domain.now.ranges) }
{
    (1..=4).contains(&domain.ranges.len())
}

/// Whether there are one to four users.
pub fn has_user_count(domain: &DomainPlan) -> bool
    ensures { IsTrue result ↔ IsFrom 1 4 (length domain.now.users) }
{
    (1..=4).contains(&domain.users.len())
}

/// Whether there are one to eight nodes.
pub fn has_node_count(domain: &DomainPlan) -> bool
    ensures { IsTrue result ↔ IsFrom 1 8 (length domain.now.nodes) }
{
    (1..=8).contains(&domain.nodes.len())
}

/// Whether a memory of this many bytes is permitted.
pub fn is_memory_size(bytes: i64) -> bool
    ensures { IsTrue result ↔ IsPlannedMemory bytes }
{
    2048 <= bytes && bytes <= 65536 && bytes % 4 == 0
}

/// Whether each node's memory has a permitted size.
pub fn has_memory_sizes(domain: &DomainPlan) -> bool
    ensures { IsTrue result ↔ All (λ n. IsPlannedMemory n.memory) domain.now.nodes }
{
    domain.nodes.iter().all(|node| is_memory_size(node.memory))
}

/// Whether the value of a link wires it.
pub fn is_wired(link: i64) -> bool
    ensures { result ≡ is_wired link }
{
    link != -1
}

/// Whether a node has a wired link.
pub fn has_wired_link(node: &NodePlan) -> bool
    ensures { IsTrue result ↔ HasWiredLink node.now }
{
    node.links.iter().any(|link| is_wired(*link))
}

/// Whether each node has a wired link.
pub fn has_wired_nodes(domain: &DomainPlan) -> bool
    ensures { IsTrue result ↔ All HasWiredLink domain.now.nodes }
{
    domain.nodes.iter().all(has_wired_link)
}

fn has_host(user: &UserPlan) -> bool
    ensures { IsTrue result ↔ (1 ≤ length user.now.hosts) }
{
    user.hosts.len() >= 1
}

/// Whether the users have four hosts at most between them.
fn has_few_hosts(domain: &DomainPlan) -> bool
    ensures { IsTrue result ↔ (length (hosts_of domain.now) ≤ 4) }
{
    let mut left = 4;
    for user in &domain.users {
        if user.hosts.len() > left {
            return false;
        }
        left -= user.hosts.len();
    }
    true
}

/// Whether each user has a host, and the domain four at most.
pub fn has_host_count(domain: &DomainPlan) -> bool
    ensures { IsTrue result ↔ HasHosts domain.now }
{
    domain.users.iter().all(has_host) && has_few_hosts(domain)
}

/// Whether the limit is 1 to 2^40.
pub fn has_limit(domain: &DomainPlan) -> bool
    ensures { IsTrue result ↔ Lies (pos 1) (pos (2 ^ 40)) domain.now.limit }
{
    1 <= domain.limit && domain.limit <= 1 << 40
}
