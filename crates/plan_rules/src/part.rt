//! The part of a domain: all that its machine needs of the plan.
ghost use Rattle.std.specs.Prelude.{◌≡◌, ◌↔◌, IsTrue, IfOk, length};
ghost use Rattle.plan_rules.specs.Part.{IsPart};

use crate::NoMemory;
use std::alloc::Global;
use std::marker::Model;

/// A node of a domain.
#[derive(Clone, Copy, PartialEq, Eq)]
pub struct NodePart {
    /// The memory in bytes, a multiple of 4 from 2,048 to 65,536.
    pub memory: u32,
    /// The virtual port of each link, below the domain's count, where the link is wired.
    pub links: [Option<u8>; 4],
}

/// A host of a domain.
#[derive(Clone, Copy, PartialEq, Eq)]
pub struct HostPart {
    /// The virtual port, below the domain's count.
    pub port: u8,
    /// The number of the user who owns the host, in the order of the plan.
    pub user: u8,
}

/// The part of a domain: what its machine needs of the plan, without names and physical ports.
///
/// Contracts see its number of ports, limit and number of users, and the lists of its nodes and hosts.
pub struct Part {
    pub(crate) count: u8,
    pub(crate) limit: u64,
    pub(crate) users: u8,
    pub(crate) nodes: Vec<NodePart>,
    pub(crate) hosts: Vec<HostPart>,
}

// Dropped by hand, since a derived `Drop` makes callers prove the drop of each field.
impl Drop for Part {
    fn drop(self) {
        let Part {
            count: _,
            limit: _,
            users: _,
            nodes: _,
            hosts: _,
        } = self;
    }
}

impl Model for Part {
    ghost use Rattle.plan_rules.specs.Part.{PartData, IsPart, part_with};

    ghost Value = { PartData };

    ghost view = { λ p. part_with p.count p.limit p.users p.nodes.items p.hosts.items };

    ghost invariant = { λ p. IsPart (part_with p.count p.limit p.users p.nodes.items p.hosts.items) };
}

impl Part {
    /// The number of virtual ports, 1 to 32.
    pub fn count(&self) -> u8
        ensures count { result ≡ self.now.count }
        ensures part { IsPart self.now }
    {
        self.count
    }

    /// How many events the journal may hold, 1 to 2^40.
    pub fn limit(&self) -> u64
        ensures limit { result ≡ self.now.limit }
        ensures part { IsPart self.now }
    {
        self.limit
    }

    /// The number of users, 1 to 4.
    pub fn users(&self) -> u8
        ensures users { result ≡ self.now.users }
        ensures part { IsPart self.now }
    {
        self.users
    }

    /// The nodes in the order of the plan, 1 to 8.
    pub fn nodes(&self) -> &[NodePart]
        ensures nodes { result.now ≡ self.now.nodes }
        ensures part { IsPart self.now }
    {
        self.nodes.as_slice()
    }

    /// The hosts in the order of their numbers, 1 to 4.
    pub fn hosts(&self) -> &[HostPart]
        ensures hosts { result.now ≡ self.now.hosts }
        ensures part { IsPart self.now }
    {
        self.hosts.as_slice()
    }

    /// Whether the two parts are equal.
    pub fn equals(&self, other: &Part) -> bool
        ensures { IsTrue result ↔ (self.now ≡ other.now) }
    {
        other.count == self.count
            && self.limit == other.limit
            && self.users == other.users
            && are_same_nodes(self.nodes.as_slice(), other.nodes.as_slice())
            && are_same_hosts(self.hosts.as_slice(), other.hosts.as_slice())
    }

    /// An equal part.
    ///
    /// # Errors
    ///
    /// `NoMemory`.
    pub fn copy(&self, alloc: Global) -> Result<Part, NoMemory>
        ensures { IfOk result (λ part. part ≡ self.now) }
    {
        let nodes = Vec::from_slice(alloc, self.nodes.as_slice())?;
        let hosts = Vec::from_slice(alloc, self.hosts.as_slice())?;
        Ok(Part {
            count: self.count,
            limit: self.limit,
            users: self.users,
            nodes,
            hosts,
        })
    }
}

fn are_same_nodes(a: &[NodePart], b: &[NodePart]) -> bool
    ensures { IsTrue result ↔ (a.now ≡ b.now) }
{
    a == b
}

fn are_same_hosts(a: &[HostPart], b: &[HostPart]) -> bool
    ensures { IsTrue result ↔ (a.now ≡ b.now) }
{
    a == b
}
