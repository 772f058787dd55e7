//! A plan as its text gives it, with every number as the text has it.
ghost use Rattle.std.specs.Prelude.{ℕ, ℤ, List, string_bytes};

use std::marker::Model;

/// A node of a domain.
#[derive(Drop)]
pub struct NodePlan {
    /// The memory in bytes.
    pub memory: i64,
    /// The virtual port of each link, -1 where the link isn't wired.
    pub links: [i64; 4],
}

/// A range of physical ports, both ends in it.
#[derive(Drop)]
pub struct RangePlan {
    /// The first port.
    pub first: i64,
    /// The last port.
    pub last: i64,
}

/// A user of a domain.
pub struct UserPlan {
    /// The user's name.
    pub name: String,
    /// The virtual port of each of the user's hosts.
    pub hosts: Vec<i64>,
}

// Dropped by hand, since a derived `Drop` makes callers prove the drop of each field.
impl Drop for UserPlan {
    fn drop(self) {
        let UserPlan { name: _, hosts: _ } = self;
    }
}

impl Model for UserPlan {
    ghost use Rattle.std.specs.Prelude.{string_bytes};
    ghost use Rattle.plan_rules.specs.Data.{UserData};

    ghost Value = { UserData };

    ghost view = { λ u. record { name = string_bytes u.name; hosts = u.hosts.items } };
}

/// A domain. In version 1 of the text it has one user and one range, in version 2 one user.
pub struct DomainPlan {
    /// The users, in the order of their numbers.
    pub users: Vec<UserPlan>,
    /// The ranges of physical ports, through which the virtual ports are numbered.
    pub ranges: Vec<RangePlan>,
    /// How many events may be recorded.
    pub limit: i64,
    /// The nodes, in the order of their numbers.
    pub nodes: Vec<NodePlan>,
}

// Dropped by hand, since a derived `Drop` makes callers prove the drop of each field.
impl Drop for DomainPlan {
    fn drop(self) {
        let DomainPlan {
            users: _,
            ranges: _,
            limit: _,
            nodes: _,
        } = self;
    }
}

impl Model for DomainPlan {
    ghost use Rattle.plan_rules.specs.Data.{DomainData};

    ghost Value = { DomainData };

    ghost view = { λ d. record {
      users = d.users.items;
      ranges = d.ranges.items;
      limit = d.limit;
      nodes = d.nodes.items;
    } };
}

/// A plan.
#[derive(Drop)]
pub struct Plan {
    /// The domains, in the order of their numbers.
    pub domains: Vec<DomainPlan>,
}

impl Model for Plan {
    ghost use Rattle.std.specs.Prelude.{List};
    ghost use Rattle.plan_rules.specs.Data.{DomainData};

    ghost Value = { List DomainData };

    ghost view = { λ p. p.domains.items };
}
