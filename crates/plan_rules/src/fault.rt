//! Why a plan was refused.
ghost use Rattle.std.specs.Prelude.{◌≡◌};
ghost use Rattle.plan_rules.specs.Fault.{plan_fault_number};
ghost use Rattle.plan_rules.specs.declared.fault.PlanFault.TheVariants.{NoMemory};

use std::alloc::{AllocError, AllocFailed};
use std::fmt;
use thiserror::Error;

/// Why a plan was refused. The number of each variant is in parentheses.
#[derive(Clone, Copy, Debug, Error)]
pub enum PlanFault {
    /// The text isn't UTF-8 or isn't TOML (1).
    Text,
    /// A field is missing, unknown or of a wrong kind, or the version is none of 1 to 3 (2).
    Shape,
    /// There is no domain, or more than 16 (3).
    DomainCount,
    /// A name isn't 1 to 32 of `a` to `z`, `0` to `9` and hyphen (4).
    Name,
    /// A name occurs twice in the plan (5).
    NameTwice,
    /// A range isn't within ports 0 to 31, or is empty (6).
    Range,
    /// Two ranges share a port (7).
    SharedPort,
    /// A domain's nodes aren't 1 to 8 (8).
    NodeCount,
    /// A memory isn't a multiple of 4 bytes from 2,048 to 65,536 (9).
    Memory,
    /// A wired link's or a host's port is none of its domain's virtual ports (10).
    Port,
    /// A virtual port of a domain is used twice (11).
    PortTwice,
    /// A user has no host, or a domain more than 4 (12).
    HostCount,
    /// A node has no wired link (13).
    UnwiredNode,
    /// A limit isn't 1 to 2^40 (14).
    Limit,
    /// Memory was refused (15).
    NoMemory,
    /// A domain's ranges aren't 1 to 4 (16).
    RangeCount,
    /// A domain's users aren't 1 to 4 (17).
    UserCount,
}

impl PlanFault {
    /// The number of the fault, 1 to 17.
    pub fn number(self) -> u8
        ensures { result ≡ plan_fault_number self }
    {
        self as u8 + 1
    }

    // What is wrong.
    fn text(self) -> &'static str {
        match self {
            PlanFault::Text => "the text isn't UTF-8 or isn't TOML",
            PlanFault::Shape => "a field is missing, unknown or of a wrong kind",
            PlanFault::DomainCount => "there are no domains, or more than 16",
            PlanFault::Name => "a name isn't 1 to 32 of a to z, 0 to 9 and hyphen",
            PlanFault::NameTwice => "a name stands twice",
            PlanFault::Range => "a range isn't within ports 0 to 31",
            PlanFault::SharedPort => "two ranges share a port",
            PlanFault::NodeCount => "a domain's nodes aren't 1 to 8",
            PlanFault::Memory => "a memory isn't a multiple of 4 from 2048 to 65536",
            PlanFault::Port => "a port isn't one of its domain",
            PlanFault::PortTwice => "a port of a domain is used twice",
            PlanFault::HostCount => "a user has no host, or a domain more than 4",
            PlanFault::UnwiredNode => "a node has no wired link",
            PlanFault::Limit => "a limit isn't 1 to 2^40",
            PlanFault::NoMemory => "out of memory",
            PlanFault::RangeCount => "a domain's ranges aren't 1 to 4",
            PlanFault::UserCount => "a domain's users aren't 1 to 4",
        }
    }
}

impl fmt::Display for PlanFault {
    fn fmt<W: fmt::Write>(&self, f: &mut fmt::Formatter<W>) -> fmt::Result {
        f.write_str(self.text())
    }
}

impl From<AllocError> for PlanFault {
    ghost from_gives = { λ _ fault. fault ≡ NoMemory };

    fn from(_error: AllocError) -> PlanFault {
        PlanFault::NoMemory
    }
}

impl<T: Drop> From<AllocFailed<T>> for PlanFault {
    ghost from_gives = { λ _ fault. fault ≡ NoMemory };

    fn from(_error: AllocFailed<T>) -> PlanFault {
        PlanFault::NoMemory
    }
}
