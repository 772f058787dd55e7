//! Accepting a separate plan.
ghost use Rattle.std.specs.Prelude.{◌≡◌, ◌≢◌, ◌<◌, ◌≤◌, IfOk, IfErr, IfSome, All, AllPairs, length, slice_get};
ghost use Rattle.crossbar.specs.Ranges.{AreRanges};
ghost use Rattle.plan_rules.specs.Separate.{IsSeparate, IsSmallestFault};
ghost use Rattle.plan_rules.specs.Part.{IsNumbered, AreSeparate, part_of, four_ranges, physical_ports};

use crate::fault::PlanFault;
use crate::part::Part;
use crate::parts::parts_of;
use crate::plan::{DomainPlan, Plan};
use crate::row::{ports_of, row_of};
use crate::smallest::smallest_fault;
use crossbar::{MOST_RANGES, Numbering, PortRange};
use std::alloc::Global;
use std::marker::Model;

/// A plan whose domains are separate. Contracts see the data of the plan.
pub struct AcceptedPlan {
    domains: Vec<DomainPlan>,
    parts: Vec<Part>,
    ports: Vec<Numbering>,
}

// Dropped by hand, since a derived `Drop` makes callers prove the drop of each field.
impl Drop for AcceptedPlan {
    fn drop(self) {
        let AcceptedPlan {
            domains: _,
            parts: _,
            ports: _,
        } = self;
    }
}

impl Model for AcceptedPlan {
    ghost use Rattle.std.specs.Prelude.{List};
    ghost use Rattle.plan_rules.specs.Data.{DomainData};
    ghost use Rattle.plan_rules.specs.Part.{IsAccepted};

    ghost Value = { List DomainData };

    ghost view = { λ accepted. accepted.domains.items };

    ghost invariant = { λ accepted. IsAccepted accepted.domains.items accepted.parts.items accepted.ports.items };
}

/// Accepts the plan where it is separate, and else gives the smallest of its faults.
///
/// # Errors
///
/// The smallest fault from `DomainCount` on that the plan has, and `NoMemory`.
pub fn check(alloc: Global, plan: Plan) -> Result<AcceptedPlan, PlanFault>
    ensures accepted { IfOk result (λ accepted. (accepted ≡ plan) × IsSeparate plan) }
    ensures refused { IfErr result (λ fault. fault ≢ PlanFault.NoMemory → IsSmallestFault plan fault) }
{
    match smallest_fault(alloc, plan.domains.as_slice())? {
        Some(fault) => Err(fault),
        None => {
            let parts = parts_of(alloc, plan.domains.as_slice())?;
            let ports = ports_of(alloc, plan.domains.as_slice())?;
            Ok(AcceptedPlan {
                domains: plan.domains,
                parts,
                ports,
            })
        }
    }
}

impl AcceptedPlan {
    /// How many domains there are, 1 to 16.
    pub fn domains(&self) -> u8
        ensures count { result ≡ length self.now }
        ensures plan { IsSeparate self.now }
    {
        self.domains.len() as u8
    }

    /// How many users a domain has, 1 to 4.
    pub fn users(&self, domain: u8) -> u8
        requires { domain < length self.now }
        ensures { IfSome (slice_get self.now domain) (λ d. result ≡ length d.users) }
    {
        self.domains[usize::from(domain)].users.len() as u8
    }

    /// How many nodes a domain has, 1 to 8.
    pub fn nodes(&self, domain: u8) -> u8
        requires { domain < length self.now }
        ensures { IfSome (slice_get self.now domain) (λ d. result ≡ length d.nodes) }
    {
        self.domains[usize::from(domain)].nodes.len() as u8
    }

    /// The name of a user of a domain, by the user's number in the domain.
    pub fn name(&self, domain: u8, user: u8) -> &str
        requires domain { domain < length self.now }
        requires user { IfSome (slice_get self.now domain) (λ d. user < length d.users) }
        ensures { IfSome (slice_get self.now domain)
            (λ d. IfSome (slice_get d.users user) (λ u. result.now ≡ u.name)) }
    {
        self.domains[usize::from(domain)].users[usize::from(user)]
            .name
            .as_str()
    }

    /// The ranges of a domain in the order of the plan, and then the unused places.
    pub fn ranges(&self, domain: u8) -> [Option<PortRange>; MOST_RANGES]
        requires { domain < length self.now }
        ensures row { IfSome (slice_get self.now domain) (λ d. result ≡ four_ranges d) }
        ensures ranges { AreRanges result }
    {
        row_of(&self.domains[usize::from(domain)])
    }

    /// The physical ports of a domain, by their virtual numbers. It takes no memory.
    pub fn ports(&self, domain: u8) -> &Numbering
        requires { domain < length self.now }
        ensures { IfSome (slice_get self.now domain) (λ d. result.now ≡ physical_ports d) }
    {
        &self.ports[usize::from(domain)]
    }

    /// The part of a domain. It takes no memory.
    pub fn part(&self, domain: u8) -> &Part
        requires { domain < length self.now }
        ensures { IfSome (slice_get self.now domain) (λ d. result.now ≡ part_of d) }
    {
        &self.parts[usize::from(domain)]
    }

    /// No two domains have a port in common, and each domain numbers its ports one to one.
    ///
    /// The call does nothing: its contract is the law.
    pub fn separate_law(&self)
        ensures plan { IsSeparate self.now }
        ensures own { All IsNumbered self.now }
        ensures apart { AllPairs AreSeparate self.now }
    {
        let _ = &self.domains;
    }
}
