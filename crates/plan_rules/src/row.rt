//! The physical ports of a domain.
ghost use Rattle.std.specs.Prelude.{◌≡◌, ◌≤◌, [], ◌∷◌, All, IfOk, length, map};
ghost use Rattle.crossbar.specs.Ranges.{AreRanges};
ghost use Rattle.plan_rules.specs.Separate.{IsRange, IsSeparate};
ghost use Rattle.plan_rules.specs.Part.{port_range, range_at, four_ranges, physical_ports};

use crate::NoMemory;
use crate::plan::{DomainPlan, RangePlan};
use crossbar::{MOST_RANGES, Numbering, PortRange};
use std::alloc::Global;

fn port_range(range: &RangePlan) -> PortRange
    requires { IsRange range.now }
    ensures { result ≡ port_range range.now }
{
    PortRange {
        first: range.first as u8,
        last: range.last as u8,
    }
}

/// The range at a place of the row, if there is one.
fn place_of(ranges: &[RangePlan], place: usize) -> Option<PortRange>
    requires { All IsRange ranges.now }
    ensures { result ≡ range_at ranges.now place }
{
    if place < ranges.len() {
        Some(port_range(&ranges[place]))
    } else {
        None
    }
}

/// The ranges of a domain, and then the unused places of the row.
pub fn row_of(domain: &DomainPlan) -> [Option<PortRange>; MOST_RANGES]
    requires { IsSeparate (domain.now ∷ []) }
    ensures row { result ≡ four_ranges domain.now }
    ensures ranges { AreRanges result }
{
    let ranges = domain.ranges.as_slice();
    [
        place_of(ranges, 0),
        place_of(ranges, 1),
        place_of(ranges, 2),
        place_of(ranges, 3),
    ]
}

/// The physical ports of the domains, in their order.
pub fn ports_of(alloc: Global, domains: &[DomainPlan]) -> Result<Vec<Numbering>, NoMemory>
    requires { IsSeparate domains.now }
    ensures { IfOk result (λ ports. ports.items ≡ map physical_ports domains.now) }
{
    let mut ports = Vec::with_capacity(alloc, domains.len())?;
    for domain in domains {
        ports.push(Numbering::of(row_of(domain)))?;
    }
    Ok(ports)
}
