//! What is shown of each virtual port.
ghost use Rattle.std.specs.Prelude.{◌≡◌, ◌<◌, Some, IfSome, length, slice_get};
ghost use Rattle.domain_core.specs.Devices.{device_at};
ghost use Rattle.plan_rules.specs.Part.{part_of, physical_ports};

use domain_core::{Device, device_at};
use plan_checker::AcceptedPlan;

/// A virtual port of a domain.
#[derive(Clone, Copy)]
pub struct PortView {
    /// The physical port, below 32.
    pub physical: u8,
    /// The device that is joined there, if there is one.
    pub device: Option<Device>,
}

/// A virtual port of a domain, by its number.
pub fn port_view(plan: &AcceptedPlan, domain: u8, number: u8) -> PortView
    requires domain { domain < length plan.now }
    requires number { IfSome (slice_get plan.now domain) (λ d. number < length (physical_ports d)) }
    ensures physical { IfSome (slice_get plan.now domain) (λ d. slice_get (physical_ports d) number ≡ Some result.physical) }
    ensures device { IfSome (slice_get plan.now domain) (λ d. result.device ≡ device_at (part_of d) number) }
{
    PortView {
        physical: plan.ports(domain).physical(number),
        device: device_at(plan.part(domain), number),
    }
}
