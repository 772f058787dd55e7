//! Which device is joined to each virtual port.
ghost use Rattle.std.specs.Prelude.{◌≡◌, ◌≤◌, length};
ghost use Rattle.domain_core.specs.Devices.{device_at, host_at_port, link_at_port, link_of_four};
ghost use Rattle.domain_core.specs.MachineValue.{AreJoined};

use crate::device::Device;
use crossbar::PORTS;
use link_channels::LinkNumber;
use plan_rules::{HostPart, NodePart, Part};

/// The devices of a part by the virtual ports to which they are joined.
pub(crate) type DeviceTable = [Option<Device>; PORTS as usize];

/// The device of each virtual port of a part.
pub(crate) fn table_of(part: &Part) -> DeviceTable
    ensures { AreJoined part.now result }
{
    let mut table = [None; PORTS as usize];
    for port in 0..part.count() {
        table[usize::from(port)] = device_at(part, port);
    }
    table
}

/// The device that is joined to a virtual port of a domain with this part, if there is one.
pub fn device_at(part: &Part, port: u8) -> Option<Device>
    ensures { result ≡ device_at part.now port }
{
    match host_at_port(part.hosts(), port) {
        Some(device) => Some(device),
        None => link_at_port(part.nodes(), port),
    }
}

// The first host at a port.
#[tactic(auto, using(crate::proofs::Tables::host_here, crate::proofs::Tables::host_further, crate::proofs::Tables::no_host))]
fn host_at_port(hosts: &[HostPart], port: u8) -> Option<Device>
    requires { length hosts.now ≤ 4 }
    ensures { result ≡ host_at_port 0 hosts.now port }
{
    for (number, host) in hosts.iter().enumerate() {
        if host.port == port {
            return Some(Device::Host(number as u8));
        }
    }
    None
}

// The first link at a port.
#[tactic(auto, using(crate::proofs::Tables::link_here, crate::proofs::Tables::link_further, crate::proofs::Tables::no_link))]
fn link_at_port(nodes: &[NodePart], port: u8) -> Option<Device>
    requires { length nodes.now ≤ 8 }
    ensures { result ≡ link_at_port 0 nodes.now port }
{
    for (number, node) in nodes.iter().enumerate() {
        if let Some(device) = link_of_four(number as u8, node.links, port) {
            return Some(device);
        }
    }
    None
}

// The first of a node's links at a port.
fn link_of_four(node: u8, links: [Option<u8>; 4], port: u8) -> Option<Device>
    ensures { result ≡ link_of_four node links port }
{
    let [zero, one, two, three] = links;
    let link = if zero == Some(port) {
        LinkNumber::Zero
    } else if one == Some(port) {
        LinkNumber::One
    } else if two == Some(port) {
        LinkNumber::Two
    } else if three == Some(port) {
        LinkNumber::Three
    } else {
        return None;
    };
    Some(Device::Link { node, link })
}
