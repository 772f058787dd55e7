//! The nodes and hosts of a domain, as devices that send and receive packets.
ghost use Rattle.std.specs.Prelude.{◌≡◌, ◌<◌, All, IfOk, IsTrue, ◌↔◌, Some, map, length, not, slice_get};
ghost use Rattle.std.specs.Option.{option_copied};
ghost use Rattle.plan_rules.specs.Part.{IsNodePart};
ghost use Rattle.bootstrap.specs.Opening.{opened_node};
ghost use Rattle.bootstrap.specs.Opening.{restarted};
ghost use Rattle.bootstrap.specs.Seen.{seen};
ghost use Rattle.bootstrap.specs.Step.{node_step, is_quiet};
ghost use Rattle.bootstrap.specs.Steps.{IsBurst, after_steps};
ghost use Rattle.domain_core.specs.Hosts.{is_full, host_written, front, host_read};
ghost use Rattle.domain_core.specs.Hosts.{opened_host};
ghost use Rattle.domain_core.specs.Devices.{HasDevice, AreQuiet, node_at, host_at, with_node, with_host, opened_devices, reopened, packet_waiting, taken_from_device, arrived_at_device};
ghost use Rattle.domain_core.specs.Ticket.{fresh_ticket};

use crate::NoMemory;
use crate::device::Device;
use crate::host::Host;
use crate::ticket::Ticket;
use bootstrap::{Burst, Node, Seen};
use os_link::Packet;
use plan_rules::{HostPart, NodePart, Part};
use std::alloc::Global;
use std::marker::Model;
use t414_step::Stepped;

/// The nodes and hosts of a domain, by their numbers.
pub(crate) struct Devices {
    nodes: Vec<Node>,
    hosts: Vec<Host>,
}

// Dropped by hand, since a derived `Drop` makes callers prove the drop of each field.
impl Drop for Devices {
    fn drop(self) {
        let Devices { nodes: _, hosts: _ } = self;
    }
}

impl Model for Devices {
    ghost use Rattle.domain_core.specs.Devices.{DeviceStates};

    ghost Value = { DeviceStates };

    ghost view = { λ d. record { nodes = d.nodes.items; hosts = d.hosts.items } };
}

// The nodes of a part, as they are opened.
fn open_nodes(alloc: Global, parts: &[NodePart]) -> Result<Vec<Node>, NoMemory>
    requires { All IsNodePart parts.now }
    ensures { IfOk result (λ nodes. nodes.items ≡ map (λ n. opened_node n.memory) parts.now) }
{
    let mut nodes = Vec::with_capacity(alloc, parts.len())?;
    for part in parts {
        nodes.push(Node::open(alloc, part.memory as usize)?)?;
    }
    Ok(nodes)
}

// The hosts of a part, as they are opened.
#[tactic(auto, using(crate::proofs::Lists::one_more_of, crate::proofs::Lists::map_const))]
fn open_hosts(alloc: Global, parts: &[HostPart]) -> Result<Vec<Host>, NoMemory>
    ensures { IfOk result (λ hosts. hosts.items ≡ map (λ h. opened_host) parts.now) }
{
    let mut hosts = Vec::with_capacity(alloc, parts.len())?;
    for _number in 0..parts.len() {
        hosts.push(Host::open(alloc)?)?;
    }
    Ok(hosts)
}

// Equal nodes.
fn copy_nodes(alloc: Global, nodes: &[Node]) -> Result<Vec<Node>, NoMemory>
    ensures { IfOk result (λ copies. copies.items ≡ nodes.now) }
{
    let mut copies = Vec::with_capacity(alloc, nodes.len())?;
    for node in nodes {
        copies.push(node.copy(alloc)?)?;
    }
    Ok(copies)
}

// Equal hosts.
fn copy_hosts(alloc: Global, hosts: &[Host]) -> Result<Vec<Host>, NoMemory>
    ensures { IfOk result (λ copies. copies.items ≡ hosts.now) }
{
    let mut copies = Vec::with_capacity(alloc, hosts.len())?;
    for host in hosts {
        copies.push(host.copy(alloc)?)?;
    }
    Ok(copies)
}

// Makes a node as it was opened, with the memory that it has.
fn clear_node(home: &mut Node)
    ensures { home.new ≡ opened_node (length home.old.memory) }
{
    home.clear();
}

impl Devices {
    /// The nodes and hosts of a part, as they are opened.
    pub(crate) fn open(alloc: Global, part: &Part) -> Result<Devices, NoMemory>
        ensures { IfOk result (λ devices. devices ≡ opened_devices part.now) }
    {
        let nodes = open_nodes(alloc, part.nodes())?;
        let hosts = open_hosts(alloc, part.hosts())?;
        Ok(Devices { nodes, hosts })
    }

    /// Equal nodes and hosts with memories and queues of their own.
    pub(crate) fn copy(&self, alloc: Global) -> Result<Devices, NoMemory>
        ensures { IfOk result (λ devices. devices ≡ self.now) }
    {
        let nodes = copy_nodes(alloc, self.nodes.as_slice())?;
        let hosts = copy_hosts(alloc, self.hosts.as_slice())?;
        Ok(Devices { nodes, hosts })
    }

    /// Makes all nodes and hosts as they were opened.
    pub(crate) fn clear(&mut self)
        ensures { self.new ≡ reopened self.old }
    {
        for node in self.nodes.iter_mut() {
            clear_node(node);
        }
        for host in self.hosts.iter_mut() {
            host.clear();
        }
    }

    /// The packet that leaves a device next, which goes on waiting.
    pub(crate) fn waiting(&self, device: Device) -> Option<Packet>
        requires { HasDevice self.now device }
        ensures { result ≡ packet_waiting self.now device }
    {
        match device {
            Device::Host(host) => self.hosts[usize::from(host)].waiting(),
            Device::Link { node, link } => self.nodes[usize::from(node)].waiting(link),
        }
    }

    /// Takes the packet that leaves a device next.
    pub(crate) fn take(&mut self, device: Device)
        requires { HasDevice self.old device }
        ensures state { self.new ≡ taken_from_device device self.old }
        ensures nodes { length self.new.nodes ≡ length self.old.nodes }
        ensures hosts { length self.new.hosts ≡ length self.old.hosts }
    {
        match device {
            Device::Host(host) => {
                self.hosts[usize::from(host)].take();
            }
            Device::Link { node, link } => {
                self.nodes[usize::from(node)].take(link);
            }
        }
    }

    /// A packet arrives at a device.
    pub(crate) fn deliver(&mut self, device: Device, packet: Packet)
        requires { HasDevice self.old device }
        ensures state { self.new ≡ arrived_at_device packet device self.old }
        ensures nodes { length self.new.nodes ≡ length self.old.nodes }
        ensures hosts { length self.new.hosts ≡ length self.old.hosts }
    {
        match device {
            Device::Host(host) => self.hosts[usize::from(host)].deliver(packet),
            Device::Link { node, link } => self.nodes[usize::from(node)].deliver(link, packet),
        }
    }

    /// Puts a byte in a host's sending queue, and answers whether there was room.
    pub(crate) fn write(&mut self, host: u8, byte: u8) -> bool
        requires { host < length self.old.hosts }
        ensures answer { result ≡ not (is_full (host_at self.old host).sending) }
        ensures state { self.new ≡ with_host host (host_written byte (host_at self.old host)) self.old }
        ensures hosts { length self.new.hosts ≡ length self.old.hosts }
    {
        self.hosts[usize::from(host)].write(byte)
    }

    /// Takes the front byte of a host's receiving queue.
    pub(crate) fn read(&mut self, host: u8) -> Option<u8>
        requires { host < length self.old.hosts }
        ensures answer { result ≡ front (host_at self.old host).received }
        ensures state { self.new ≡ with_host host (host_read (host_at self.old host)) self.old }
        ensures hosts { length self.new.hosts ≡ length self.old.hosts }
    {
        self.hosts[usize::from(host)].read()
    }

    /// Resets a node.
    pub(crate) fn reset(&mut self, node: u8)
        requires { node < length self.old.nodes }
        ensures state { self.new ≡ with_node node (restarted (node_at self.old node)) self.old }
    {
        self.nodes[usize::from(node)].reset();
    }

    /// What is seen of a node.
    pub(crate) fn look(&self, node: u8) -> Seen
        requires { node < length self.now.nodes }
        ensures { result ≡ seen (node_at self.now node) }
    {
        self.nodes[usize::from(node)].look()
    }

    /// Whether a Step of a node would not be recorded.
    #[inline(always)]
    pub(crate) fn is_quiet(&self, node: u8) -> bool
        requires { node < length self.now.nodes }
        ensures { result ≡ is_quiet (node_at self.now node) }
    {
        self.nodes[usize::from(node)].quiet()
    }

    /// Whether no Step of any node would be recorded.
    pub(crate) fn are_quiet(&self) -> bool
        ensures { IsTrue result ↔ AreQuiet self.now }
    {
        for node in &self.nodes {
            if !node.quiet() {
                return false;
            }
        }
        true
    }

    /// One Step of a node.
    #[inline(always)]
    pub(crate) fn step(&mut self, node: u8) -> Stepped
        requires { node < length self.old.nodes }
        ensures answer { result ≡ (node_step (node_at self.old node)).1 }
        ensures state { self.new ≡ with_node node (node_step (node_at self.old node)).0 self.old }
    {
        self.nodes[usize::from(node)].step()
    }

    /// A node, if it is there.
    pub(crate) fn node(&self, number: u8) -> Option<&Node>
        ensures node { option_copied result ≡ slice_get self.now.nodes number }
    {
        self.nodes.get(usize::from(number))
    }

    /// A host, if it is there.
    pub(crate) fn host(&self, number: u8) -> Option<&Host>
        ensures host { option_copied result ≡ slice_get self.now.hosts number }
    {
        self.hosts.get(usize::from(number))
    }

    /// Does up to `most` Steps of a node, and ends before the first that would not be recorded.
    pub(crate) fn burst(&mut self, node: u8, most: u64) -> Burst
        requires { node < length self.old.nodes }
        ensures burst { IsBurst most (node_at self.old node) result (node_at self.new node) }
        ensures state { self.new ≡ with_node node (after_steps result.steps (node_at self.old node)) self.old }
    {
        self.nodes[usize::from(node)].burst(most)
    }

    /// Puts a ticket's copy in its node's place.
    pub(crate) fn commit_node(&mut self, ticket: &mut Ticket)
        requires there { ticket.old.number < length self.old.nodes }
        requires start { node_at self.old ticket.old.number ≡ ticket.old.start }
        ensures home { self.new ≡ with_node ticket.old.number ticket.old.node self.old }
        ensures spent { ticket.new ≡ fresh_ticket ticket.old.domain ticket.old.number ticket.old.start }
    {
        let number = usize::from(ticket.number());
        ticket.commit_to(&mut self.nodes[number]);
    }
}
