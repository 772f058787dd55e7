//! An accepted plan as a table.
ghost use Rattle.std.specs.Prelude.{◌<◌, length};

use crate::NoMemory;
use crate::ports::{PortView, port_view};
use crossbar::PortRange;
use domain_core::Device;
use plan_checker::{AcceptedPlan, Part};
use script_text::TextWriter;
use std::alloc::Global;

/// Describes each domain of a plan: its users, physical ports, limit and nodes, and then a row for each virtual port with
/// the physical port and the device that is joined there.
pub fn table_of(alloc: Global, plan: &AcceptedPlan) -> Result<String, NoMemory> {
    let mut text = TextWriter::new(alloc);
    for domain in 0..plan.domains() {
        if domain > 0 {
            text.push("\n");
        }
        write_heading(&mut text, plan, domain);
        write_ports(&mut text, plan, domain);
    }
    text.finish()
}

fn write_heading(text: &mut TextWriter, plan: &AcceptedPlan, domain: u8)
    requires { domain < length plan.now }
{
    text.push("domain ");
    text.push_decimal(u64::from(domain));
    write_users(text, plan, domain);
    write_ranges(text, plan, domain);
    write_limit_and_nodes(text, plan.part(domain));
}

fn write_users(text: &mut TextWriter, plan: &AcceptedPlan, domain: u8)
    requires { domain < length plan.now }
{
    text.push("\nusers:");
    for user in 0..plan.users(domain) {
        text.push(if user == 0 { " " } else { ", " });
        text.push(plan.name(domain, user));
    }
}

fn write_ranges(text: &mut TextWriter, plan: &AcceptedPlan, domain: u8)
    requires { domain < length plan.now }
{
    text.push("\nports:");
    for (number, range) in plan.ranges(domain).into_iter().flatten().enumerate() {
        text.push(if number == 0 { " " } else { ", " });
        write_range(text, range);
    }
}

fn write_limit_and_nodes(text: &mut TextWriter, part: &Part) {
    text.push("\nlimit: ");
    text.push_decimal(part.limit());
    text.push(" events\n");
    for (number, node) in part.nodes().iter().enumerate() {
        text.push("node ");
        text.push_decimal(number as u64);
        text.push(": ");
        text.push_decimal(u64::from(node.memory));
        text.push(" bytes\n");
    }
}

fn write_range(text: &mut TextWriter, range: PortRange) {
    text.push_decimal(u64::from(range.first));
    text.push(" to ");
    text.push_decimal(u64::from(range.last));
}

fn write_ports(text: &mut TextWriter, plan: &AcceptedPlan, domain: u8)
    requires { domain < length plan.now }
{
    text.push("virtual  physical  device\n");
    for number in 0..plan.ports(domain).count() {
        let PortView { physical, device } = port_view(plan, domain, number);
        let written = write!(text.as_mut_string(), "{number:7}  {physical:8}  ");
        text.keep_failure(written);
        write_device(text, plan, domain, device);
        text.push("\n");
    }
}

/// Appends the device that is joined to a port of a domain, with the owner's name if it is a host; `-` if there is none.
pub fn write_device(text: &mut TextWriter, plan: &AcceptedPlan, domain: u8, device: Option<Device>)
    requires { domain < length plan.now }
{
    match device {
        None => text.push("-"),
        Some(Device::Link { node, link }) => {
            text.push("node ");
            text.push_decimal(u64::from(node));
            text.push(", link ");
            text.push_decimal(link as u64);
        }
        Some(Device::Host(host)) => {
            text.push("host ");
            text.push_decimal(u64::from(host));
            if let Some(user) = owner(plan.part(domain), host) {
                if user < plan.users(domain) {
                    text.push(" of ");
                    text.push(plan.name(domain, user));
                }
            }
        }
    }
}

// The user who owns a host.
fn owner(part: &Part, host: u8) -> Option<u8> {
    part.hosts().get(usize::from(host)).map(|host| host.user)
}
