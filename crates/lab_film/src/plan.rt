//! The plan of a film's domain, as it is written in JSON.
ghost use Rattle.std.specs.Prelude.{◌<◌, length};

use crate::NoMemory;
use domain_core::{Device, device_at};
use plan_checker::{AcceptedPlan, HostPart, NodePart};
use script_text::TextWriter;
use serde::Serialize;
use std::alloc::Global;
use t414_assembly::{Instruction, write_instruction};
use t414_decode::{Function, decode};

/// A code of no operation.
const NO_OPERATION: u32 = 255;

/// What the plan says of the domain, and the names of the processor's functions and operations.
#[derive(Serialize)]
pub struct PlanTold {
    limit: u64,
    users: Vec<String>,
    /// The bytes of memory of each node.
    nodes: Vec<u32>,
    /// The owner of each host.
    hosts: Vec<u8>,
    ports: Vec<PortTold>,
    functions: Vec<String>,
    operations: Vec<OperationTold>,
}

// Dropped by hand, since a derived `Drop` makes callers prove the drop of each field.
impl Drop for PlanTold {
    fn drop(self) {
        let PlanTold {
            limit: _,
            users: _,
            nodes: _,
            hosts: _,
            ports: _,
            functions: _,
            operations: _,
        } = self;
    }
}

/// A virtual port, with the device that is joined there.
#[derive(Drop, Serialize)]
struct PortTold {
    physical: u8,
    #[serde(skip_serializing_if = "Option::is_none")]
    host: Option<u8>,
    #[serde(skip_serializing_if = "Option::is_none")]
    node: Option<u8>,
    #[serde(skip_serializing_if = "Option::is_none")]
    link: Option<u8>,
}

/// The code of an operation, and its name.
#[derive(Drop, Serialize)]
struct OperationTold {
    code: u32,
    name: String,
}

fn user_names(alloc: Global, plan: &AcceptedPlan) -> Result<Vec<String>, NoMemory>
    requires { 0 < length plan.now }
{
    let mut users = Vec::new(alloc);
    for user in 0..plan.users(0) {
        users.push(String::from_str(alloc, plan.name(0, user))?)?;
    }
    Ok(users)
}

// A port with the device that is joined there.
fn port_told(physical: u8, device: Option<Device>) -> PortTold {
    let (host, node, link) = match device {
        Some(Device::Host(host)) => (Some(host), None, None),
        Some(Device::Link { node, link }) => (None, Some(node), Some(link as u8)),
        None => (None, None, None),
    };
    PortTold {
        physical,
        host,
        node,
        link,
    }
}

fn ports_of(alloc: Global, plan: &AcceptedPlan) -> Result<Vec<PortTold>, NoMemory>
    requires { 0 < length plan.now }
{
    let mut ports = Vec::new(alloc);
    let numbering = plan.ports(0);
    for port in 0..numbering.count() {
        ports.push(port_told(numbering.physical(port), device_at(plan.part(0), port)))?;
    }
    Ok(ports)
}

// An instruction as the assembler reads it.
fn instruction_text(alloc: Global, function: Function, operand: u32) -> Result<String, NoMemory> {
    let mut text = TextWriter::new(alloc);
    write_instruction(&mut text, Instruction { function, operand });
    text.finish()
}

// The name of the function of a nibble.
fn function_name(alloc: Global, nibble: u8) -> Result<String, NoMemory> {
    let text = instruction_text(alloc, decode(nibble << 4).0, NO_OPERATION)?;
    let (name, _) = text.split_once(" ").unwrap_or((text.as_str(), ""));
    String::from_str(alloc, name)
}

// The names of the functions, by their nibbles.
fn functions(alloc: Global) -> Result<Vec<String>, NoMemory> {
    let mut names = Vec::new(alloc);
    for nibble in 0u8..16 {
        names.push(function_name(alloc, nibble)?)?;
    }
    Ok(names)
}

// The operations with their codes.
fn operations(alloc: Global) -> Result<Vec<OperationTold>, NoMemory> {
    let mut operations = Vec::new(alloc);
    for code in 0..NO_OPERATION {
        let name = instruction_text(alloc, Function::Operate, code)?;
        if !name.contains(" ") {
            operations.push(OperationTold { code, name })?;
        }
    }
    Ok(operations)
}

// The bytes of memory of each node.
fn memories_of(alloc: Global, nodes: &[NodePart]) -> Result<Vec<u32>, NoMemory> {
    let mut memories = Vec::new(alloc);
    for node in nodes {
        memories.push(node.memory)?;
    }
    Ok(memories)
}

// The owner of each host.
fn owners_of(alloc: Global, hosts: &[HostPart]) -> Result<Vec<u8>, NoMemory> {
    let mut owners = Vec::new(alloc);
    for host in hosts {
        owners.push(host.user)?;
    }
    Ok(owners)
}

/// What a plan says of its first domain.
pub fn plan_told(alloc: Global, plan: &AcceptedPlan) -> Result<PlanTold, NoMemory>
    requires { 0 < length plan.now }
{
    let part = plan.part(0);
    Ok(PlanTold {
        limit: part.limit(),
        users: user_names(alloc, plan)?,
        nodes: memories_of(alloc, part.nodes())?,
        hosts: owners_of(alloc, part.hosts())?,
        ports: ports_of(alloc, plan)?,
        functions: functions(alloc)?,
        operations: operations(alloc)?,
    })
}
