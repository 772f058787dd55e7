//! The head of a domain's record.
ghost use Rattle.std.specs.Prelude.{◌<◌, ◌≡◌, ◌↔◌, length, IfOk, IfSome, IsTrue, string_bytes, slice_get};
ghost use Rattle.script_text.specs.Lines.{IsDivided, plan_end};
ghost use Rattle.farm_records.specs.Heads.{AreNamedAlike, IsOnlyDomain, IsHead, ReadsAs};

use crate::fault::HeadFault;
use crossbar::PortRange;
use plan_checker::{AcceptedPlan, HostPart, NodePart, PlanFault, check, read_plan};
use script_text::divide_at_plan_end;
use std::alloc::Global;

// Appends what comes before an entry of a list: a comma, unless it is the first.
fn write_comma(text: &mut String, is_first: bool) -> Result<(), HeadFault> {
    if !is_first {
        text.push_str(", ")?;
    }
    Ok(())
}

// Appends the ranges of physical ports.
fn write_ranges(text: &mut String, plan: &AcceptedPlan, number: u8) -> Result<(), HeadFault>
    requires { number < length plan.now }
{
    text.push_str("range = [")?;
    for (place, range) in plan.ranges(number).iter().enumerate() {
        if let Some(range) = range {
            write_comma(text, place == 0)?;
            write!(text, "[{}, {}]", range.first, range.last)?;
        }
    }
    text.push_str("]\n")?;
    Ok(())
}

// Appends the ports of a user's hosts.
fn write_hosts(text: &mut String, hosts: &[HostPart], user: u8) -> Result<(), HeadFault> {
    let mut is_first = true;
    for host in hosts {
        if host.user == user {
            write_comma(text, is_first)?;
            write!(text, "{}", host.port)?;
            is_first = false;
        }
    }
    Ok(())
}

// Appends the users, each with their hosts.
fn write_users(text: &mut String, plan: &AcceptedPlan, number: u8) -> Result<(), HeadFault>
    requires { number < length plan.now }
{
    text.push_str("user = [")?;
    for user in 0..plan.users(number) {
        write_comma(text, user == 0)?;
        let name = plan.name(number, user);
        write!(text, "{{ name = \"{name}\", host = [")?;
        write_hosts(text, plan.part(number).hosts(), user)?;
        text.push_str("] }")?;
    }
    text.push_str("]\n")?;
    Ok(())
}

// Appends the links of a node: the virtual port of each, or -1.
fn write_links(text: &mut String, node: &NodePart) -> Result<(), HeadFault> {
    for (link, port) in node.links.iter().enumerate() {
        write_comma(text, link == 0)?;
        match port {
            Some(port) => write!(text, "{port}")?,
            None => text.push_str("-1")?,
        }
    }
    Ok(())
}

// Appends the nodes.
fn write_nodes(text: &mut String, nodes: &[NodePart]) -> Result<(), HeadFault> {
    text.push_str("node = [\n")?;
    for node in nodes {
        let memory = node.memory;
        write!(text, "  {{ memory = {memory}, links = [")?;
        write_links(text, node)?;
        text.push_str("] },\n")?;
    }
    text.push_str("]\n")?;
    Ok(())
}

// The plan of a domain alone, and the line `---` after it.
fn head_text(alloc: Global, plan: &AcceptedPlan, number: u8) -> Result<String, HeadFault>
    requires { number < length plan.now }
{
    let part = plan.part(number);
    let limit = part.limit();
    let mut text = format!(in alloc; "version = 3\n[[domain]]\nlimit = {limit}\n")?;
    write_ranges(&mut text, plan, number)?;
    write_users(&mut text, plan, number)?;
    write_nodes(&mut text, part.nodes())?;
    text.push_str("---\n")?;
    Ok(text)
}

impl From<PlanFault> for HeadFault {
    fn from(fault: PlanFault) -> HeadFault {
        match fault {
            PlanFault::NoMemory => HeadFault::Memory(std::alloc::AllocError),
            _ => HeadFault::Unlike,
        }
    }
}

// What a text has before its first line `---`, and after it.
fn parts_of(text: &[u8]) -> (&[u8], &[u8])
    ensures { IsDivided text.now plan_end result.0.now result.1.now }
{
    let divided = divide_at_plan_end(text);
    (divided.plan, divided.rest)
}

// The plan before the line `---` of a text. `Unlike` if anything follows that line.
fn plan_of_head(alloc: Global, text: &[u8]) -> Result<AcceptedPlan, HeadFault>
    ensures { IfOk result (ReadsAs text.now) }
{
    let (before, behind) = parts_of(text);
    if !behind.is_empty() {
        return Err(HeadFault::Unlike);
    }
    Ok(check(alloc, read_plan(alloc, before)?)?)
}

// Whether the users of a plan's only domain have the names of those of this domain.
fn are_named_alike(alone: &AcceptedPlan, plan: &AcceptedPlan, number: u8) -> bool
    requires alone { length alone.now ≡ 1 }
    requires number { number < length plan.now }
    ensures { IsTrue result → IfSome (slice_get alone.now 0) (λ d. IfSome (slice_get plan.now number) (λ e. AreNamedAlike d.users e.users)) }
{
    if alone.users(0) != plan.users(number) {
        return false;
    }
    for user in 0..plan.users(number) {
        if alone.name(0, user) != plan.name(number, user) {
            return false;
        }
    }
    true
}

// Whether ranges are the same.
fn are_same_ranges(a: &[Option<PortRange>], b: &[Option<PortRange>]) -> bool
    ensures { IsTrue result ↔ (a.now ≡ b.now) }
{
    a == b
}

// Whether a plan has one domain, like that of this number.
fn is_alike(alone: &AcceptedPlan, plan: &AcceptedPlan, number: u8) -> bool
    requires { number < length plan.now }
    ensures { IsTrue result → IsOnlyDomain plan.now number alone.now }
{
    if alone.domains() != 1 {
        return false;
    }
    if !alone.part(0).equals(plan.part(number)) {
        return false;
    }
    if !are_same_ranges(&alone.ranges(0), &plan.ranges(number)) {
        return false;
    }
    are_named_alike(alone, plan, number)
}

/// The head of the record of the domain of this number: the plan that has this domain alone, and the line `---`, after which
/// the events come. It is read back before it is returned.
///
/// # Errors
///
/// `Memory`; and `Unlike` if it doesn't read as that plan, which never happens.
pub fn head_of(alloc: Global, plan: &AcceptedPlan, number: u8) -> Result<String, HeadFault>
    requires { number < length plan.now }
    ensures { IfOk result (λ head. IsHead plan.now number (string_bytes head)) }
{
    let text = head_text(alloc, plan, number)?;
    let alone = plan_of_head(alloc, text.as_bytes())?;
    if is_alike(&alone, plan, number) {
        Ok(text)
    } else {
        Err(HeadFault::Unlike)
    }
}
