//! The parts that a farm is made of, out of memory: a refused call changes nothing, and the second does what the first would
//! have done. `tests/test_service.py` refuses each allocation in turn.

use crate::plans::{TrialPlan, plan_of};
use bootstrap::{BootFault, LinkNumber, Memory, Node, Packet, boot_message};
use crossbar::{Outputs, PlainOutputs, PortRange, Word, connect};
use domain_core::Host;
use farm_cli::{Settings, settings};
use plan_rules::{AcceptedPlan, PlanFault};
use std::alloc::{AllocError, Global};
use virtual_switch::{ConfigReply, VirtualSwitch};

/// Something was otherwise than it must be, or memory ran out twice.
#[derive(Clone, Copy)]
pub struct Otherwise;

/// Goes on if this is so.
pub fn holds(is_so: bool) -> Result<(), Otherwise> {
    if is_so { Ok(()) } else { Err(Otherwise) }
}

/// The plan, which is made again after a refusal.
pub fn plan_again(alloc: Global, plan: TrialPlan) -> Result<AcceptedPlan, Otherwise> {
    let made = match plan_of(alloc, plan) {
        Err(PlanFault::NoMemory) => plan_of(alloc, plan),
        answer => answer,
    };
    match made {
        Ok(plan) => Ok(plan),
        Err(_) => Err(Otherwise),
    }
}

fn memory_again(alloc: Global) -> Result<Memory, AllocError> {
    match Memory::new(alloc, 2048) {
        Err(_) => Memory::new(alloc, 2048),
        opened => opened,
    }
}

fn copy_again(alloc: Global, memory: &Memory) -> Result<Memory, AllocError> {
    match memory.copy(alloc) {
        Err(_) => memory.copy(alloc),
        copied => copied,
    }
}

/// A copy of memory keeps what the memory had.
pub fn open_and_copy_memory(alloc: Global) -> Result<(), Otherwise> {
    let Ok(mut memory) = memory_again(alloc) else {
        return Err(Otherwise);
    };
    holds(memory.set_byte(0x8000_0000, 9).is_ok())?;
    let Ok(copy) = copy_again(alloc, &memory) else {
        return Err(Otherwise);
    };
    holds(memory.set_byte(0x8000_0000, 8).is_ok())?;
    holds(copy.byte(0x8000_0000) == Ok(9) && memory.byte(0x8000_0000) == Ok(8))
}

fn node_again(alloc: Global) -> Result<Node, AllocError> {
    match Node::open(alloc, 2048) {
        Err(_) => Node::open(alloc, 2048),
        opened => opened,
    }
}

fn node_copy_again(alloc: Global, node: &Node) -> Result<Node, AllocError> {
    match node.copy(alloc) {
        Err(_) => node.copy(alloc),
        copied => copied,
    }
}

/// A copy of a node is the node until that changes.
pub fn open_and_copy_node(alloc: Global) -> Result<(), Otherwise> {
    let Ok(mut node) = node_again(alloc) else {
        return Err(Otherwise);
    };
    node.deliver(LinkNumber::Three, Packet::Byte(9));
    let Ok(copy) = node_copy_again(alloc, &node) else {
        return Err(Otherwise);
    };
    let is_same = copy.same(&node);
    node.reset();
    holds(is_same && !copy.same(&node))
}

/// A boot message has the count before its code.
pub fn make_boot_message(alloc: Global) -> Result<(), Otherwise> {
    let code = [0x21, 0xf5];
    let message = match boot_message(alloc, &code) {
        Err(BootFault::NoMemory) => boot_message(alloc, &code),
        answer => answer,
    };
    match message {
        Ok(message) => holds(message.as_slice() == [0x02, 0x21, 0xf5].as_slice()),
        Err(_) => Err(Otherwise),
    }
}

/// A host takes a byte.
pub fn open_host(alloc: Global) -> Result<(), Otherwise> {
    let host = match Host::open(alloc) {
        Err(_) => Host::open(alloc),
        opened => opened,
    };
    match host {
        Ok(mut host) => holds(host.write(1)),
        Err(_) => Err(Otherwise),
    }
}

/// After a refusal the switch is what it was, and the same bytes are answered as if they had come once.
pub fn feed_switch(alloc: Global) -> Result<(), Otherwise> {
    let plan = plan_again(alloc, TrialPlan::AnnAndBob)?;
    if plan.domains() == 0 {
        return Err(Otherwise);
    }
    let mut switch = VirtualSwitch::new(PlainOutputs::new(plan.ranges(0)));
    let bytes = [1, 0, 1, 2, 0, 7, 2, 8];
    let replies = match switch.feed_all(alloc, &bytes) {
        Err(_) => switch.feed_all(alloc, &bytes),
        replies => replies,
    };
    let expected_replies = [
        ConfigReply::Nothing,
        ConfigReply::Nothing,
        ConfigReply::Nothing,
        ConfigReply::Nothing,
        ConfigReply::Answer(0x81),
        ConfigReply::BadCommand,
        ConfigReply::Nothing,
        ConfigReply::BadPort,
    ];
    match replies {
        Ok(replies) => holds(replies.as_slice() == expected_replies.as_slice()),
        Err(_) => Err(Otherwise),
    }
}

/// The greatest change count stays where an output is connected: no text changes an output so often. The other outputs stay
/// unused.
pub fn change_the_greatest_count() -> Result<(), Otherwise> {
    let mut words = [Word::UNUSED; 32];
    words[2] = Word {
        bits: 0xffff_ffff_ffff_ff00,
    };
    let eight = PortRange { first: 0, last: 7 };
    let mut outputs = PlainOutputs::of(words, [Some(eight), None, None, None]);
    let input = outputs.physical(3);
    connect(&mut outputs, input, 2);
    let before = [outputs.read(0), outputs.read(1)];
    let connected = outputs.read(2);
    let after = [
        outputs.read(3),
        outputs.read(4),
        outputs.read(5),
        outputs.read(6),
        outputs.read(7),
    ];
    holds(before == [Word::UNUSED; 2] && after == [Word::UNUSED; 5])?;
    holds(connected.bits == 0xffff_ffff_ffff_ff83)
}

// The settings of words, asked for again after a refusal.
fn settings_again(alloc: Global, words: &[&str]) -> Result<Settings, Otherwise> {
    match settings(alloc, words) {
        Ok(said) => Ok(said),
        Err(_) => settings(alloc, words).map_err(|_| Otherwise),
    }
}

/// The settings are those of the words, and else 2 workers and a quantum of 256.
pub fn read_settings(alloc: Global) -> Result<(), Otherwise> {
    let said = settings_again(alloc, &["farm", "--workers", "8", "--quantum", "1"])?;
    holds(said.workers == 8 && said.quantum == 1)?;
    let unsaid = settings_again(alloc, &["farm"])?;
    holds(unsaid.workers == 2 && unsaid.quantum == 256)
}
