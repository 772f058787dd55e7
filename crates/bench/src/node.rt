//! A loop of instruction bytes through a node's bursts, `node`, and through the processor's steps alone, `processor`, so that
//! their rates can be compared.

use crate::processor::{cpu_at, place};
use crate::selection::Selection;
use crate::step::ARITHMETIC;
use bootstrap::{Node, boot_message};
use link_channels::{LinkNumber, Links};
use node_memory::Memory;
use os_link::Packet;
use std::alloc::{AllocError, Global};
use std::io;
use t414_step::run;

// Where code is loaded, and the word boundary at its end.
const START: u32 = 0x8000_0048;

const WORKSPACE: u32 = 0x8000_0064;

// The arithmetic loop, followed by four bytes where a process that is sliced saves its place.
fn code(alloc: Global) -> Result<Vec<u8>, AllocError> {
    let mut code = Vec::from_slice(alloc, &ARITHMETIC)?;
    code.extend_from_slice(&[0x40, 0x40, 0x40, 0x40])?;
    Ok(code)
}

// Gives a node its boot message, a byte a Step.
fn boot(node: &mut Node, message: &[u8]) {
    for byte in message {
        node.deliver(LinkNumber::Zero, Packet::Byte(*byte));
        let _ = node.step();
        let _ = node.take(LinkNumber::Zero);
    }
}

// Runs the loop through a node's bursts.
fn run_node(rt: &impl Print, alloc: Global, count: u64) -> io::Result<()> {
    let Ok(message) = boot_message(alloc, code(alloc)?.as_slice()) else {
        return Ok(());
    };
    let mut node = Node::open(alloc, 4096)?;
    boot(&mut node, message.as_slice());
    let burst = node.burst(count);
    println!(rt; "node: {} bytes", burst.steps)
}

// Runs the loop through the processor's steps, which begins as that node does.
fn run_processor(rt: &impl Print, alloc: Global, count: u64) -> io::Result<()> {
    let mut memory = Memory::new(alloc, 4096)?;
    if place(&mut memory, START, code(alloc)?.as_slice()).is_err() {
        return Ok(());
    }
    let mut cpu = cpu_at(START, WORKSPACE, LinkNumber::Zero.input_channel());
    let mut links = Links::new();
    let (done, _) = run(&mut cpu, &mut memory, &mut links, count);
    println!(rt; "processor: {done} bytes")
}

/// Runs the loop as it is asked for, COUNT bytes each time.
pub fn measure(rt: &impl Print, alloc: Global, selection: Selection<'_>) -> io::Result<()> {
    if selection.runs("node") {
        run_node(rt, alloc, selection.count)?;
    }
    if selection.runs("processor") {
        run_processor(rt, alloc, selection.count)?;
    }
    Ok(())
}
