//! What a film shows of a moment.
ghost use Rattle.std.specs.Prelude.{◌≡◌, ◌∷◌, [], IfOk, map, slice_get, take};
ghost use Rattle.std.specs.Option.{option_map};
ghost use Rattle.node_memory.specs.Bytes.{word_at};
ghost use Rattle.lab_film.specs.Frames.{Shows, ShowsHost, ShowsHostOf, ShowsHosts, node_frame, node_told};
ghost use Rattle.lab_film.specs.Frames.{word_read, registers_in, workspace_word, queued, queued_first, queued_behind};
ghost use Rattle.lab_film.specs.Frames.{first_waiting, next_waiting, waiting_in};

use crate::NoMemory;
use bootstrap::{Cpu, Memory, Node, NodeState, Seen};
use crossbar::Word;
use domain_core::Host;
use link_channels::{Link, LinkNumber, Process};
use process_queue::{LINK_BELOW, NOT_PROCESS, Queue};
use record_following::ReplayedDomain;
use std::alloc::Global;
use std::collections::VecDeque;

/// What a film shows of a node.
#[derive(Clone, Copy)]
pub struct NodeFrame {
    /// What a look shows of it.
    pub seen: Seen,
    /// What it is doing, with its registers if it runs.
    pub state: NodeState,
    /// If it runs, the words from its workspace on that are there.
    pub workspace: [Option<u32>; 8],
    /// If it runs, the first processes that wait for the processor, front first, and then none.
    pub waiting: [Option<Process>; 4],
    /// Its links, by number.
    pub links: [Link; 4],
}

/// The queues of a host, front first.
pub struct HostFrame {
    /// What is to be sent, with the byte whose acknowledge hasn't come.
    pub sending: Vec<u8>,
    /// What was received and not taken yet.
    pub received: Vec<u8>,
}

// Dropped by hand, since a derived `Drop` makes callers prove the drop of each field.
impl Drop for HostFrame {
    fn drop(self) {
        let HostFrame {
            sending: _,
            received: _,
        } = self;
    }
}

/// A domain as a film shows it at a moment.
pub struct Frame {
    /// How many events were recorded till then.
    pub recorded: u64,
    /// The switch words of the outputs, by virtual number.
    pub words: Vec<Word>,
    /// The nodes that are there, by number.
    pub nodes: [Option<NodeFrame>; 8],
    /// The hosts that are there, by number.
    pub hosts: [Option<HostFrame>; 4],
}

// Dropped by hand, since a derived `Drop` makes callers prove the drop of each field.
impl Drop for Frame {
    fn drop(self) {
        let Frame {
            recorded: _,
            words: _,
            nodes: _,
            hosts: _,
        } = self;
    }
}

// The bytes of a queue, front first.
fn bytes_of(alloc: Global, queue: &VecDeque<u8>) -> Result<Vec<u8>, NoMemory>
    ensures { IfOk result (λ bytes. bytes.items ≡ queue.now.items) }
{
    let (front, back) = queue.as_slices();
    let mut bytes = Vec::with_capacity(alloc, queue.len())?;
    bytes.extend_from_slice(front)?;
    bytes.extend_from_slice(back)?;
    Ok(bytes)
}

fn frame_of_host(alloc: Global, host: &Host) -> Result<HostFrame, NoMemory>
    ensures { IfOk result (ShowsHost host.now) }
{
    Ok(HostFrame {
        sending: bytes_of(alloc, host.sending())?,
        received: bytes_of(alloc, host.received_bytes())?,
    })
}

// The host of this number, if there is one.
fn host_at(
    alloc: Global,
    replayed: &ReplayedDomain,
    number: u8,
) -> Result<Option<HostFrame>, NoMemory>
    ensures { IfOk result (ShowsHostOf (slice_get replayed.now.machine.devices.hosts number)) }
{
    match replayed.host(number) {
        Some(host) => Ok(Some(frame_of_host(alloc, host)?)),
        None => Ok(None),
    }
}

// A word of memory, if its address is one.
fn word_in(memory: &Memory, address: u32) -> Option<u32>
    ensures { result ≡ word_read (word_at memory.now address) }
{
    match memory.word(address) {
        Ok(word) => Some(word),
        Err(_) => None,
    }
}

/// The registers of a node that runs.
pub fn registers_in(state: NodeState) -> Option<Cpu>
    ensures { result ≡ registers_in state }
{
    match state {
        NodeState::Runs(cpu) => Some(cpu),
        _ => None,
    }
}

// The word that lies so far above the workspace.
fn workspace_word(node: &Node, offset: u32) -> Option<u32>
    ensures { result ≡ workspace_word node.now offset }
{
    match registers_in(node.state()) {
        Some(cpu) => word_in(node.memory(), cpu.workspace.wrapping_add(offset)),
        None => None,
    }
}

// A process that waits for the processor.
fn process_in_queue(memory: &Memory, workspace: u32) -> Option<Process>
    ensures { result ≡ queued memory.now workspace }
{
    match word_in(memory, workspace.wrapping_sub(4)) {
        Some(instruction) => Some(Process {
            workspace,
            instruction,
        }),
        None => None,
    }
}

// The first process of a queue.
fn queued_first(memory: &Memory, queue: Queue) -> Option<Process>
    ensures { result ≡ queued_first memory.now queue }
{
    if queue.front == NOT_PROCESS {
        None
    } else {
        process_in_queue(memory, queue.front)
    }
}

// The process after another one in a queue.
fn queued_behind(memory: &Memory, queue: Queue, before: Process) -> Option<Process>
    ensures { result ≡ queued_behind memory.now queue before }
{
    if before.workspace == queue.back {
        return None;
    }
    match word_in(memory, before.workspace.wrapping_sub(LINK_BELOW)) {
        Some(workspace) => process_in_queue(memory, workspace),
        None => None,
    }
}

// The first process that waits for the processor.
fn first_waiting(node: &Node) -> Option<Process>
    ensures { result ≡ first_waiting node.now }
{
    match registers_in(node.state()) {
        Some(cpu) => queued_first(node.memory(), cpu.queue),
        None => None,
    }
}

// The process after another one that waits for the processor, if there are both.
fn next_waiting(node: &Node, before: Option<Process>) -> Option<Process>
    ensures { result ≡ next_waiting node.now before }
{
    match (registers_in(node.state()), before) {
        (Some(cpu), Some(before)) => queued_behind(node.memory(), cpu.queue, before),
        _ => None,
    }
}

// The first processes that wait for the processor.
fn waiting_in(node: &Node) -> [Option<Process>; 4]
    ensures { result ≡ waiting_in node.now }
{
    let one = first_waiting(node);
    let two = next_waiting(node, one);
    let three = next_waiting(node, two);
    [one, two, three, next_waiting(node, three)]
}

fn frame_of_node(node: &Node) -> NodeFrame
    ensures { result ≡ node_frame node.now }
{
    let links = node.links();
    NodeFrame {
        seen: node.look(),
        state: node.state(),
        workspace: [
            workspace_word(node, 0),
            workspace_word(node, 4),
            workspace_word(node, 8),
            workspace_word(node, 12),
            workspace_word(node, 16),
            workspace_word(node, 20),
            workspace_word(node, 24),
            workspace_word(node, 28),
        ],
        waiting: waiting_in(node),
        links: [
            links.at(LinkNumber::Zero),
            links.at(LinkNumber::One),
            links.at(LinkNumber::Two),
            links.at(LinkNumber::Three),
        ],
    }
}

// The node of this number, if there is one.
fn node_at(replayed: &ReplayedDomain, number: u8) -> Option<NodeFrame>
    ensures { result ≡ node_told replayed.now number }
{
    match replayed.node(number) {
        Some(node) => Some(frame_of_node(node)),
        None => None,
    }
}

// The switch words of the outputs.
#[tactic(auto, using(crate::proofs::Words::next_word))]
fn switch_words(alloc: Global, replayed: &mut ReplayedDomain) -> Result<Vec<Word>, NoMemory>
    ensures words { IfOk result (λ words. words.items ≡ take replayed.old.machine.part.count replayed.old.machine.switch.words) }
    ensures unchanged { replayed.new ≡ replayed.old }
{
    let mut words = Vec::new(alloc);
    for output in 0..replayed.part().count() {
        words.push(replayed.word(output))?;
    }
    Ok(words)
}

fn hosts_of(alloc: Global, replayed: &ReplayedDomain) -> Result<[Option<HostFrame>; 4], NoMemory>
    ensures { IfOk result (ShowsHosts replayed.now 0) }
{
    Ok([
        host_at(alloc, replayed, 0)?,
        host_at(alloc, replayed, 1)?,
        host_at(alloc, replayed, 2)?,
        host_at(alloc, replayed, 3)?,
    ])
}

fn nodes_of(replayed: &ReplayedDomain) -> [Option<NodeFrame>; 8]
    ensures { result ≡ map (node_told replayed.now) (0 ∷ 1 ∷ 2 ∷ 3 ∷ 4 ∷ 5 ∷ 6 ∷ 7 ∷ []) }
{
    [
        node_at(replayed, 0),
        node_at(replayed, 1),
        node_at(replayed, 2),
        node_at(replayed, 3),
        node_at(replayed, 4),
        node_at(replayed, 5),
        node_at(replayed, 6),
        node_at(replayed, 7),
    ]
}

/// What a film shows of a domain at a moment. Nothing changes.
///
/// # Errors
///
/// `NoMemory` where the words or the queues can't be copied.
pub fn frame_of(alloc: Global, replayed: &mut ReplayedDomain) -> Result<Frame, NoMemory>
    ensures shows { IfOk result (Shows replayed.old) }
    ensures unchanged { replayed.new ≡ replayed.old }
{
    Ok(Frame {
        recorded: replayed.recorded_events(),
        words: switch_words(alloc, replayed)?,
        nodes: nodes_of(replayed),
        hosts: hosts_of(alloc, replayed)?,
    })
}
