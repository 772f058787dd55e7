//! The cause of a node is found in its state.

ghost use Rattle.std.specs.Prelude.{◌≡◌, ◌↔◌, IfOk, IfSome, None, slice_get};
ghost use Rattle.node_causes.specs.Causes.{waiter_at, last_asked, last_sent, input_wait, output_wait, watcher, link_waits, IsCause};
ghost use Rattle.node_causes.specs.Causes.{join_of, join_wait, is_waiting, met_by, inside_wait_at, inside_waits};

use crate::cause::{Cause, InputWait, InsideWait, JoinWait, LinkWaits, OutputWait, Rendezvous};
use bootstrap::{Node, NodeState};
use link_channels::{Link, LinkNumber, Process, WAITING};
use node_memory::{Fault, Memory, NoMemory};
use process_queue::NOT_PROCESS;
use record_following::ReplayedDomain;
use std::alloc::Global;
use t414_step::Cpu;

/// The first word that can be a channel in memory. It follows the nine words of the links and of the event channel.
const FIRST_INSIDE: u32 = 0x8000_0024;

/// How many words follow in the largest memory, that one counted.
const INSIDE_WORDS: u32 = 16_375;

// The process whose descriptor is in a channel's word, and where it goes on.
fn waiter_at(memory: &Memory, channel: u32) -> Option<Process>
    ensures { result ≡ waiter_at memory.now channel }
{
    let Ok(descriptor) = memory.word(channel) else {
        return None;
    };
    if descriptor == NOT_PROCESS || descriptor % 2 == 0 {
        return None;
    }
    let workspace = descriptor - descriptor % 4;
    match memory.word(workspace.wrapping_sub(4)) {
        Ok(instruction) => Some(Process {
            workspace,
            instruction,
        }),
        Err(_) => None,
    }
}

// How many bytes a process asked for, if it was the last to leave the processor.
fn last_asked(state: NodeState, process: Process) -> Option<u32>
    ensures { result ≡ last_asked state process }
{
    match state {
        NodeState::Runs(cpu) if cpu.workspace == process.workspace => Some(cpu.a),
        _ => None,
    }
}

// How many bytes a process sends in all, by the byte of its instruction.
fn last_sent(state: NodeState, process: Process, byte: Result<u8, Fault>) -> Option<u32>
    ensures { result ≡ last_sent state process byte }
{
    match byte {
        Ok(0xfb) => last_asked(state, process),
        Ok(0xfe) => Some(1),
        Ok(0xff) => Some(4),
        _ => None,
    }
}

// Who waits for bytes of a link.
fn input_wait(node: &Node, number: LinkNumber, link: Link) -> Option<InputWait>
    ensures { result ≡ input_wait node.now number link }
{
    if link.input_count == 0 {
        return None;
    }
    let process = waiter_at(node.memory(), number.input_channel());
    let whole = match process {
        Some(process) => last_asked(node.state(), process),
        None => None,
    };
    Some(InputWait {
        process,
        left: link.input_count,
        whole,
    })
}

// Who waits for an acknowledge at a link.
fn output_wait(node: &Node, number: LinkNumber, link: Link) -> Option<OutputWait>
    ensures { result ≡ output_wait node.now number link }
{
    if !link.end.output.awaits {
        return None;
    }
    let process = waiter_at(node.memory(), number.output_channel());
    let whole = match process {
        Some(process) => {
            let byte = node.memory().byte(process.instruction.wrapping_sub(1));
            last_sent(node.state(), process, byte)
        }
        None => None,
    };
    Some(OutputWait {
        process,
        behind: link.output_count,
        whole,
    })
}

// The process of an alternative that is to be notified of a byte.
fn watcher(node: &Node, number: LinkNumber, link: Link) -> Option<Process>
    ensures { result ≡ watcher node.now number link }
{
    if link.watched {
        waiter_at(node.memory(), number.input_channel())
    } else {
        None
    }
}

// What a link of a node is waited for.
fn link_waits(node: &Node, number: LinkNumber) -> LinkWaits
    ensures { result ≡ link_waits node.now number }
{
    let link = node.links().at(number);
    LinkWaits {
        input: input_wait(node, number, link),
        output: output_wait(node, number, link),
        watch: watcher(node, number, link),
    }
}

/// Why a node does no more than it does.
pub fn cause_in(node: &Node) -> Cause
    ensures { IsCause node.now result }
{
    match node.state() {
        NodeState::WantsControl => Cause::WantsControl,
        NodeState::Takes { link, task } => Cause::Takes { link, task },
        NodeState::Answers {
            link,
            left,
            word: _,
        } => Cause::Answers { link, left },
        NodeState::Runs(_) => {
            if node.quiet() {
                Cause::Rests([
                    link_waits(node, LinkNumber::Zero),
                    link_waits(node, LinkNumber::One),
                    link_waits(node, LinkNumber::Two),
                    link_waits(node, LinkNumber::Three),
                ])
            } else {
                Cause::Runs
            }
        }
        NodeState::Halted(fault) => Cause::Halted(fault),
    }
}

/// Why a node does no more than it does, at the moment to which a domain was led. `None` where there is no such node.
pub fn cause_of(replayed: &ReplayedDomain, node: u8) -> Option<Cause>
    ensures cause { IfSome result (λ cause. IfSome (slice_get replayed.now.machine.devices.nodes node) (λ n. IsCause n cause)) }
    ensures there { (result ≡ None) ↔ (slice_get replayed.now.machine.devices.nodes node ≡ None) }
{
    match replayed.node(node) {
        Some(node) => Some(cause_in(node)),
        None => None,
    }
}

// The join of a process that ended by `endp` and has left the processor, by the byte before the place where it would go on and the
// word that counts.
fn join_of(cpu: Cpu, byte: Result<u8, Fault>, count: Result<u32, Fault>) -> Option<JoinWait>
    ensures { result ≡ join_of cpu byte count }
{
    match (byte, count) {
        (Ok(0xf3), Ok(count)) if !cpu.running => Some(JoinWait {
            ended: cpu.instruction.wrapping_sub(1),
            workspace: cpu.a,
            count,
        }),
        _ => None,
    }
}

/// The join of a node for which the last process ended that left the processor, if it waits for others.
pub fn join_wait(node: &Node) -> Option<JoinWait>
    ensures { result ≡ join_wait node.now }
{
    let NodeState::Runs(cpu) = node.state() else {
        return None;
    };
    let byte = node.memory().byte(cpu.instruction.wrapping_sub(1));
    let count = node.memory().word(cpu.a.wrapping_add(4));
    join_of(cpu, byte, count)
}

// Whether the word for the state of an alternative says that it waits.
fn is_waiting(state: Result<u32, Fault>) -> bool
    ensures { result ≡ is_waiting state }
{
    match state {
        Ok(word) => word == WAITING,
        Err(_) => false,
    }
}

// What an instruction that ends with this byte wants of a channel.
fn met_by(byte: u8, state: Result<u32, Fault>) -> Option<Rendezvous>
    ensures { result ≡ met_by byte state }
{
    match byte {
        0xf7 => Some(Rendezvous::Receives),
        0xfb | 0xfe | 0xff => Some(Rendezvous::Sends),
        0xf4 if is_waiting(state) => Some(Rendezvous::Chooses),
        _ => None,
    }
}

// Who waits at the channel in this word.
fn inside_wait_at(memory: &Memory, channel: u32) -> Option<InsideWait>
    ensures { result ≡ inside_wait_at memory.now channel }
{
    let process = waiter_at(memory, channel)?;
    let Ok(byte) = memory.byte(process.instruction.wrapping_sub(1)) else {
        return None;
    };
    let state = memory.word(process.workspace.wrapping_sub(12));
    let rendezvous = met_by(byte, state)?;
    Some(InsideWait {
        channel,
        process,
        rendezvous,
    })
}

/// Who waits at channels in memory, lowest channel first. `NoMemory` where the list can't be kept.
///
/// A word counts as a channel if it is the descriptor of a process that goes on after an instruction which waits. So does a
/// copy of such a descriptor that a program keeps for itself.
pub fn inside_waits(alloc: Global, memory: &Memory) -> Result<Vec<InsideWait>, NoMemory>
    ensures { IfOk result (λ waits. waits.items ≡ inside_waits memory.now) }
{
    (0..INSIDE_WORDS)
        .map(|word| FIRST_INSIDE + 4 * word)
        .filter_map(|channel| inside_wait_at(memory, channel))
        .collect(alloc)
}
