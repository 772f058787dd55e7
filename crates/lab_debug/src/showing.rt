//! What is shown of a domain at a moment.

use answer_text::write_seen;
use bootstrap::{Node, link_number_of};
use domain_core::{Device, Host, Moment, NoMemory, device_at};
use event_text::{write_event, write_user};
use lab_timeline::Timeline;
use link_channels::LinkNumber;
use node_trace::{write_all_registers, write_link_fields, write_packet};
use plan_views::write_device;
use process_queue::{LINK_BELOW, NOT_PROCESS};
use record_following::RecordedLine;
use script_text::TextWriter;
use std::collections::VecDeque;

/// The most words of memory that one command shows.
const MOST_WORDS: u64 = 16_384;

/// How many words are in a line.
const WORDS_A_LINE: u32 = 4;

/// The most bytes of a host's queue that are shown.
const MOST_BYTES: usize = 64;

/// How many lines of the record are shown before the next one.
const LINES_BEFORE: usize = 5;

// Writes what an event was called, and who asked for it.
fn write_call(line: &RecordedLine, text: &mut TextWriter) {
    let written = write_event(text.as_mut_string(), line.call.event);
    text.keep_failure(written);
    text.push(" ");
    let written = write_user(text.as_mut_string(), line.call.by);
    text.keep_failure(written);
}

// Writes a line of the record, which begins with this event.
fn write_line(line: &RecordedLine, first: u64, text: &mut TextWriter) {
    text.push_decimal(first);
    let times = line.call.times;
    if times > 1 {
        text.push("-");
        text.push_decimal(first.saturating_add(times - 1));
        text.push(": ");
        text.push_decimal(times);
        text.push(" times ");
    } else {
        text.push(": ");
    }
    write_call(line, text);
    if let Some(answer) = line.answer {
        text.push(" = ");
        text.push(answer);
    }
    text.push("\n");
}

// Writes `count` lines of the record, from the one with the event `from` on. The line of the next event is marked.
fn write_lines(timeline: &Timeline, from: u64, count: u64, text: &mut TextWriter) {
    let next = timeline.here().recorded_events().saturating_add(1);
    let mut first: u64 = 1;
    let mut left = count;
    for line in timeline.lines() {
        let behind = first.saturating_add(line.call.times);
        if behind > from && left > 0 {
            text.push(if first <= next && next < behind {
                "> "
            } else {
                "  "
            });
            write_line(line, first, text);
            left -= 1;
        }
        first = behind;
    }
    if left > 0 {
        text.push(if next == first {
            "> the record ends\n"
        } else {
            "  the record ends\n"
        });
    }
}

// The first event of the line that is `before` lines before the one with the next event, or of the first line.
fn events_around(timeline: &Timeline, before: usize) -> u64 {
    let next = timeline.here().recorded_events().saturating_add(1);
    let mut first: u64 = 1;
    let mut index: usize = 0;
    for line in timeline.lines() {
        let behind = first.saturating_add(line.call.times);
        if behind > next {
            break;
        }
        first = behind;
        index = index.saturating_add(1);
    }
    let mut begins: u64 = 1;
    for line in timeline.lines().iter().take(index.saturating_sub(before)) {
        begins = begins.saturating_add(line.call.times);
    }
    begins
}

/// Writes how many events were done, and the last of them.
pub fn write_place(timeline: &Timeline, text: &mut TextWriter) {
    let recorded = timeline.here().recorded_events();
    text.push("after ");
    text.push_decimal(recorded);
    text.push(" of ");
    text.push_decimal(timeline.events());
    text.push(" events");
    let mut behind: u64 = 0;
    for line in timeline.lines() {
        let before = behind;
        behind = behind.saturating_add(line.call.times);
        if before < recorded && recorded <= behind {
            text.push(": ");
            write_call(line, text);
            write_answer(line, text);
            break;
        }
    }
    text.push("\n");
}

/// Writes one event of a line, with its answer.
pub fn write_said(line: &RecordedLine, text: &mut TextWriter) {
    write_call(line, text);
    write_answer(line, text);
    text.push("\n");
}

// Writes what one event of a line was answered.
fn write_answer(line: &RecordedLine, text: &mut TextWriter) {
    match line.answer {
        Some(_) if line.call.times > 1 => text.push(" = ran"),
        Some(answer) => {
            text.push(" = ");
            text.push(answer);
        }
        None => {}
    }
}

/// Writes what each node does.
pub fn write_look(timeline: &Timeline, text: &mut TextWriter) {
    for number in 0..8u8 {
        if let Some(node) = timeline.here().node(number) {
            text.push("node ");
            text.push_decimal(u64::from(number));
            text.push(" ");
            write_state(node, text);
        }
    }
}

// Writes what a node does.
fn write_state(node: &Node, text: &mut TextWriter) {
    let written = write_seen(text.as_mut_string(), node.look());
    text.keep_failure(written);
    text.push("\n");
}

/// Writes the registers of a node.
pub fn write_registers(node: &Node, text: &mut TextWriter) {
    match node.registers() {
        Some(cpu) => {
            text.push("registers");
            write_all_registers(text, &cpu);
            text.push("\n");
        }
        None => {
            text.push("no registers: ");
            write_state(node, text);
        }
    }
}

// Writes words of memory in one line, as far as they are there, and tells how many.
fn write_words(node: &Node, place: u32, count: u32, text: &mut TextWriter) -> u32 {
    let mut written: u32 = 0;
    for number in 0..count {
        let Ok(word) = node
            .memory()
            .word(place.wrapping_add(number.wrapping_mul(4)))
        else {
            break;
        };
        if number == 0 {
            text.push_word(place);
            text.push(" ");
        }
        text.push(" ");
        text.push_word(word);
        written = number + 1;
    }
    if written > 0 {
        text.push("\n");
    }
    written
}

/// Writes words of a node's memory.
pub fn write_memory(node: &Node, address: u32, count: u64, text: &mut TextWriter) {
    let mut place = address - address % 4;
    let mut left = count.min(MOST_WORDS) as u32;
    for _ in 0..MOST_WORDS {
        let row = left.min(WORDS_A_LINE);
        if row == 0 {
            return;
        }
        let written = write_words(node, place, row, text);
        place = place.wrapping_add(written.wrapping_mul(4));
        if written < row {
            text.push_word(place);
            text.push(" lies outside memory\n");
            return;
        }
        left -= row;
    }
}

// Writes a process: its workspace, and where it goes on.
fn write_process(what: &str, workspace: u32, instruction: Option<u32>, text: &mut TextWriter) {
    text.push(what);
    text.push_word(workspace);
    text.push(" at ");
    match instruction {
        Some(instruction) => text.push_word(instruction),
        None => text.push("-"),
    }
    text.push("\n");
}

/// Writes the process of a node, and those that wait for the processor.
pub fn write_queue(node: &Node, text: &mut TextWriter) {
    let Some(cpu) = node.registers() else {
        text.push("no process: ");
        write_state(node, text);
        return;
    };
    if cpu.running {
        write_process("runs W ", cpu.workspace, Some(cpu.instruction), text);
    } else {
        text.push("no process runs\n");
    }
    let mut workspace = cpu.queue.front;
    if workspace == NOT_PROCESS {
        text.push("none waits\n");
        return;
    }
    for _ in 0..MOST_WORDS {
        let instruction = node.memory().word(workspace.wrapping_sub(4)).ok();
        write_process("waits W ", workspace, instruction, text);
        if workspace == cpu.queue.back {
            break;
        }
        match node.memory().word(workspace.wrapping_sub(LINK_BELOW)) {
            Ok(next) => workspace = next,
            Err(_) => break,
        }
    }
}

/// Writes the links of a node.
pub fn write_links(node: &Node, text: &mut TextWriter) {
    for number in LinkNumber::all() {
        text.push("link ");
        text.push_decimal(u64::from(link_number_of(number)));
        write_link_fields(text, &node.links().at(number));
        text.push("\n");
    }
}

// Writes bytes of a queue, the first ones if there are many.
fn write_bytes(queue: &VecDeque<u8>, text: &mut TextWriter) {
    if queue.is_empty() {
        text.push("-");
    }
    for byte in queue.iter().take(MOST_BYTES) {
        text.push_hex_byte(*byte);
    }
    if queue.len() > MOST_BYTES {
        text.push("..");
    }
}

// Writes the queues of a host.
fn write_host(host: &Host, text: &mut TextWriter) {
    text.push(": to send ");
    write_bytes(host.sending(), text);
    text.push(", received ");
    write_bytes(host.received_bytes(), text);
    text.push(", waits to leave: ");
    write_packet(text, host.waiting());
    text.push("\n");
}

/// Writes what the hosts are to send and have received.
pub fn write_hosts(timeline: &Timeline, text: &mut TextWriter) {
    for number in 0..4u8 {
        if let Some(host) = timeline.here().host(number) {
            write_device(text, timeline.plan(), 0, Some(Device::Host(number)));
            write_host(host, text);
        }
    }
}

// Whether an input drives an output.
fn is_driven(moment: &mut Moment, input: u8, output: u8) -> bool {
    input < moment.part().count()
        && output < 32
        && moment.port_state(input).drives >> output & 1 == 1
}

// The input that drives an output.
fn input_of(moment: &mut Moment, output: u8) -> Option<u8> {
    for input in 0..moment.part().count() {
        if is_driven(moment, input, output) {
            return Some(input);
        }
    }
    None
}

// Whether an output that is driven is ready.
fn readiness(moment: &mut Moment, output: u8) -> Option<bool> {
    if output >= moment.part().count() {
        return None;
    }
    Some(moment.word(output).connection()?.ready)
}

/// Writes a port with the device that is joined there.
pub fn write_port(timeline: &Timeline, port: u8, text: &mut TextWriter) {
    text.push_decimal(u64::from(port));
    text.push(" (");
    let device = device_at(timeline.here().part(), port);
    write_device(text, timeline.plan(), 0, device);
    text.push(")");
}

// Writes what drives an output, if it is driven, and tells whether it is.
fn write_drive(
    timeline: &Timeline,
    moment: &mut Moment,
    output: u8,
    text: &mut TextWriter,
) -> bool {
    let Some(is_ready) = readiness(moment, output) else {
        return false;
    };
    let Some(input) = input_of(moment, output) else {
        return false;
    };
    text.push("output ");
    write_port(timeline, output, text);
    text.push(": input ");
    write_port(timeline, input, text);
    text.push(if is_ready {
        ", ready\n"
    } else {
        ", not ready\n"
    });
    true
}

/// Writes what drives each output that is driven.
pub fn write_switch(timeline: &Timeline, text: &mut TextWriter) -> Result<(), NoMemory> {
    let mut moment = timeline.here().moment()?;
    let mut is_any = false;
    for output in 0..moment.part().count() {
        if write_drive(timeline, &mut moment, output, text) {
            is_any = true;
        }
    }
    if !is_any {
        text.push("no output is driven\n");
    }
    Ok(())
}

/// Writes `count` lines of the record, from an event on, or around the next one.
pub fn write_events(timeline: &Timeline, from: Option<u64>, count: u64, text: &mut TextWriter) {
    let from = match from {
        Some(from) => from,
        None => events_around(timeline, LINES_BEFORE),
    };
    write_lines(timeline, from, count, text);
}
