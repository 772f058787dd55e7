//! What is found of a domain's nodes, in sentences.

use crate::cause::{Cause, InputWait, InsideWait, LinkWaits, OutputWait, Rendezvous};
use crate::doing::{has_ended, is_waited_for};
use crate::finding::join_wait;
use crate::words::{push_at, push_count, push_instruction, push_link, push_number};
use bootstrap::{Node, link_number_of};
use domain_core::{Device, Moment, NoMemory};
use link_channels::{LinkNumber, Process};
use record_following::{EventNotes, FaultNotes, ReplayedDomain, ZerosNotes};
use script_text::TextWriter;
use std::alloc::Global;
use t414_step::Cpu;

/// How many Steps without a packet are said to be many.
const MANY_STEPS: u64 = 100_000;

/// A domain whose nodes are explained.
#[derive(Drop)]
pub struct CauseWriter<'a> {
    alloc: Global,
    pub(crate) moment: Moment,
    pub(crate) notes: &'a EventNotes,
    most_inside: usize,
}

impl<'a> CauseWriter<'a> {
    /// A domain at the moment to which it was led. Of the processes that wait at channels in a node's memory at most that many
    /// are listed.
    pub(crate) fn of(
        alloc: Global,
        replayed: &'a ReplayedDomain,
        most_inside: usize,
    ) -> Result<CauseWriter<'a>, NoMemory> {
        Ok(CauseWriter {
            alloc,
            moment: replayed.moment()?,
            notes: replayed.notes(),
            most_inside,
        })
    }
}

impl CauseWriter<'_> {
    /// What is found of a node: why it does no more than it does, in lines.
    pub(crate) fn found_lines(
        &mut self,
        number: u8,
        cause: &Cause,
        inside: &[InsideWait],
    ) -> Result<String, NoMemory> {
        let mut text = TextWriter::new(self.alloc);
        self.write_cause(number, cause, inside, &mut text);
        self.write_overruns(number, &mut text);
        text.finish()
    }

    // Writes why a node does no more than it does.
    fn write_cause(
        &mut self,
        number: u8,
        cause: &Cause,
        inside: &[InsideWait],
        text: &mut TextWriter,
    ) {
        match cause {
            Cause::WantsControl => self.write_wanting(number, text),
            Cause::Takes { link, .. } => self.write_taking(number, *link, text),
            Cause::Answers { link, .. } => self.write_answering(number, *link, text),
            Cause::Runs => self.write_running(number, text),
            Cause::Rests(waits) => self.write_waits(number, waits, inside, text),
            Cause::Halted(_) => self.write_halted(number, text),
        }
    }

    // Whether a node's next Step would not be recorded.
    fn is_quiet(&self, number: u8) -> bool {
        match self.moment.node(number) {
            Some(node) => node.quiet(),
            None => true,
        }
    }

    // It waits for a control byte.
    fn write_wanting(&mut self, number: u8, text: &mut TextWriter) {
        if self.is_quiet(number) {
            for link in LinkNumber::all() {
                self.write_supply_if_wired(number, link, text);
            }
        }
    }

    // It takes the bytes of a task.
    fn write_taking(&mut self, number: u8, link: LinkNumber, text: &mut TextWriter) {
        if self.is_quiet(number) {
            self.write_supply(number, link, text);
        } else {
            text.push("Its next Step takes a byte.\n");
        }
    }

    // It answers a peek.
    fn write_answering(&mut self, number: u8, link: LinkNumber, text: &mut TextWriter) {
        if self.is_quiet(number) {
            self.write_sent(Device::Link { node: number, link }, text);
        } else {
            text.push("Its next Step goes on.\n");
        }
    }

    // It has something to do.
    fn write_running(&mut self, number: u8, text: &mut TextWriter) {
        if let Some(node) = self.moment.node(number) {
            self.write_next(number, node, text);
        }
        if self.notes.node(number).steps >= MANY_STEPS {
            text.push("It may run for ever.\n");
        }
    }

    // What a node that runs does next.
    fn write_next(&self, number: u8, node: &Node, text: &mut TextWriter) {
        if let Some(cpu) = node.registers()
            && cpu.running
        {
            text.push("It is at ");
            let byte = node.memory().byte(cpu.instruction).ok();
            push_instruction(text, cpu, byte);
            text.push(".\n");
            self.write_workspace(number, cpu.workspace, text);
        }
    }

    // It met a fault.
    fn write_halted(&mut self, number: u8, text: &mut TextWriter) {
        let Some(notes) = self.notes.node(number).fault else {
            return;
        };
        if let FaultNotes {
            registers: Some(cpu),
            byte,
            ..
        } = notes
        {
            text.push("It was at ");
            push_instruction(text, cpu, byte);
            push_registers(text, cpu);
            self.write_workspace(number, cpu.workspace, text);
        }
        if let Some(zeros) = notes.zeros {
            push_zeros(text, zeros);
        }
    }

    // Who waits at links and at channels in memory.
    fn write_waits(
        &mut self,
        number: u8,
        waits: &[LinkWaits; 4],
        inside: &[InsideWait],
        text: &mut TextWriter,
    ) {
        if has_ended(waits, inside) {
            self.write_join(number, text);
            self.write_untaken(number, text);
            return;
        }
        for (place, link) in LinkNumber::all().iter().enumerate() {
            if let Some(waits) = waits.get(place) {
                self.write_link(number, *link, *waits, text);
            }
        }
        self.write_inside(number, waits, inside, text);
    }

    // The join for which the last process of a node ended, if it still waits for others.
    fn write_join(&self, number: u8, text: &mut TextWriter) {
        if let Some(node) = self.moment.node(number)
            && let Some(join) = join_wait(node)
        {
            text.push("The last process ended by `endp` at ");
            text.push_word(join.ended);
            text.push(". The join at workspace ");
            text.push_word(join.workspace);
            push_number(text, " still waits for ", u64::from(join.count), " more.\n");
        }
    }

    // The bytes that came to the links of a node which has ended.
    fn write_untaken(&self, number: u8, text: &mut TextWriter) {
        let Some(node) = self.moment.node(number) else {
            return;
        };
        for link in LinkNumber::all() {
            if node.links().at(link).end.input.buffer.is_some() {
                let behind =
                    " holds a byte that nobody will take: reset the node before you boot it again.\n";
                push_number(text, "Link ", u64::from(link_number_of(link)), behind);
            }
        }
    }

    // Who waits at channels in memory.
    fn write_inside(
        &self,
        number: u8,
        waits: &[LinkWaits; 4],
        inside: &[InsideWait],
        text: &mut TextWriter,
    ) {
        let mut count: usize = 0;
        for wait in inside {
            if !is_at_link(waits, wait.process) {
                count = count.saturating_add(1);
                if count <= self.most_inside {
                    write_rendezvous(*wait, text);
                    self.write_workspace(number, wait.process.workspace, text);
                }
            }
        }
        if count > self.most_inside {
            let more = (count - self.most_inside) as u64;
            push_number(
                text,
                "",
                more,
                " more processes wait at channels in its memory.\n",
            );
        }
        if count > 0 && !is_waited_for(waits) {
            text.push("No other process is left that could come there: a deadlock.\n");
        }
    }

    // Who waits at a link.
    fn write_link(
        &mut self,
        number: u8,
        link: LinkNumber,
        waits: LinkWaits,
        text: &mut TextWriter,
    ) {
        if let Some(wait) = waits.output {
            self.write_output(number, link, wait, text);
            self.write_sent(Device::Link { node: number, link }, text);
        }
        if let Some(wait) = waits.input {
            write_input(link, wait, text);
            self.write_of(number, wait.process, text);
            self.write_supply(number, link, text);
            self.write_counts(number, link, wait, text);
        }
        if waits.watch.is_some() {
            push_at(text, waits.watch);
            push_link(text, " waits in an alternative for a byte of ", link, ".\n");
            self.write_supply(number, link, text);
        }
    }

    // Whose byte isn't acknowledged.
    fn write_output(&self, number: u8, link: LinkNumber, wait: OutputWait, text: &mut TextWriter) {
        push_at(text, wait.process);
        text.push(self.sending_words(number, wait.process));
        push_link(text, " until a byte of ", link, " is acknowledged");
        push_rest(text, wait);
        text.push(".\n");
        self.write_of(number, wait.process, text);
    }

    // That a process waits, with the instruction in which it does, if that is still in memory.
    fn sending_words(&self, number: u8, process: Option<Process>) -> &'static str {
        let (Some(node), Some(process)) = (self.moment.node(number), process) else {
            return " waits";
        };
        match node.memory().byte(process.instruction.wrapping_sub(1)) {
            Ok(0xfb) => " waits in `out`",
            Ok(0xfe) => " waits in `outbyte`",
            Ok(0xff) => " waits in `outword`",
            _ => " waits",
        }
    }

    // What is to be said of a process's workspace.
    fn write_of(&self, number: u8, process: Option<Process>, text: &mut TextWriter) {
        if let Some(process) = process {
            self.write_workspace(number, process.workspace, text);
        }
    }

    // Says so if a workspace is where the boot left it, right after the code.
    fn write_workspace(&self, number: u8, workspace: u32, text: &mut TextWriter) {
        let Some(end) = self.notes.node(number).code_end else {
            return;
        };
        let above = end.wrapping_add(3);
        if workspace == above - above % 4 {
            text.push("Its workspace ");
            text.push_word(workspace);
            text.push(
                " begins where its code ends, so what is saved below it overwrites the code: ajw moves it.\n",
            );
        }
    }

    // The bytes that a node's links dropped.
    fn write_overruns(&self, number: u8, text: &mut TextWriter) {
        let Some(node) = self.moment.node(number) else {
            return;
        };
        for link in LinkNumber::all() {
            let overruns = node.links().at(link).end.input.overruns;
            if overruns > 0 {
                push_number(text, "Link ", u64::from(link_number_of(link)), " dropped ");
                push_count(
                    text,
                    "",
                    overruns,
                    " that came while its buffer was full.\n",
                );
            }
        }
    }
}

// Whether a process waits at a link.
fn is_at_link(waits: &[LinkWaits; 4], process: Process) -> bool {
    for it in waits {
        if is_at(it, process) {
            return true;
        }
    }
    false
}

// Whether it is this process that waits.
fn is_process(waits: Option<Process>, process: Process) -> bool {
    waits == Some(process)
}

// Whether it waits at this link.
fn is_at(waits: &LinkWaits, process: Process) -> bool {
    let receives = match waits.input {
        Some(wait) => is_process(wait.process, process),
        None => false,
    };
    let sends = match waits.output {
        Some(wait) => is_process(wait.process, process),
        None => false,
    };
    receives || sends || is_process(waits.watch, process)
}

// Writes how many bytes of an output come before the one under way, if that is known, and how many come after it.
fn push_rest(text: &mut TextWriter, wait: OutputWait) {
    let before = match wait.whole {
        Some(whole) => whole.saturating_sub(wait.behind).saturating_sub(1),
        None => 0,
    };
    if before > 0 {
        push_count(text, ", with ", before, " before it");
    }
    if wait.behind > 0 {
        let and = if before > 0 { " and " } else { ", with " };
        push_count(text, and, wait.behind, " behind it");
    }
}

// Writes who waits for bytes of a link.
fn write_input(link: LinkNumber, wait: InputWait, text: &mut TextWriter) {
    push_at(text, wait.process);
    text.push(" waits in `in` for ");
    match wait.whole {
        Some(whole) if whole >= wait.left => {
            push_count(text, "", whole, " of ");
            push_link(text, "", link, ", of which ");
            push_number(text, "", u64::from(whole - wait.left), " came.\n");
        }
        _ => {
            push_count(text, "", wait.left, " more of ");
            push_link(text, "", link, ".\n");
        }
    }
}

// Writes who waits at a channel in memory.
fn write_rendezvous(wait: InsideWait, text: &mut TextWriter) {
    push_at(text, Some(wait.process));
    text.push(match wait.rendezvous {
        Rendezvous::Receives => " waits in `in` at channel ",
        Rendezvous::Sends => " waits in `out` at channel ",
        Rendezvous::Chooses => " waits in an alternative at channel ",
    });
    text.push_word(wait.channel);
    text.push(" in its memory.\n");
}

// Writes how a node came to zeros through which it ran.
fn push_zeros(text: &mut TextWriter, zeros: ZerosNotes) {
    text.push("Before that it ran through zeros, each of which is `j 0`, from ");
    text.push_word(zeros.first);
    text.push(" on. It came there from ");
    push_instruction(text, zeros.registers, Some(zeros.byte));
    text.push(".\n");
}

// Writes the registers.
fn push_registers(text: &mut TextWriter, cpu: Cpu) {
    for (name, word) in [
        (", with A ", cpu.a),
        (", B ", cpu.b),
        (", C ", cpu.c),
        (", W ", cpu.workspace),
    ] {
        text.push(name);
        text.push_word(word);
    }
    text.push(if cpu.error {
        " and Error 1.\n"
    } else {
        " and Error 0.\n"
    });
}
