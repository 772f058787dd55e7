//! What the debugger does for a command.

ghost use Rattle.std.specs.Prelude.{OnOk};
ghost use Rattle.record_following.specs.RecordCursor.{IsMomentAt};

use crate::code::write_code;
use crate::command::{Address, DebugCommand, Sought, write_help};
use crate::fault::DebugFault;
use crate::lines::{add_line, write_no_code};
use crate::showing::{
    write_events, write_hosts, write_links, write_look, write_memory, write_place, write_queue,
    write_registers, write_said, write_switch,
};
use crate::talking::FoundProgram;
use crate::tracing::{concerns, write_next_move, write_next_step};
use crate::until::{Goal, seek, seek_back};
use crate::variables::{memory_found, variable_address, write_variables};
use crate::waiting::write_waits;
use bootstrap::Node;
use domain_core::{Event, NoMemory};
use lab_timeline::Timeline;
use node_causes::explain_moment;
use node_trace::{Program, ProgramLine, write_stopped};
use record_following::{FollowFault, RecordedLine, WhyFault};
use script_text::TextWriter;
use std::alloc::Global;
use step_meter::StepMeter;

/// The most events that one command shows.
const MOST_TRACED: u64 = 100_000;

/// The program of a node.
#[derive(Drop)]
struct NodeProgram {
    node: u8,
    program: Program,
}

/// A record at one of its moments, and the programs of its nodes.
pub struct Debugger<'a> {
    alloc: Global,
    timeline: Timeline<'a>,
    programs: Vec<NodeProgram>,
}

// Dropped by hand, since a derived `Drop` makes callers prove the drop of each field.
impl Drop for Debugger<'_> {
    fn drop(self) {
        let Debugger {
            alloc: _,
            timeline: _,
            programs: _,
        } = self;
    }
}

/// Where it is looked.
#[derive(Clone, Copy)]
enum Direction {
    On,
    Back,
}

impl<'a> Debugger<'a> {
    /// Reads a record, and is at its end. The meter is asked for the Steps of its lines.
    pub fn open<M: StepMeter>(
        alloc: Global,
        record: &'a [u8],
        meter: &mut M,
    ) -> Result<Debugger<'a>, DebugFault> {
        Ok(Debugger {
            alloc,
            timeline: Timeline::open(alloc, record, meter)?,
            programs: Vec::new(alloc),
        })
    }

    /// How many events were done up to the moment that is shown.
    pub fn recorded_events(&self) -> u64 {
        self.timeline.here().recorded_events()
    }

    /// Writes what is said at the beginning.
    pub fn greet(&self, text: &mut TextWriter) {
        if self.timeline.is_cut() {
            text.push("The last line is cut, and was left out.\n");
        }
        write_place(&self.timeline, text);
    }

    /// Takes the program of a node, if it is one, or says what is wrong with it.
    pub fn take_program(
        &mut self,
        node: u8,
        found: FoundProgram,
        text: &mut TextWriter,
    ) -> Result<(), DebugFault> {
        if self.node(node, text).is_none() {
            return Ok(());
        }
        match found {
            FoundProgram::Program(program) => self.programs.push(NodeProgram { node, program })?,
            FoundProgram::Wrong(mistakes) => text.push(mistakes.as_str()),
            FoundProgram::Unreadable => {}
        }
        Ok(())
    }

    // A node, or that there is none.
    fn node(&self, number: u8, text: &mut TextWriter) -> Option<&Node> {
        let node = self.timeline.here().node(number);
        if node.is_none() {
            text.push("there is no node ");
            text.push_decimal(u64::from(number));
            text.push(": look lists them\n");
        }
        node
    }

    // The program of a node, the last that was taken.
    fn program(&self, node: u8) -> Option<&Program> {
        let mut found = None;
        for it in &self.programs {
            if it.node == node {
                found = Some(&it.program);
            }
        }
        found
    }

    // The lines of a node's program.
    fn lines(&self, node: u8) -> Result<Vec<ProgramLine<'_>>, NoMemory> {
        match self.program(node) {
            Some(program) => program.lines(self.alloc),
            None => Ok(Vec::new(self.alloc)),
        }
    }

    // An address of a node, or that there is none.
    fn address(
        &self,
        node: u8,
        address: Address,
        text: &mut TextWriter,
    ) -> Result<Option<u32>, NoMemory> {
        let label = match address {
            Address::Number(number) => return Ok(Some(number)),
            Address::Label(label) => label,
        };
        let Some(program) = self.program(node) else {
            write_unknown(text, label, node);
            text.push(": try program K FILE\n");
            return Ok(None);
        };
        if !program.has_labels() {
            return Ok(variable_address(program, label, node, text));
        }
        let found = program.address_of(self.alloc, label)?;
        if found.is_none() {
            write_unknown(text, label, node);
            text.push(
                " (def and local name no labels, and an address begins with a digit, as 0f)\n",
            );
        }
        Ok(found)
    }

    // What became of it, with the line at which it failed.
    fn at_line(&self, done: Result<(), FollowFault>) -> Result<(), DebugFault> {
        let Err(fault) = done else {
            return Ok(());
        };
        let number = match self.timeline.upcoming() {
            Some(line) => line.number,
            None => 0,
        };
        Err(DebugFault::from(WhyFault::of_line(number, fault)))
    }

    // Goes to the moment after this number of events, and says where that is.
    fn go_to(&mut self, event: u64, text: &mut TextWriter) -> Result<(), FollowFault>
        ensures { OnOk result (IsMomentAt self.new.timeline.plan self.new.timeline.lines event self.new.timeline.here) }
    {
        self.timeline.go(event)?;
        write_place(&self.timeline, text);
        Ok(())
    }

    // Shows what the next event does, which is one of this line, if it concerns the node.
    fn show_next(
        &mut self,
        line: &RecordedLine,
        only: Option<u8>,
        text: &mut TextWriter,
    ) -> Result<(), NoMemory> {
        let event = line.call.event;
        if let Some(number) = only
            && !concerns(&mut self.timeline, event, number)
        {
            return Ok(());
        }
        match event {
            Event::Step(number) => return self.show_step(number, text),
            Event::Move(port) => write_next_move(&mut self.timeline, port, text),
            _ => write_said(line, text),
        }
        Ok(())
    }

    // Shows what the next Step of a node does.
    fn show_step(&self, number: u8, text: &mut TextWriter) -> Result<(), NoMemory> {
        match self.timeline.here().node(number) {
            Some(node) => write_next_step(node, number, self.lines(number)?.as_slice(), text),
            None => Ok(()),
        }
    }

    // Shows what the next event does, as `show_next` does it, and goes one event on.
    fn show_and_go(
        &mut self,
        line: &RecordedLine,
        only: Option<u8>,
        text: &mut TextWriter,
    ) -> Result<(), FollowFault> {
        self.show_next(line, only, text)?;
        let next = self.recorded_events().saturating_add(1);
        self.timeline.go(next)
    }

    // Goes `count` events on, at most `MOST_TRACED`, and shows what each does, or only those that concern a node.
    fn trace(
        &mut self,
        count: u64,
        only: Option<u8>,
        text: &mut TextWriter,
    ) -> Result<(), FollowFault> {
        if let Some(number) = only
            && self.node(number, text).is_none()
        {
            return Ok(());
        }
        for _ in 0..count.min(MOST_TRACED) {
            let Some(line) = self.timeline.upcoming() else {
                break;
            };
            self.show_and_go(&line, only, text)?;
        }
        write_place(&self.timeline, text);
        Ok(())
    }

    /// Goes to the opening, and shows what each event does, up to `most` Steps.
    pub fn trace_from_opening(
        &mut self,
        most: u64,
        text: &mut TextWriter,
    ) -> Result<(), DebugFault> {
        let done = self.trace_steps(most, text);
        self.at_line(done)
    }

    // Does the same, if the record can be done again.
    fn trace_steps(&mut self, most: u64, text: &mut TextWriter) -> Result<(), FollowFault> {
        self.timeline.go(0)?;
        let mut steps: u64 = 0;
        for _ in 0..u64::MAX {
            let Some(line) = self.timeline.upcoming() else {
                break;
            };
            if let Event::Step(_) = line.call.event {
                if steps >= most {
                    write_stopped(most, text);
                    break;
                }
                steps = steps.saturating_add(1);
            }
            self.show_and_go(&line, None, text)?;
        }
        Ok(())
    }

    // What is looked for. Its addresses are added as numbers to a list, which is empty before.
    fn goal<'g>(
        &self,
        sought: Sought,
        addresses: &'g mut Vec<u32>,
        text: &mut TextWriter,
    ) -> Result<Option<Goal<'g>>, NoMemory> {
        Ok(match sought {
            Sought::Fault => Some(Goal::Fault),
            Sought::Lost => Some(Goal::Lost),
            Sought::Byte(port) => Some(Goal::Byte(port)),
            Sought::Jump { node } => match self.node(node, text) {
                Some(_) => Some(Goal::Jump { node }),
                None => None,
            },
            Sought::At { node, address } => match self.address_at(node, address, text)? {
                Some(address) => {
                    addresses.push(address)?;
                    Some(Goal::At { node, addresses })
                }
                None => None,
            },
            Sought::Line { node, line } => {
                self.add_line_of(node, line, addresses, text)?;
                if addresses.is_empty() {
                    None
                } else {
                    Some(Goal::At { node, addresses })
                }
            }
            Sought::Write { node, address } => match self.address_at(node, address, text)? {
                Some(address) => Some(Goal::Write {
                    node,
                    address: address - address % 4,
                }),
                None => None,
            },
        })
    }

    // Adds where the code of a line of a node's program begins, or says that there is none.
    fn add_line_of(
        &self,
        node: u8,
        line: u32,
        addresses: &mut Vec<u32>,
        text: &mut TextWriter,
    ) -> Result<(), NoMemory> {
        let Some(program) = self.program_at(node, "lines", text) else {
            return Ok(());
        };
        let begins = program.begins(self.alloc)?;
        add_line(begins.as_slice(), line, addresses)?;
        if addresses.is_empty() {
            write_no_code(begins.as_slice(), line, node, text);
        }
        Ok(())
    }

    // The program of a node that is there, or that nothing of this kind is known of it.
    fn program_at(&self, node: u8, what: &str, text: &mut TextWriter) -> Option<&Program> {
        let _ = self.node(node, text)?;
        let program = self.program(node);
        if program.is_none() {
            text.push("no ");
            text.push(what);
            text.push(" are known of node ");
            text.push_decimal(u64::from(node));
            text.push(": try program K FILE\n");
        }
        program
    }

    // An address of a node that is there, or what there isn't.
    fn address_at(
        &self,
        node: u8,
        address: Address,
        text: &mut TextWriter,
    ) -> Result<Option<u32>, NoMemory> {
        if self.node(node, text).is_none() {
            return Ok(None);
        }
        self.address(node, address, text)
    }

    // Goes to the next or the last moment that is looked for, or stays if there is none. Whether there is one.
    fn seek(&mut self, goal: Goal, direction: Direction) -> Result<bool, FollowFault> {
        let recorded = self.recorded_events();
        let found = match direction {
            Direction::On => seek(&mut self.timeline, goal),
            Direction::Back => seek_back(&mut self.timeline, goal),
        };
        if found? {
            return Ok(true);
        }
        self.timeline.go(recorded)?;
        Ok(false)
    }

    // Goes to the next or the last moment that is looked for, or says that there is none.
    fn go_until(
        &mut self,
        sought: Sought,
        direction: Direction,
        text: &mut TextWriter,
    ) -> Result<(), FollowFault> {
        let mut addresses = Vec::new(self.alloc);
        let Some(goal) = self.goal(sought, &mut addresses, text)? else {
            return Ok(());
        };
        if !self.seek(goal, direction)? {
            text.push("there is no such event: ");
        }
        write_place(&self.timeline, text);
        Ok(())
    }

    // Writes words of memory.
    fn show_memory(
        &self,
        node: u8,
        address: Address,
        count: u64,
        text: &mut TextWriter,
    ) -> Result<(), NoMemory> {
        if let Some(address) = self.address_at(node, address, text)?
            && let Some(node) = self.timeline.here().node(node)
        {
            write_memory(node, address, count, text);
        }
        Ok(())
    }

    // Writes instructions.
    fn show_code(
        &self,
        number: u8,
        address: Option<Address>,
        text: &mut TextWriter,
    ) -> Result<(), NoMemory> {
        let Some(node) = self.node(number, text) else {
            return Ok(());
        };
        let from = match address {
            None => None,
            Some(address) => match self.address(number, address, text)? {
                None => return Ok(()),
                found => found,
            },
        };
        let lines = self.lines(number)?;
        write_code(self.alloc, node, from, lines.as_slice(), text)
    }

    // Writes something of a node that is there.
    fn show_node(&self, number: u8, what: NodeView, text: &mut TextWriter) {
        if let Some(node) = self.node(number, text) {
            match what {
                NodeView::Registers => write_registers(node, text),
                NodeView::Queue => write_queue(node, text),
                NodeView::Links => write_links(node, text),
            }
        }
    }

    // Says why the nodes, or one of them, do no more than they do.
    fn show_causes(&self, number: Option<u8>, text: &mut TextWriter) -> Result<(), NoMemory> {
        if let Some(number) = number
            && self.node(number, text).is_none()
        {
            return Ok(());
        }
        let told = explain_moment(self.alloc, self.timeline.here(), number)?;
        text.push(told.as_str());
        for node in 0..8u8 {
            if number.is_none() || number == Some(node) {
                self.show_waits(node, text)?;
            }
        }
        Ok(())
    }

    // Says in which lines of its program a node waits, if the program is known.
    fn show_waits(&self, node: u8, text: &mut TextWriter) -> Result<(), NoMemory> {
        match self.program(node) {
            Some(program) => write_waits(self.alloc, self.timeline.here(), node, program, text),
            None => Ok(()),
        }
    }

    // Shows the variables of a node's program, or those of a name.
    fn show_variables(
        &self,
        number: u8,
        name: Option<&str>,
        text: &mut TextWriter,
    ) -> Result<(), NoMemory> {
        if let Some(program) = self.program_at(number, "variables", text)
            && let Some(node) = self.timeline.here().node(number)
        {
            let lines = program.lines(self.alloc)?;
            write_variables(&memory_found(node)?, program, lines.as_slice(), name, text);
        }
        Ok(())
    }

    // Does a command that stays at the moment.
    fn show(&self, command: DebugCommand, text: &mut TextWriter) -> Result<(), NoMemory> {
        match command {
            DebugCommand::Memory {
                node,
                address,
                count,
            } => return self.show_memory(node, address, count, text),
            DebugCommand::Code { node, address } => return self.show_code(node, address, text),
            DebugCommand::Variables { node, name } => {
                return self.show_variables(node, name, text);
            }
            DebugCommand::Switch => return write_switch(&self.timeline, text),
            DebugCommand::Why(node) => return self.show_causes(node, text),
            DebugCommand::Events { from, count } => write_events(&self.timeline, from, count, text),
            DebugCommand::Look => write_look(&self.timeline, text),
            DebugCommand::Registers(node) => self.show_node(node, NodeView::Registers, text),
            DebugCommand::Queue(node) => self.show_node(node, NodeView::Queue, text),
            DebugCommand::Links(node) => self.show_node(node, NodeView::Links, text),
            DebugCommand::Hosts => write_hosts(&self.timeline, text),
            DebugCommand::Help => write_help(text),
            _ => {}
        }
        Ok(())
    }

    // Does a command that goes to a moment, or one that stays.
    fn travel(&mut self, command: DebugCommand, text: &mut TextWriter) -> Result<(), FollowFault> {
        let recorded = self.recorded_events();
        match command {
            DebugCommand::Go(event) => self.go_to(event, text),
            DebugCommand::Next(count) => self.go_to(recorded.saturating_add(count), text),
            DebugCommand::Trace { count, node } => self.trace(count, node, text),
            DebugCommand::Back(count) => self.go_to(recorded.saturating_sub(count), text),
            DebugCommand::Until(sought) => self.go_until(sought, Direction::On, text),
            DebugCommand::BackUntil(sought) => self.go_until(sought, Direction::Back, text),
            command => Ok(self.show(command, text)?),
        }
    }

    /// Does a command, and writes what it shows.
    pub fn obey(&mut self, command: DebugCommand, text: &mut TextWriter) -> Result<(), DebugFault> {
        let done = self.travel(command, text);
        self.at_line(done)
    }
}

/// What is shown of a node.
#[derive(Clone, Copy)]
enum NodeView {
    Registers,
    Queue,
    Links,
}

// Begins what is said of a label that a node hasn't.
fn write_unknown(text: &mut TextWriter, label: &str, node: u8) {
    text.push("no label `");
    text.push(label);
    text.push("` is known of node ");
    text.push_decimal(u64::from(node));
}
