//! A domain without its journal: its switch, nodes and hosts, event by event.
ghost use Rattle.std.specs.Prelude.{◌≡◌, ◌<◌, ◌≤◌, ◌==◌, ◌↔◌, IsTrue, true, false, not, length, IfOk, Some, slice_get, ℕ, List, [], ◌∷◌, ◌++◌};
ghost use Rattle.std.specs.Option.{option_copied};
ghost use Rattle.domain_core.specs.declared.event.Event.{Event as SpecEvent};
ghost use Rattle.domain_core.specs.Domain.{IsQuiet, PortsAreQuiet};
ghost use Rattle.crossbar.specs.Row.{switch_of, IsRow, number_among};
ghost use Rattle.crossbar.specs.Switch.{cleared};
ghost use Rattle.virtual_switch.specs.Each.{KeepsPorts};
ghost use Rattle.virtual_switch.specs.SwitchValue.{private_of, row_of};
ghost use Rattle.bootstrap.specs.Steps.{IsBurst, after_steps};
ghost use Rattle.bootstrap.specs.Seen.{seen};
ghost use Rattle.domain_core.specs.Devices.{memories, node_at, with_node};
ghost use Rattle.domain_core.specs.Entries.{is_look, reply_of};
ghost use Rattle.domain_core.specs.Moves.{moved};
ghost use Rattle.domain_core.specs.Machine.{acted, is_recorded, fresh_machine};
ghost use Rattle.domain_core.specs.MachineValue.{machine_of, IsIn};
ghost use Rattle.domain_core.specs.Routes.{route_answer, route_leaves, HasItsDevice};
ghost use Rattle.domain_core.specs.PortStates.{IsPortState};
ghost use Rattle.domain_core.specs.PrivateFarm.{is_there, is_known, owns};
ghost use Rattle.domain_core.specs.Ticket.{fresh_ticket};

use crate::NoMemory;
use crate::devices::Devices;
use crate::entries::SmallReply;
use crate::event::{By, Event, Moved};
use crate::host::Host;
use crate::moves::{Fate, Route, copy_to, fate_of, has_moved};
use crate::port_state::PortState;
use crate::table::{DeviceTable, table_of};
use crate::ticket::Ticket;
use bootstrap::{Burst, Node, Seen};
use crossbar::laws::unchanged_words_count_nothing;
use crossbar::{Numbering, Outputs, PlainOutputs, Word};
use plan_rules::Part;
use std::alloc::Global;
use std::marker::Model;
use virtual_switch::VirtualSwitch;

/// A reply to an event that is no look, and whether the event is recorded.
#[derive(Clone, Copy)]
pub(crate) struct Acted {
    pub reply: SmallReply,
    pub recorded: bool,
}

/// A domain's switch, nodes and hosts, with its part and the device of each port.
pub(crate) struct RunningMachine<O: Outputs> {
    part: Part,
    switch: VirtualSwitch<O>,
    devices: Devices,
    table: DeviceTable,
}

// Dropped by hand, since a derived `Drop` makes callers prove the drop of each field.
impl<O: Outputs + Drop> Drop for RunningMachine<O> {
    fn drop(self) {
        let RunningMachine {
            part: _,
            switch: _,
            devices: _,
            table: _,
        } = self;
    }
}

impl<O: Outputs> Model for RunningMachine<O> {
    ghost use Rattle.domain_core.specs.MachineValue.{MachineValue, IsOfPart, AreJoined};

    ghost Value = { MachineValue };

    ghost view = { λ m. record { part = m.part; switch = m.switch; devices = m.devices } };

    ghost invariant = { λ m. IsOfPart (record { part = m.part; switch = m.switch; devices = m.devices }) × AreJoined m.part m.table };
}

impl<O: Outputs + Drop> RunningMachine<O> {
    /// A machine as it is opened.
    pub(crate) fn open(alloc: Global, part: Part, outputs: O) -> Result<RunningMachine<O>, NoMemory>
        requires count { length (O.seen outputs).ports ≡ part.count }
        requires cleared { switch_of (O.seen outputs).words ≡ cleared }
        ensures state { IfOk result (λ m. machine_of m ≡ fresh_machine part) }
        ensures part { IfOk result (λ m. m.part ≡ part) }
        ensures row { IfOk result (λ m. row_of m.switch ≡ O.seen outputs) }
    {
        let devices = Devices::open(alloc, &part)?;
        let table = table_of(&part);
        Ok(RunningMachine {
            part,
            switch: VirtualSwitch::new(outputs),
            devices,
            table,
        })
    }

    /// Makes the machine as it was opened. Change counts go on.
    pub(crate) fn clear(&mut self)
        ensures state { machine_of self.new ≡ fresh_machine self.old.part }
        ensures part { self.new.part ≡ self.old.part }
        ensures kept { KeepsPorts self.old.switch self.new.switch }
    {
        self.switch.clear();
        self.devices.clear();
    }

    /// The part that the machine was opened with.
    pub(crate) fn part(&self) -> &Part
        ensures { result.now ≡ self.now.part }
    {
        &self.part
    }

    /// The words are a row of the ports, which are as many as the part's count, and the nodes are as many as the part's.
    pub(crate) fn of_part_law(&self)
        ensures row { IsRow (row_of self.now.switch) }
        ensures count { length self.now.switch.ports ≡ self.now.part.count }
        ensures nodes { length self.now.devices.nodes ≡ length self.now.part.nodes }
    {
        // The words of a switch are a row of its ports.
        self.switch.row_law();
    }

    /// Whether a Step of a node would not be recorded.
    pub(crate) fn node_is_quiet(&self, node: u8) -> bool
        requires { node < length self.now.part.nodes }
        ensures { result ≡ not (is_recorded self.now.part (machine_of self.now) (SpecEvent.Step node)) }
    {
        self.devices.is_quiet(node)
    }

    /// Whether the asker is known, and the host, node or port of the event is there for the asker.
    #[inline(always)]
    pub(crate) fn has_target(&self, by: By, event: Event) -> bool
        ensures there { result ≡ is_there self.now.part (record { by = by; event = event }) }
        ensures named { result ≡ true → IsIn self.now.part event }
    {
        self.knows(by)
            && match event {
                Event::Config(_) => true,
                Event::Write(host, _) | Event::Read(host) => self.owns(by, host),
                Event::Reset(node) | Event::Look(node) | Event::Step(node) => {
                    usize::from(node) < self.part.nodes().len()
                }
                Event::Move(port) => port < self.part.count(),
            }
    }

    // Whether the asker is a user of the domain, or the farm.
    fn knows(&self, by: By) -> bool
        ensures { result ≡ is_known self.now.part by }
    {
        match by {
            By::User(user) => user < self.part.users(),
            By::Farm => true,
        }
    }

    // Whether a host is there and belongs to the asker.
    fn owns(&self, by: By, host: u8) -> bool
        ensures owns { result ≡ owns self.now.part by host }
        ensures there { result ≡ true → host < length self.now.part.hosts }
    {
        match (by, self.part.hosts().get(usize::from(host))) {
            (By::User(user), Some(host)) => host.user == user,
            (By::User(_), None) | (By::Farm, _) => false,
        }
    }

    /// Does an event that is no look, and answers it.
    #[inline(always)]
    #[tactic(auto, using(crate::proofs::Unchanged::keeps_itself))]
    // Seven clauses: two of what it needs, the answer, whether it is recorded and the state, and what stays.
    pub(crate) fn act(&mut self, event: Event) -> Acted
        requires there { IsIn self.old.part event }
        requires no_look { is_look event ≡ false }
        ensures reply { reply_of result.reply ≡ (acted self.old.part (machine_of self.old) event).1 }
        ensures recorded { result.recorded ≡ is_recorded self.old.part (machine_of self.old) event }
        ensures state { machine_of self.new ≡ (acted self.old.part (machine_of self.old) event).0 }
        ensures part { self.new.part ≡ self.old.part }
        ensures kept { KeepsPorts self.old.switch self.new.switch }
    {
        // A Step keeps the size of memory.
        bootstrap::steps_keep_the_size();
        // Words that stay count no change.
        unchanged_words_count_nothing();
        let mut recorded = true;
        let reply = match event {
            Event::Config(byte) => SmallReply::Config(self.switch.feed(byte)),
            Event::Write(host, byte) => {
                if self.devices.write(host, byte) {
                    SmallReply::Written
                } else {
                    SmallReply::Full
                }
            }
            Event::Read(host) => SmallReply::Read(self.devices.read(host)),
            Event::Reset(node) => {
                self.devices.reset(node);
                SmallReply::Reset
            }
            Event::Look(_) => unreachable!(),
            Event::Step(node) => {
                recorded = !self.devices.is_quiet(node);
                SmallReply::Stepped(self.devices.step(node))
            }
            Event::Move(port) => {
                let moved = self.move_packet(port);
                recorded = has_moved(moved);
                SmallReply::Moved(moved)
            }
        };
        Acted { reply, recorded }
    }

    /// What is seen of a node of the part.
    pub(crate) fn look(&self, node: u8) -> Seen
        requires { node < length self.now.part.nodes }
        ensures { result ≡ seen (node_at self.now.devices node) }
    {
        self.devices.look(node)
    }

    /// Whether no Step and no Move would be recorded.
    pub(crate) fn quiet(&mut self) -> bool
        ensures quiet { IsTrue result ↔ IsQuiet self.old.part (machine_of self.old) }
        ensures unchanged { self.new ≡ self.old }
    {
        self.devices.are_quiet() && self.ports_are_quiet()
    }

    // Whether no Move would be recorded.
    fn ports_are_quiet(&mut self) -> bool
        ensures quiet { IsTrue result ↔ PortsAreQuiet self.old.part (machine_of self.old) }
        ensures unchanged { self.new ≡ self.old }
    {
        for port in 0..self.part.count() {
            if !self.port_is_quiet(port) {
                return false;
            }
        }
        true
    }

    /// Whether a Move of a port would not be recorded.
    pub(crate) fn port_is_quiet(&mut self, port: u8) -> bool
        requires { port < self.old.part.count }
        ensures quiet { result ≡ not (is_recorded self.old.part (machine_of self.old) (SpecEvent.Move port)) }
        ensures unchanged { self.new ≡ self.old }
    {
        !has_moved(self.route(port).answer())
    }

    /// The switch word of a virtual output.
    pub(crate) fn word(&mut self, output: u8) -> Word
        requires { output < self.old.part.count }
        ensures word { slice_get self.old.switch.words output ≡ Some result }
        ensures row { IsRow (row_of self.old.switch) }
        ensures unchanged { self.new ≡ self.old }
    {
        self.switch.word(output)
    }

    /// The virtual number of a physical port, or `None` where it is none of the domain's.
    pub(crate) fn virtual_of(&self, port: u8) -> Option<u8>
        ensures { result ≡ number_among self.now.switch.ports port }
    {
        self.switch.virtual_of(port)
    }

    /// Whether the outputs lie at these physical ports.
    pub(crate) fn is_at(&self, ports: &Numbering) -> bool
        ensures { IsTrue result ↔ (ports.now ≡ self.now.switch.ports) }
    {
        if ports.count() != self.switch.count() {
            return false;
        }
        for port in 0..ports.count() {
            if ports.physical(port) != self.switch.physical(port) {
                return false;
            }
        }
        true
    }

    /// A node, if it is there.
    pub(crate) fn node(&self, number: u8) -> Option<&Node>
        ensures node { option_copied result ≡ slice_get self.now.devices.nodes number }
    {
        self.devices.node(number)
    }

    /// A host, if it is there.
    pub(crate) fn host(&self, number: u8) -> Option<&Host>
        ensures host { option_copied result ≡ slice_get self.now.devices.hosts number }
    {
        self.devices.host(number)
    }

    /// Does up to `most` Steps of a node, and ends before the first that would not be recorded.
    pub(crate) fn burst(&mut self, node: u8, most: u64) -> Burst
        requires { node < length self.old.devices.nodes }
        ensures burst { IsBurst most (node_at self.old.devices node) result (node_at self.new.devices node) }
        ensures state { self.new ≡ record self.old { devices = with_node node (after_steps result.steps (node_at self.old.devices node)) self.old.devices } }
    {
        // Steps keep the size of memory.
        bootstrap::steps_keep_the_size();
        self.devices.burst(node, most)
    }

    /// What waits at a port, and what a Move of it would come to. Nothing changes.
    pub(crate) fn port_state(&mut self, port: u8) -> PortState
        requires { port < self.old.part.count }
        ensures state { IsPortState self.old.part (machine_of self.old) port result }
        ensures unchanged { self.new ≡ self.old }
    {
        let packet = match self.table[usize::from(port)] {
            Some(device) => self.devices.waiting(device),
            None => None,
        };
        let drives = self.switch.drives(port);
        let moved = self.route(port).answer();
        PortState {
            packet,
            drives,
            moved,
        }
    }

    /// Whether the home node of a ticket is there, and is the ticket's start.
    pub(crate) fn is_current(&self, ticket: &Ticket) -> bool
        ensures home { IsTrue result ↔ (slice_get self.now.devices.nodes ticket.now.number ≡ Some ticket.now.start) }
        ensures there { result ≡ true → ticket.now.number < length self.now.part.nodes }
    {
        match self.devices.node(ticket.number()) {
            Some(home) => ticket.starts_at(home),
            None => false,
        }
    }

    /// Puts a ticket's copy in its node's place. Its memory is of the size of its start's.
    pub(crate) fn commit_node(&mut self, ticket: &mut Ticket)
        requires there { ticket.old.number < length self.old.devices.nodes }
        requires start { node_at self.old.devices ticket.old.number ≡ ticket.old.start }
        requires size { length ticket.old.node.memory ≡ length ticket.old.start.memory }
        ensures home { self.new ≡ record self.old { devices = with_node ticket.old.number ticket.old.node self.old.devices } }
        ensures spent { ticket.new ≡ fresh_ticket ticket.old.domain ticket.old.number ticket.old.start }
    {
        self.devices.commit_node(ticket);
    }

    /// What a Move of a port would do. Nothing changes.
    pub(crate) fn route(&mut self, port: u8) -> Route
        requires { port < self.old.part.count }
        ensures answer { route_answer result ≡ (moved self.old.part (private_of self.old.switch) self.old.devices port).1 }
        ensures leaves { route_leaves self.old.part result self.old.devices ≡ (moved self.old.part (private_of self.old.switch) self.old.devices port).0 }
        ensures device { HasItsDevice self.old.devices result }
        ensures unchanged { self.new ≡ self.old }
    {
        let Some(device) = self.table[usize::from(port)] else {
            return Route::Nothing;
        };
        let Some(packet) = self.devices.waiting(device) else {
            return Route::Nothing;
        };
        let outputs = self.switch.drives(port);
        match fate_of(&mut self.switch, outputs) {
            Fate::Lost => Route::Lost(device),
            Fate::Stayed => Route::Stayed,
            Fate::Passed => Route::Passed {
                device,
                packet,
                outputs,
            },
        }
    }

    /// Does what a Move would do.
    pub(crate) fn follow(&mut self, route: Route)
        requires { HasItsDevice self.old.devices route }
        ensures { self.new ≡ record self.old { devices = route_leaves self.old.part route self.old.devices } }
    {
        match route {
            Route::Nothing | Route::Stayed => {}
            Route::Lost(device) => self.devices.take(device),
            Route::Passed {
                device,
                packet,
                outputs,
            } => {
                self.devices.take(device);
                copy_to(&mut self.devices, &self.part, &self.table, outputs, packet);
            }
        }
    }

    // Moves the packet that waits at a port.
    fn move_packet(&mut self, port: u8) -> Moved
        requires { port < self.old.part.count }
        ensures answer { result ≡ (moved self.old.part (private_of self.old.switch) self.old.devices port).1 }
        ensures devices { self.new.devices ≡ (moved self.old.part (private_of self.old.switch) self.old.devices port).0 }
        ensures switch { self.new.switch ≡ self.old.switch }
        ensures part { self.new.part ≡ self.old.part }
    {
        let route = self.route(port);
        self.follow(route);
        route.answer()
    }
}

impl RunningMachine<PlainOutputs> {
    /// An equal machine with words, memories and queues of its own.
    pub(crate) fn copy(&self, alloc: Global) -> Result<RunningMachine<PlainOutputs>, NoMemory>
        ensures { IfOk result (λ machine. machine ≡ self.now) }
    {
        Ok(RunningMachine {
            part: self.part.copy(alloc)?,
            switch: self.switch.copy(),
            devices: self.devices.copy(alloc)?,
            table: self.table,
        })
    }
}
