//! What a later look at a domain can't see.

use bootstrap::link_number_of;
use domain_core::{Device, Moved};
use link_channels::LinkNumber;
use os_link::Packet;
use t414_step::Cpu;

/// What was lost at a port, since nothing of its kind passed from there.
#[derive(Clone, Copy)]
pub struct PortNotes {
    /// The event in which a byte was lost.
    pub byte: Option<u64>,
    /// The event in which an acknowledge was lost.
    pub acknowledge: Option<u64>,
}

/// The output whose byte was the last to leave a link.
#[derive(Clone, Copy)]
pub struct OutputNotes {
    /// How many bytes it has in all.
    pub whole: u32,
    /// How many of them come after the last one that left.
    pub behind: u32,
}

/// How a process came to zeros in memory, through which it ran. Each zero is `j 0`.
#[derive(Clone, Copy)]
pub struct ZerosNotes {
    /// The registers before the last byte that it did outside of them.
    pub registers: Cpu,
    /// That byte.
    pub byte: u8,
    /// The address of the first zero.
    pub first: u32,
}

/// What a node met at its fault.
#[derive(Clone, Copy)]
pub struct FaultNotes {
    /// The event.
    pub event: u64,
    /// The registers before the instruction byte, if one was done.
    pub registers: Option<Cpu>,
    /// The instruction byte.
    pub byte: Option<u8>,
    /// How it came to the zeros, if it ran through zeros right before the fault.
    pub zeros: Option<ZerosNotes>,
}

/// What was noted of a node.
#[derive(Clone, Copy)]
pub struct NodeNotes {
    /// The address after the last byte of the code that was loaded last.
    pub code_end: Option<u32>,
    /// How many Steps it has done since a packet came or went.
    pub steps: u64,
    pub fault: Option<FaultNotes>,
    /// What was sent at each link.
    outs: [Option<OutputNotes>; 4],
}

/// What was noted on the way to a moment.
#[derive(Clone, Copy)]
pub struct EventNotes {
    ports: [PortNotes; 32],
    nodes: [NodeNotes; 8],
    /// How many packets went from node to node since the last event of a user and the last packet of a host.
    pub exchanges: u64,
    /// The number of that event.
    pub alone_since: u64,
}

impl PortNotes {
    // Nothing was lost.
    fn new() -> PortNotes {
        PortNotes {
            byte: None,
            acknowledge: None,
        }
    }
}

impl NodeNotes {
    // As after a reset.
    fn new() -> NodeNotes {
        NodeNotes {
            code_end: None,
            steps: 0,
            fault: None,
            outs: [None; 4],
        }
    }

    /// The output whose byte was the last to leave this link, if one did since the last reset.
    pub fn output(&self, link: LinkNumber) -> Option<OutputNotes> {
        self.outs
            .get(usize::from(link_number_of(link)))
            .copied()
            .flatten()
    }
}

impl EventNotes {
    /// Nothing has happened.
    pub fn new() -> EventNotes {
        EventNotes {
            ports: [PortNotes::new(); 32],
            nodes: [NodeNotes::new(); 8],
            exchanges: 0,
            alone_since: 0,
        }
    }

    /// What was lost at a port.
    pub fn port(&self, port: u8) -> PortNotes {
        match self.ports.get(usize::from(port)) {
            Some(notes) => *notes,
            None => PortNotes::new(),
        }
    }

    /// What was noted of a node.
    pub fn node(&self, node: u8) -> NodeNotes {
        match self.nodes.get(usize::from(node)) {
            Some(notes) => *notes,
            None => NodeNotes::new(),
        }
    }

    /// A user asked for something in this event.
    pub fn note_user(&mut self, event: u64) {
        self.exchanges = 0;
        self.alone_since = event;
    }

    /// A node was reset.
    pub fn note_reset(&mut self, node: u8) {
        if let Some(notes) = self.nodes.get_mut(usize::from(node)) {
            *notes = NodeNotes::new();
        }
    }

    /// A node did Steps, and the code that it loads ends before this address.
    pub fn note_steps(&mut self, node: u8, steps: u64, code_end: Option<u32>) {
        if let Some(notes) = self.nodes.get_mut(usize::from(node)) {
            notes.steps = notes.steps.saturating_add(steps);
            notes.code_end = code_end.or(notes.code_end);
        }
    }

    /// A node met a fault.
    pub fn note_fault(&mut self, node: u8, fault: FaultNotes) {
        if let Some(notes) = self.nodes.get_mut(usize::from(node)) {
            notes.fault = Some(fault);
        }
    }

    /// A byte left a link of a node that runs, and this many of the same output come after it.
    pub fn note_output(&mut self, node: u8, link: LinkNumber, behind: u32) {
        let whole = match self.node(node).output(link) {
            Some(before) if before.behind > 0 && before.behind - 1 == behind => before.whole,
            _ => behind.saturating_add(1),
        };
        if let Some(notes) = self.nodes.get_mut(usize::from(node))
            && let Some(output) = notes.outs.get_mut(usize::from(link_number_of(link)))
        {
            *output = Some(OutputNotes { whole, behind });
        }
    }

    /// A packet left a port in this event, and was lost or passed.
    pub fn note_packet(&mut self, port: u8, packet: Packet, moved: Moved, event: u64) {
        let lost = if moved == Moved::Lost {
            Some(event)
        } else {
            None
        };
        if let Some(notes) = self.ports.get_mut(usize::from(port)) {
            match packet {
                Packet::Byte(_) => notes.byte = lost,
                Packet::Ack => notes.acknowledge = lost,
            }
        }
    }

    /// A packet came to a device or left it; whether that is a node's.
    pub fn note_traffic(&mut self, device: Option<Device>) -> bool {
        let Some(Device::Link { node, .. }) = device else {
            return false;
        };
        if let Some(notes) = self.nodes.get_mut(usize::from(node)) {
            notes.steps = 0;
        }
        true
    }

    /// A packet passed in this event, from node to node alone, or else a host had a part in it.
    pub fn note_exchange(&mut self, is_among_nodes: bool, event: u64) {
        if is_among_nodes {
            self.exchanges = self.exchanges.saturating_add(1);
        } else {
            self.note_user(event);
        }
    }
}
