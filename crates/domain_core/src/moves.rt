//! What becomes of a packet that waits at a port, and the masks of outputs: bit q is virtual output q.
ghost use Rattle.std.specs.Prelude.{◌≡◌, ◌<◌, ◌≤◌, ◌==◌, ◌↔◌, ◌+◌, ◌++◌, ◌∷◌, [], IsTrue, ℕ, List, length};
ghost use Rattle.std.specs.Int.{bit_at};
ghost use Rattle.std.specs.List.{range_with_len};
ghost use Rattle.virtual_switch.specs.SwitchValue.{private_of};
ghost use Rattle.domain_core.specs.Machine.{has_moved};
ghost use Rattle.domain_core.specs.MachineValue.{AreJoined};
ghost use Rattle.domain_core.specs.Moves.{outcome, copies_arrived, joining_of};
ghost use Rattle.domain_core.specs.Routes.{marked_by, fate_answer, route_answer};

use crate::device::Device;
use crate::devices::Devices;
use crate::event::Moved;
use crate::table::DeviceTable;
use crossbar::Outputs;
use os_link::Packet;
use plan_rules::Part;
use virtual_switch::VirtualSwitch;

/// What becomes of a packet that waits.
#[derive(Clone, Copy)]
pub(crate) enum Fate {
    /// Its port drives no output.
    Lost,
    /// An output that its port drives isn't ready.
    Stayed,
    /// Each output that its port drives is ready, and there is one.
    Passed,
}

/// What a Move of a port would do.
#[derive(Clone, Copy)]
pub(crate) enum Route {
    /// The port has no device, or no packet waits there.
    Nothing,
    /// The packet stays where it waits.
    Stayed,
    /// The packet is taken from this device, and is gone.
    Lost(Device),
    /// The packet is taken from the device and comes to the outputs of the mask.
    Passed {
        /// The device at which it waits.
        device: Device,
        /// The packet.
        packet: Packet,
        /// The outputs, as a mask.
        outputs: u32,
    },
}

impl Route {
    /// What the Move is answered.
    pub(crate) fn answer(self) -> Moved
        ensures { result ≡ route_answer self }
    {
        match self {
            Route::Nothing => Moved::Nothing,
            Route::Stayed => Moved::Stayed,
            Route::Lost(_) => Moved::Lost,
            Route::Passed { .. } => Moved::Passed,
        }
    }
}

// Whether bit `output` of a mask is set.
fn is_marked(outputs: u32, output: u8) -> bool
    requires { output < 32 }
    ensures { result ≡ (bit_at outputs output == 1) }
{
    outputs >> output & 1 == 1
}

// An output, at most of this number, before which none is in a mask.
fn first_among(outputs: u32, count: u8) -> u8
    ensures few { result ≤ count }
    ensures none { marked_by outputs (range_with_len 0 result) ≡ [] }
{
    if outputs == 0 {
        return 0;
    }
    (outputs.trailing_zeros() as u8).min(count)
}

// Whether neither this output nor a higher one is in a mask.
fn is_past(outputs: u32, output: u8) -> bool
    requires { output < 32 }
    ensures { IsTrue result → (more : ℕ) → marked_by outputs (range_with_len 0 (output + more)) ≡ marked_by outputs (range_with_len 0 output) }
{
    outputs >> output == 0
}

// Whether an output that isn't ready was met.
fn has_stayed(fate: Fate) -> bool
    ensures { IsTrue result ↔ (fate_answer fate ≡ Moved.Stayed) }
{
    match fate {
        Fate::Stayed => true,
        Fate::Lost | Fate::Passed => false,
    }
}

// What becomes of a packet with one output more, by what became of it with those before.
#[tactic(auto, using(crate::proofs::Outcomes::not_marked, crate::proofs::Outcomes::stays, crate::proofs::Outcomes::passes, crate::proofs::Outcomes::must_stay))]
fn fate_with<O: Outputs>(
    before: Fate,
    switch: &mut VirtualSwitch<O>,
    outputs: u32,
    output: u8,
) -> Fate
    requires few { length switch.old.ports ≤ 32 }
    requires there { output < length switch.old.ports }
    ensures answer { (xs : List ℕ) → fate_answer before ≡ outcome (private_of switch.old) xs →
        fate_answer result ≡ outcome (private_of switch.old) (xs ++ marked_by outputs (output ∷ [])) }
    ensures unchanged { switch.new ≡ switch.old }
{
    if !is_marked(outputs, output) {
        return before;
    }
    if has_stayed(before) {
        return before;
    }
    if switch.ready(output) {
        Fate::Passed
    } else {
        Fate::Stayed
    }
}

/// What becomes of a packet whose port drives these outputs.
pub(crate) fn fate_of<O: Outputs>(switch: &mut VirtualSwitch<O>, outputs: u32) -> Fate
    requires { length switch.old.ports ≤ 32 }
    ensures answer { fate_answer result ≡ outcome (private_of switch.old) (marked_by outputs (range_with_len 0 (length switch.old.ports))) }
    ensures unchanged { switch.new ≡ switch.old }
{
    let mut fate = Fate::Lost;
    let count = switch.count();
    for output in first_among(outputs, count)..count {
        if is_past(outputs, output) {
            break;
        }
        fate = fate_with(fate, switch, outputs, output);
    }
    fate
}

// A packet arrives at the device of an output, if the output is one of these.
// Eight clauses: five of part, table and devices, the state, and what the loop of its caller keeps.
fn copy_at(
    devices: &mut Devices,
    part: &Part,
    table: &DeviceTable,
    outputs: u32,
    output: u8,
    packet: Packet,
)
    requires few { part.now.count ≤ 32 }
    requires there { output < part.now.count }
    requires joined { AreJoined part.now table.now }
    requires nodes { length devices.old.nodes ≡ length part.now.nodes }
    requires hosts { length devices.old.hosts ≡ length part.now.hosts }
    ensures state { devices.new ≡ copies_arrived (joining_of part.now) packet (marked_by outputs (output ∷ [])) devices.old }
    ensures nodes { length devices.new.nodes ≡ length devices.old.nodes }
    ensures hosts { length devices.new.hosts ≡ length devices.old.hosts }
{
    if !is_marked(outputs, output) {
        return;
    }
    if let Some(device) = table[usize::from(output)] {
        devices.deliver(device, packet);
    }
}

/// A packet arrives at the devices of these outputs, in rising order.
#[inline(always)]
pub(crate) fn copy_to(
    devices: &mut Devices,
    part: &Part,
    table: &DeviceTable,
    outputs: u32,
    packet: Packet,
)
    requires few { part.now.count ≤ 32 }
    requires joined { AreJoined part.now table.now }
    requires nodes { length devices.old.nodes ≡ length part.now.nodes }
    requires hosts { length devices.old.hosts ≡ length part.now.hosts }
    ensures { devices.new ≡ copies_arrived (joining_of part.now) packet (marked_by outputs (range_with_len 0 part.now.count)) devices.old }
{
    let count = part.count();
    for output in first_among(outputs, count)..count {
        if is_past(outputs, output) {
            break;
        }
        copy_at(devices, part, table, outputs, output, packet);
    }
}

/// Whether a Move that comes to this has changed something.
pub(crate) fn has_moved(moved: Moved) -> bool
    ensures { result ≡ has_moved moved }
{
    match moved {
        Moved::Nothing | Moved::Stayed => false,
        Moved::Lost | Moved::Passed => true,
    }
}
