//! What a switch does to the words of outputs.
ghost use Rattle.std.specs.Prelude.{◌≡◌, ◌<◌, ℕ, ◌&&◌, ◌==◌, if◌then◌else◌, length, Contains, Some, false};
ghost use Rattle.std.specs.Int.{bit_at};
ghost use Rattle.std.specs.FinMap as pairs;
ghost use Rattle.std.specs.FinSet as ready;
ghost use Rattle.crossbar.specs.Kept.{IsKept};
ghost use Rattle.crossbar.specs.Row.{IsRow, InputIsIn, switch_of, private_switch, input_of, is_ready};
ghost use Rattle.crossbar.specs.Changed.{row_after, row_each, ready_of};
ghost use Rattle.crossbar.specs.Switch.{connected, disconnected, all_ready, cleared, drives, names};
ghost use Rattle.crossbar.specs.Word.{connection_of};

use crate::outputs::Outputs;
use crate::word::{Connection, Word};

/// Sets what drives an output. The word is written only where it changes.
fn set<O: Outputs>(outputs: &mut O, output: u8, connection: Option<Connection>)
    requires output { output < length (O.seen outputs.old).ports }
    requires input { InputIsIn (O.seen outputs.old).ports connection }
    ensures words { O.seen outputs.new ≡ row_after (O.seen outputs.old) output connection }
    ensures row { IsRow (O.seen outputs.new) }
{
    let old = outputs.read(output);
    let new = old.after(connection);
    if new != old {
        outputs.write(output, new);
    }
}

/// Connects a physical input to an output, instead of what drove it. The output isn't ready then. No
/// other output changes (IMS C004 data sheet, configuration message 0).
///
/// The input is one of the outputs' ports (condition).
pub fn connect<O: Outputs>(outputs: &mut O, port: u8, output: u8)
    requires input { Contains (O.seen outputs.old).ports port }
    requires output { output < length (O.seen outputs.old).ports }
    ensures words { O.seen outputs.new ≡ row_after (O.seen outputs.old) output (Some (record { input = port; ready = false })) }
    ensures switch { switch_of (O.seen outputs.new).words ≡ connected (switch_of (O.seen outputs.old).words) port output }
    ensures kept { IsKept (O.seen outputs.old) (O.seen outputs.new) }
{
    set(
        outputs,
        output,
        Some(Connection {
            input: port,
            ready: false,
        }),
    );
}

/// Disconnects the output, and no other (IMS C004 data sheet, configuration message 5).
pub fn disconnect<O: Outputs>(outputs: &mut O, output: u8)
    requires { output < length (O.seen outputs.old).ports }
    ensures words { O.seen outputs.new ≡ row_after (O.seen outputs.old) output None }
    ensures switch { private_switch (O.seen outputs.new) ≡ disconnected (private_switch (O.seen outputs.old)) output }
    ensures kept { IsKept (O.seen outputs.old) (O.seen outputs.new) }
{
    set(outputs, output, None);
}

/// The physical input that drives the output, or `None` (IMS C004 data sheet, configuration message 2).
pub fn enquire<O: Outputs>(outputs: &mut O, output: u8) -> Option<u8>
    requires { output < length (O.seen outputs.old).ports }
    ensures input { result ≡ pairs.get (switch_of (O.seen outputs.old).words).pairs output }
    ensures unchanged { O.seen outputs.new ≡ O.seen outputs.old }
    ensures row { IsRow (O.seen outputs.new) }
{
    driver(outputs.read(output))
}

/// The physical input that the word names.
fn driver(word: Word) -> Option<u8>
    ensures { result ≡ input_of (connection_of word) }
{
    let connection = word.connection()?;
    Some(connection.input)
}

/// Whether the output is ready.
pub fn is_ready<O: Outputs>(outputs: &mut O, output: u8) -> bool
    requires { output < length (O.seen outputs.old).ports }
    ensures ready { result ≡ ready.contains (private_switch (O.seen outputs.old)).ready output }
    ensures unchanged { O.seen outputs.new ≡ O.seen outputs.old }
    ensures row { IsRow (O.seen outputs.new) }
{
    says_ready(outputs.read(output))
}

/// Whether the word says that its output is ready.
fn says_ready(word: Word) -> bool
    ensures { result ≡ is_ready (connection_of word) }
{
    match word.connection() {
        Some(connection) => connection.ready,
        None => false,
    }
}

/// Makes each connected output ready (IMS C004 data sheet, configuration message 3).
pub fn make_ready<O: Outputs>(outputs: &mut O)
    ensures words { O.seen outputs.new ≡ row_each ready_of (O.seen outputs.old) }
    ensures switch { private_switch (O.seen outputs.new) ≡ all_ready (private_switch (O.seen outputs.old)) }
    ensures kept { IsKept (O.seen outputs.old) (O.seen outputs.new) }
{
    for output in 0..outputs.count() {
        let connection = ready_connection(outputs.read(output));
        set(outputs, output, connection);
    }
}

/// What the word says, made ready.
fn ready_connection(word: Word) -> Option<Connection>
    ensures { result ≡ ready_of (connection_of word) }
{
    let connection = word.connection()?;
    Some(Connection {
        input: connection.input,
        ready: true,
    })
}

/// Disconnects all outputs (IMS C004 data sheet, configuration message 4).
pub fn clear<O: Outputs>(outputs: &mut O)
    ensures words { O.seen outputs.new ≡ row_each (λ connection. None) (O.seen outputs.old) }
    ensures switch { private_switch (O.seen outputs.new) ≡ cleared }
    ensures kept { IsKept (O.seen outputs.old) (O.seen outputs.new) }
{
    for output in 0..outputs.count() {
        set(outputs, output, None);
    }
}

/// The outputs that the physical input drives, as a mask: bit q is output q.
pub fn driven_by<O: Outputs>(outputs: &mut O, port: u8) -> u32
    ensures bits { (q : ℕ) → bit_at result q ≡ (if drives (switch_of (O.seen outputs.old).words) port q then 1 else 0) }
    ensures unchanged { O.seen outputs.new ≡ O.seen outputs.old }
    ensures row { IsRow (O.seen outputs.new) }
{
    let mut driven = 0;
    for output in 0..outputs.count() {
        let on = is_driver(enquire(outputs, output), port);
        driven = with_mark(driven, output, on);
    }
    driven
}

fn is_driver(driver: Option<u8>, input: u8) -> bool
    ensures { result ≡ names driver input }
{
    match driver {
        Some(driver) => driver == input,
        None => false,
    }
}

/// The bits, and bit `output` too where it is on.
fn with_mark(bits: u32, output: u8, on: bool) -> u32
    requires { output < 32 }
    ensures { (q : ℕ) → bit_at result q ≡ (if on && (q == output) then 1 else bit_at bits q) }
{
    if on { bits | 1 << output } else { bits }
}
