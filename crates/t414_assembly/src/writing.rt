//! The bytes of one statement, if it is known where all places are.
ghost use Rattle.std.specs.Prelude.{◌≡◌, ◌<◌, ◌≤◌, ◌+◌, ◌-◌, ◌++◌, ℕ, length, max, slice_index, IfOk, OnOk, IfSome, None, replicate};
ghost use Rattle.t414_assembly.specs.Spelled.{spelled};
ghost use Rattle.t414_assembly.specs.Program.{is_relative, plus, less, address_of, value_of, operand_of};
ghost use Rattle.t414_assembly.specs.Layout.{gap, size_of, IsTight, PutsPiece};

use crate::shortest::spell;
use crate::spelling::Spelling;
use crate::statement::{Operand, Statement};
use std::alloc::AllocError;
use t414_decode::Function;

/// The most bytes that code has: those of the largest memory from MemStart on.
pub const MOST_CODE: u32 = 65_464;

// pfix with the nibble 0, which leaves an operand of 0 as it is.
const PFIX_0: u8 = 0x20;

/// How many bytes a statement takes at an address, if an instruction takes `room`.
pub fn size_of(address: u32, room: u8, statement: Statement) -> u32
    ensures { result ≡ size_of address room statement }
{
    match statement {
        Statement::Instruction(_, _) => u32::from(room),
        Statement::Byte(_) => 1,
        Statement::Word(_) => 4,
        Statement::Align(size) => gap(size.max(1), address),
        Statement::Space(count) => count,
    }
}

// How far the next multiple of a size is.
fn gap(size: u32, address: u32) -> u32
    requires { 0 < size }
    ensures { result ≡ gap size address }
{
    match address % size {
        0 => 0,
        beyond => size - beyond,
    }
}

// The address of a place.
fn address_at(origin: u32, starts: &[u32], place: usize) -> u32
    requires low { origin ≤ 0xffff_0000 }
    requires most { (k : ℕ) → slice_index starts.now k ≤ 65464 }
    ensures { result ≡ address_of origin starts.now place }
{
    origin + starts.get(place).copied().unwrap_or(0)
}

// The word that an operand says.
fn value_at(origin: u32, starts: &[u32], operand: Operand) -> u32
    requires low { origin ≤ 0xffff_0000 }
    requires most { (k : ℕ) → slice_index starts.now k ≤ 65464 }
    ensures { result ≡ value_of (address_of origin starts.now) operand }
{
    match operand {
        Operand::Number(number) => number,
        Operand::Label(place, number) => address_at(origin, starts, place).wrapping_add(number),
        Operand::Difference(place, base, number) => {
            let to = address_at(origin, starts, place);
            let from = address_at(origin, starts, base);
            to.wrapping_sub(from).wrapping_add(number)
        }
    }
}

// The operand of an instruction that ends at a place.
fn operand_at(origin: u32, starts: &[u32], next: usize, function: Function, operand: Operand) -> u32
    requires low { origin ≤ 0xffff_0000 }
    requires most { (k : ℕ) → slice_index starts.now k ≤ 65464 }
    ensures { result ≡ operand_of (address_of origin starts.now) next function operand }
{
    let value = value_at(origin, starts, operand);
    match (function, operand) {
        (Function::Jump | Function::ConditionalJump | Function::Call, Operand::Label(_, _)) => {
            value.wrapping_sub(address_at(origin, starts, next))
        }
        _ => value,
    }
}

/// Appends the bytes of the statement after `place` to others. An instruction takes `room` bytes. If it needs more, the
/// answer is how many it needs, and nothing is appended.
// Seven clauses: five of the layout that is tried, and what is put or wanted.
pub fn put_statement(
    bytes: &mut Vec<u8>,
    origin: u32,
    starts: &[u32],
    place: usize,
    room: u8,
    statement: Statement,
) -> Result<Option<u8>, AllocError>
    requires low { origin ≤ 0xffff_0000 }
    requires most { (k : ℕ) → slice_index starts.now k ≤ 65464 }
    requires within { place < length starts.now }
    requires next { slice_index starts.now (place + 1) ≡ slice_index starts.now place + size_of (address_of origin starts.now place) room statement }
    requires tight { IsTight room statement }
    ensures put { IfOk result (λ wider. wider ≡ None → PutsPiece origin starts.now place room statement bytes.old.items bytes.new.items) }
    ensures wider { IfOk result (λ wider. IfSome wider (λ n. (room < n) × (n ≤ 8) × IsTight n statement)) }
{
    match statement {
        Statement::Instruction(function, operand) => {
            let operand = operand_at(origin, starts, place + 1, function, operand);
            let spelling = spell(function, operand);
            if room < spelling.count() {
                return Ok(Some(spelling.count()));
            }
            put_padded(bytes, room, &spelling)?;
        }
        Statement::Byte(value) => bytes.push(value)?,
        Statement::Word(operand) => {
            let value = value_at(origin, starts, operand);
            bytes.extend_from_slice(&value.to_le_bytes())?;
        }
        Statement::Align(size) => {
            let address = address_at(origin, starts, place);
            put_copies(bytes, gap(size.max(1), address), 0)?;
        }
        Statement::Space(count) => put_copies(bytes, count, 0)?,
    }
    Ok(None)
}

// Appends the bytes of an instruction to others, with as many pfix 0 before them as fill its room.
fn put_padded(bytes: &mut Vec<u8>, room: u8, spelling: &Spelling) -> Result<(), AllocError>
    requires { length (spelled spelling.now) ≤ room }
    ensures { let short = spelled spelling.now in OnOk result
        (bytes.new.items ≡ bytes.old.items ++ (replicate (room - length short) 0x20 ++ short)) }
{
    put_copies(bytes, u32::from(room - spelling.count()), PFIX_0)?;
    bytes.extend_from_slice(spelling.as_slice())
}

// Appends a byte to others, `count` times.
fn put_copies(bytes: &mut Vec<u8>, count: u32, byte: u8) -> Result<(), AllocError>
    ensures { OnOk result (bytes.new.items ≡ bytes.old.items ++ replicate count byte) }
{
    for _ in 0..count {
        bytes.push(byte)?;
    }
    Ok(())
}
