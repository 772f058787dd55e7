//! Where the statements of a program are, and its bytes.
ghost use Rattle.std.specs.Prelude.{◌≡◌, ◌<◌, ◌≤◌, ◌+◌, ℕ, length, sum, slice_index, slice_get, Some, None, All, IfOk, IfSome, MatchOption};
ghost use Rattle.t414_decode.specs.declared.instruction.Function.{Function};
ghost use Rattle.t414_assembly.specs.declared.statement.Statement.{Statement};
ghost use Rattle.t414_assembly.specs.Program.{address_of, IsImage};
ghost use Rattle.t414_assembly.specs.Layout.{size_of, IsTight, AreRooms, AreStarts};

use crate::statement::Statement;
use crate::writing::{MOST_CODE, put_statement, size_of};
use std::alloc::{AllocError, AllocFailed, Global};

/// The bytes of a program, and where its places are.
#[derive(Drop)]
pub struct Image {
    /// The bytes of all statements.
    pub bytes: Vec<u8>,
    /// How many bytes come before each place.
    pub starts: Vec<u32>,
}

/// Why a program has no bytes.
#[derive(Clone, Copy)]
pub enum LayoutFault {
    /// With this statement, counted from 0, the code has more than `MOST_CODE` bytes.
    TooLong(usize),
    NoMemory,
}

impl From<AllocError> for LayoutFault {
    fn from(_error: AllocError) -> LayoutFault {
        LayoutFault::NoMemory
    }
}

impl<T: Drop> From<AllocFailed<T>> for LayoutFault {
    fn from(_error: AllocFailed<T>) -> LayoutFault {
        LayoutFault::NoMemory
    }
}

/// The bytes of a program whose first byte has the address `origin`. Instructions begin with one byte each, and grow
/// until nothing changes.
///
/// `TooLong` if there are more than `MOST_CODE` bytes, `NoMemory` if they can't be kept.
pub fn lay_out(alloc: Global, origin: u32, statements: &[Statement]) -> Result<Image, LayoutFault>
    requires { origin ≤ 0xffff_0000 }
    ensures image { IfOk result (λ image. IsImage origin statements.now image.starts.items (length statements.now) image.bytes.items) }
{
    let mut rooms = first_rooms(alloc, statements)?;
    loop {
        let starts = starts_of(alloc, origin, statements, rooms.as_slice())?;
        if let Some(bytes) = lay_out_once(
            alloc,
            origin,
            statements,
            starts.as_slice(),
            rooms.as_mut_slice(),
        )? {
            return Ok(Image { bytes, starts });
        }
    }
}

// One byte for each instruction.
fn first_rooms(alloc: Global, statements: &[Statement]) -> Result<Vec<u8>, AllocError>
    ensures { IfOk result (λ rooms. AreRooms statements.now rooms.items) }
{
    let mut rooms = Vec::new(alloc);
    for _ in statements {
        rooms.push(1)?;
    }
    Ok(rooms)
}

// Where the places are, if the instructions take what `rooms` says.
fn starts_of(
    alloc: Global,
    origin: u32,
    statements: &[Statement],
    rooms: &[u8],
) -> Result<Vec<u32>, LayoutFault>
    requires low { origin ≤ 0xffff_0000 }
    requires rooms { length rooms.now ≡ length statements.now }
    ensures { IfOk result (λ starts. AreStarts origin statements.now rooms.now (length statements.now) starts.items) }
{
    let mut starts = Vec::new(alloc);
    let mut start: u32 = 0;
    starts.push(start)?;
    for (place, statement) in statements.iter().enumerate() {
        let size = size_of(origin + start, rooms[place], *statement);
        if size > MOST_CODE - start {
            return Err(LayoutFault::TooLong(place));
        }
        start += size;
        starts.push(start)?;
    }
    Ok(starts)
}

// The bytes of the statements, if each instruction has the room that it needs; else rooms grow.
// Six clauses: origin, places and rooms before, and what comes of a round that fits and of one that doesn't.
fn lay_out_once(
    alloc: Global,
    origin: u32,
    statements: &[Statement],
    starts: &[u32],
    rooms: &mut [u8],
) -> Result<Option<Vec<u8>>, AllocError>
    requires low { origin ≤ 0xffff_0000 }
    requires starts { AreStarts origin statements.now rooms.old (length statements.now) starts.now }
    requires rooms { AreRooms statements.now rooms.old }
    ensures image { IfOk result (λ bytes. IfSome bytes (λ bytes. IsImage origin statements.now starts.now (length statements.now) bytes.items)) }
    ensures grown { IfOk result (λ bytes. bytes ≡ None → sum rooms.old < sum rooms.new) }
    ensures rooms { AreRooms statements.now rooms.new }
{
    let mut bytes = Vec::new(alloc);
    let mut grown = false;
    for (place, statement) in statements.iter().enumerate() {
        let wider = put_statement(&mut bytes, origin, starts, place, rooms[place], *statement)?;
        if let Some(room) = wider {
            rooms[place] = room;
            grown = true;
        }
    }
    if grown {
        return Ok(None);
    }
    Ok(Some(bytes))
}
