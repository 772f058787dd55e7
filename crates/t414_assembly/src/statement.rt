//! What a program says, with its labels as places.

use t414_decode::Function;

/// What a word or the operand of an instruction is. Each has a number, which is added modulo 2^32.
///
/// A place is the number of the statement that follows it, from 0. The place after the last statement is the number of
/// all statements.
#[derive(Clone, Copy)]
pub enum Operand {
    /// A word of 32 bits.
    Number(u32),
    /// The address of a place, and a number of bytes on; in j, cj and call the distance there from the next instruction.
    Label(usize, u32),
    /// The address of the first place less that of the second, and a number.
    Difference(usize, usize, u32),
}

/// One part of a program.
#[derive(Clone, Copy)]
pub enum Statement {
    /// An instruction. A prefix by itself is one byte with the operand's lowest nibble.
    Instruction(Function, Operand),
    /// One byte.
    Byte(u8),
    /// Four bytes, the least significant first.
    Word(Operand),
    /// Zero bytes up to the next address that is a multiple of this number of bytes.
    Align(u32),
    /// This number of zero bytes.
    Space(u32),
}
