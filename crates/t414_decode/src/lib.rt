//! The functions of an instruction byte, the operations, and how an operand is built from nibbles.
#![tactic(auto)]

mod decoding;
mod instruction;

pub use decoding::{accumulate, decode, operation};
pub use instruction::{ChannelOperation, Function, Operation, PlainOperation};
