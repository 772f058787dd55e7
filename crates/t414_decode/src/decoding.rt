//! Instruction bytes read as functions and operations, and operands built from nibbles.

ghost use Rattle.std.specs.Prelude.{◌≡◌, ◌/◌, ◌%◌};
ghost use Rattle.t414_decode.specs.Codes.{function_of, operation_of, accumulated};

use crate::instruction::Operation::{Channel, Plain};
use crate::instruction::{ChannelOperation, Function, Operation, PlainOperation};

/// The function of an instruction byte, its high nibble, and the low nibble, below 16.
///
/// Source: Transputer instruction set handbook, direct functions.
#[inline(always)]
#[tactic(auto, unfolding(crate::specs::Codes::function_of))]
pub fn decode(byte: u8) -> (Function, u8)
    ensures function { result.0 ≡ function_of (byte / 16) }
    ensures nibble { result.1 ≡ byte % 16 }
{
    let function = match byte >> 4 {
        0x0 => Function::Jump,
        0x1 => Function::LoadLocalPointer,
        0x2 => Function::Prefix,
        0x3 => Function::LoadNonLocal,
        0x4 => Function::LoadConstant,
        0x5 => Function::LoadNonLocalPointer,
        0x6 => Function::NegativePrefix,
        0x7 => Function::LoadLocal,
        0x8 => Function::AddConstant,
        0x9 => Function::Call,
        0xa => Function::ConditionalJump,
        0xb => Function::AdjustWorkspace,
        0xc => Function::EqualsConstant,
        0xd => Function::StoreLocal,
        0xe => Function::StoreNonLocal,
        _ => Function::Operate,
    };
    (function, byte % 16)
}

/// The operation of a code, `None` where the table has none.
///
/// Source: Transputer instruction set handbook, operations.
#[inline(always)]
#[tactic(auto, unfolding(crate::specs::Codes::operation_of))]
pub fn operation(code: u32) -> Option<Operation>
    ensures { result ≡ operation_of code }
{
    match code {
        0x00 => Some(Plain(PlainOperation::Reverse)),
        0x01 => Some(Plain(PlainOperation::LoadByte)),
        0x02 => Some(Plain(PlainOperation::ByteSubscript)),
        0x03 => Some(Plain(PlainOperation::EndProcess)),
        0x04 => Some(Plain(PlainOperation::Difference)),
        0x05 => Some(Plain(PlainOperation::Add)),
        0x06 => Some(Plain(PlainOperation::GeneralCall)),
        0x07 => Some(Channel(ChannelOperation::InputMessage)),
        0x08 => Some(Plain(PlainOperation::Product)),
        0x09 => Some(Plain(PlainOperation::GreaterThan)),
        0x0a => Some(Plain(PlainOperation::WordSubscript)),
        0x0b => Some(Channel(ChannelOperation::OutputMessage)),
        0x0c => Some(Plain(PlainOperation::Subtract)),
        0x0d => Some(Plain(PlainOperation::StartProcess)),
        0x0e => Some(Channel(ChannelOperation::OutputByte)),
        0x0f => Some(Channel(ChannelOperation::OutputWord)),
        0x10 => Some(Plain(PlainOperation::SetError)),
        0x12 => Some(Channel(ChannelOperation::ResetChannel)),
        0x13 => Some(Plain(PlainOperation::CheckSubscriptFromZero)),
        0x15 => Some(Plain(PlainOperation::StopProcess)),
        0x16 => Some(Plain(PlainOperation::LongAdd)),
        0x17 => Some(Plain(PlainOperation::StoreLowBack)),
        0x18 => Some(Plain(PlainOperation::StoreHighFront)),
        0x19 => Some(Plain(PlainOperation::Normalise)),
        0x1a => Some(Plain(PlainOperation::LongDivide)),
        0x1b => Some(Plain(PlainOperation::LoadPointerToInstruction)),
        0x1c => Some(Plain(PlainOperation::StoreLowFront)),
        0x1d => Some(Plain(PlainOperation::ExtendToDouble)),
        0x1e => Some(Plain(PlainOperation::LoadPriority)),
        0x1f => Some(Plain(PlainOperation::Remainder)),
        0x20 => Some(Plain(PlainOperation::Return)),
        0x21 => Some(Plain(PlainOperation::LoopEnd)),
        0x29 => Some(Plain(PlainOperation::TestError)),
        0x2a => Some(Plain(PlainOperation::TestProcessorAnalysing)),
        0x2c => Some(Plain(PlainOperation::Divide)),
        0x2f => Some(Channel(ChannelOperation::DisableChannel)),
        0x30 => Some(Plain(PlainOperation::DisableSkip)),
        0x31 => Some(Plain(PlainOperation::LongMultiply)),
        0x32 => Some(Plain(PlainOperation::Not)),
        0x33 => Some(Plain(PlainOperation::ExclusiveOr)),
        0x34 => Some(Plain(PlainOperation::ByteCount)),
        0x35 => Some(Plain(PlainOperation::LongShiftRight)),
        0x36 => Some(Plain(PlainOperation::LongShiftLeft)),
        0x37 => Some(Plain(PlainOperation::LongSum)),
        0x38 => Some(Plain(PlainOperation::LongSubtract)),
        0x39 => Some(Plain(PlainOperation::RunProcess)),
        0x3a => Some(Plain(PlainOperation::ExtendToWord)),
        0x3b => Some(Plain(PlainOperation::StoreByte)),
        0x3c => Some(Plain(PlainOperation::GeneralAdjustWorkspace)),
        0x3d => Some(Plain(PlainOperation::SaveLow)),
        0x3e => Some(Plain(PlainOperation::SaveHigh)),
        0x40 => Some(Plain(PlainOperation::ShiftRight)),
        0x41 => Some(Plain(PlainOperation::ShiftLeft)),
        0x42 => Some(Plain(PlainOperation::MinimumInteger)),
        0x43 => Some(Plain(PlainOperation::AltStart)),
        0x44 => Some(Plain(PlainOperation::AltWait)),
        0x45 => Some(Plain(PlainOperation::AltEnd)),
        0x46 => Some(Plain(PlainOperation::And)),
        0x48 => Some(Channel(ChannelOperation::EnableChannel)),
        0x49 => Some(Plain(PlainOperation::EnableSkip)),
        0x4a => Some(Plain(PlainOperation::MoveMessage)),
        0x4b => Some(Plain(PlainOperation::Or)),
        0x4c => Some(Plain(PlainOperation::CheckSingle)),
        0x4d => Some(Plain(PlainOperation::CheckCountFromOne)),
        0x4f => Some(Plain(PlainOperation::LongDifference)),
        0x50 => Some(Plain(PlainOperation::StoreHighBack)),
        0x52 => Some(Plain(PlainOperation::Sum)),
        0x53 => Some(Plain(PlainOperation::Multiply)),
        0x54 => Some(Plain(PlainOperation::StoreTimer)),
        0x55 => Some(Plain(PlainOperation::StopOnError)),
        0x56 => Some(Plain(PlainOperation::CheckWord)),
        0x57 => Some(Plain(PlainOperation::ClearHaltOnError)),
        0x58 => Some(Plain(PlainOperation::SetHaltOnError)),
        0x59 => Some(Plain(PlainOperation::TestHaltOnError)),
        _ => None,
    }
}

/// The operand after an instruction byte, of the one before it: the low nibble is put in, and
/// pfix and nfix move it, or its complement, up by one nibble.
///
/// Source: Transputer instruction set handbook, pfix and nfix.
#[inline]
#[tactic(auto, unfolding(crate::specs::Codes::accumulated))]
pub fn accumulate(operand: u32, byte: u8) -> u32
    ensures { result ≡ accumulated operand byte }
{
    let (function, nibble) = decode(byte);
    let joined = operand | u32::from(nibble);
    match function {
        Function::Prefix => joined << 4,
        Function::NegativePrefix => !joined << 4,
        _ => joined,
    }
}
