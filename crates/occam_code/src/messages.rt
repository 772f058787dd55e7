//! The code of messages.
ghost use Rattle.std.specs.Prelude.{◌≡◌, [], ◌∷◌, ◌++◌, OnOk, length};
ghost use Rattle.occam_code.specs.Instructions as asm;
ghost use Rattle.occam_code.specs.Code.{array_bytes as bytes_of_array, bytes_of as bytes_of_elements, array_message_code, clear_code, input_code, input_element_code, message_bytes as bytes_of_message, output_code, output_operation as operation_of_output};
ghost use Rattle.occam_code.specs.Guards.{channel_code};

use crate::channels::{after_channel, emit_channel, keep_channel};
use crate::expressions::{emit_address, emit_expression, is_leaf};
use crate::frame::FrameWords;
use crate::instructions::*;
use occam_core::{CoreArray, CoreChannel, ElementKind, Expression, MessageKind};
use std::alloc::AllocError;
use t414_assembly::Statement;
use t414_decode::Function;

// The bytes of this number of elements, modulo 2^32.
fn bytes_of(kind: ElementKind, count: u32) -> u32
    ensures { result ≡ bytes_of_elements kind count }
{
    match kind {
        ElementKind::Byte => count,
        ElementKind::Word => count.wrapping_mul(4),
    }
}

// The bytes of an array, modulo 2^32.
pub(crate) fn array_bytes(array: CoreArray) -> u32
    ensures { result ≡ bytes_of_array array }
{
    bytes_of(array.kind, array.length)
}

// The bytes of a message.
fn message_bytes(message: MessageKind) -> u32
    ensures { result ≡ bytes_of_message message }
{
    match message {
        MessageKind::Byte => 1,
        MessageKind::Word => 4,
    }
}

// The message of this number of bytes from a channel whose words are these to the address in A.
fn emit_transfer(
    code: &mut Vec<Statement>,
    words: FrameWords,
    channel: &CoreChannel,
    bytes: u32,
    operation: u32,
) -> Result<(), AllocError>
    ensures { OnOk result (code.new.items ≡ code.old.items
        ++ (channel_code words channel.now ++ asm.ldc bytes ∷ asm.operation operation ∷ [])) }
{
    emit_channel(code, words, channel)?;
    put(code, Function::LoadConstant, bytes)?;
    operate(code, operation)
}

// A BYTE fills the lowest byte of its word alone, so the word is cleared first.
fn emit_clear(code: &mut Vec<Statement>, message: MessageKind, word: u32) -> Result<(), AllocError>
    ensures { OnOk result (code.new.items ≡ code.old.items ++ clear_code message word) }
{
    match message {
        MessageKind::Byte => {
            put(code, Function::LoadConstant, 0)?;
            put(code, Function::StoreLocal, word)
        }
        MessageKind::Word => Ok(()),
    }
}

// A message from a channel to a variable.
pub(crate) fn emit_input(
    code: &mut Vec<Statement>,
    words: FrameWords,
    channel: &CoreChannel,
    message: MessageKind,
    v: u32,
) -> Result<(), AllocError>
    ensures { OnOk result (code.new.items ≡ code.old.items
        ++ input_code (length code.old.items) words channel.now message v) }
{
    let word = v.wrapping_add(words.base);
    keep_channel(code, words, channel)?;
    emit_clear(code, message, word)?;
    put(code, Function::LoadLocalPointer, word)?;
    let bytes = message_bytes(message);
    emit_transfer(code, words, channel, bytes, INPUT_MESSAGE)
}

// A message from a channel to an element of an array.
pub(crate) fn emit_input_element(
    code: &mut Vec<Statement>,
    words: FrameWords,
    channel: &CoreChannel,
    array: CoreArray,
    i: &Expression,
) -> Result<(), AllocError>
    ensures { OnOk result (code.new.items ≡ code.old.items
        ++ input_element_code (length code.old.items) words channel.now array i.now) }
{
    keep_channel(code, words, channel)?;
    emit_expression(code, after_channel(words, channel), i)?;
    emit_address(code, words.base, array)?;
    let bytes = bytes_of(array.kind, 1);
    emit_transfer(code, words, channel, bytes, INPUT_MESSAGE)
}

// A message of all bytes of an array, by `in` or `out`.
pub(crate) fn emit_array_message(
    code: &mut Vec<Statement>,
    words: FrameWords,
    channel: &CoreChannel,
    array: CoreArray,
    operation: u32,
) -> Result<(), AllocError>
    ensures { OnOk result (code.new.items ≡ code.old.items
        ++ array_message_code (length code.old.items) words channel.now array operation) }
{
    keep_channel(code, words, channel)?;
    put(
        code,
        Function::LoadLocalPointer,
        array.first.wrapping_add(words.base),
    )?;
    emit_transfer(code, words, channel, array_bytes(array), operation)
}

// The operation that sends a value.
fn output_operation(message: MessageKind) -> u32
    ensures { asm.operation result ≡ operation_of_output message }
{
    match message {
        MessageKind::Byte => OUTPUT_BYTE,
        MessageKind::Word => OUTPUT_WORD,
    }
}

// A value to a channel. It is kept if it needs registers.
pub(crate) fn emit_output(
    code: &mut Vec<Statement>,
    words: FrameWords,
    channel: &CoreChannel,
    message: MessageKind,
    e: &Expression,
) -> Result<(), AllocError>
    ensures { OnOk result (code.new.items ≡ code.old.items
        ++ output_code (length code.old.items) words channel.now message e.now) }
{
    let operation = output_operation(message);
    let free = after_channel(words, channel);
    keep_channel(code, words, channel)?;
    if is_leaf(e) {
        emit_channel(code, words, channel)?;
        emit_expression(code, free, e)?;
        operate(code, operation)
    } else {
        emit_expression(code, free, e)?;
        put(code, Function::StoreLocal, free.temporary)?;
        emit_channel(code, words, channel)?;
        put(code, Function::LoadLocal, free.temporary)?;
        operate(code, operation)
    }
}
