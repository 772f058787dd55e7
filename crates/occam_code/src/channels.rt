//! The code of channels where they are used.
ghost use Rattle.std.specs.Prelude.{◌≡◌, ◌≤◌, ◌++◌, OnOk, length};
ghost use Rattle.occam_code.specs.Filled.{channel_size};
ghost use Rattle.occam_code.specs.Guards.{keep_channel as keep_channel_code, after_channel as words_after_channel, channel_code};

use crate::expressions::{emit_address, emit_expression};
use crate::frame::{FrameWords, after_one};
use crate::instructions::*;
use occam_core::CoreChannel;
use std::alloc::AllocError;
use t414_assembly::Statement;
use t414_decode::Function;

// Before all else the address of an element of an array of channels is kept in the first word that is free.
pub(crate) fn keep_channel(
    code: &mut Vec<Statement>,
    words: FrameWords,
    channel: &CoreChannel,
) -> Result<(), AllocError>
    ensures { OnOk result (code.new.items ≡ code.old.items ++ keep_channel_code (length code.old.items) words channel.now) }
{
    match channel {
        CoreChannel::Link(_) | CoreChannel::Inside(_) => Ok(()),
        CoreChannel::Element(array, i) => {
            emit_expression(code, words, i)?;
            emit_address(code, words.base, *array)?;
            put(code, Function::StoreLocal, words.temporary)
        }
    }
}

// The words that are free after that.
pub(crate) fn after_channel(words: FrameWords, channel: &CoreChannel) -> FrameWords
    ensures { result ≡ words_after_channel words channel.now }
{
    match channel {
        CoreChannel::Link(_) | CoreChannel::Inside(_) => words,
        CoreChannel::Element(_, _) => after_one(words),
    }
}

// The address of a channel. `words` are those before the address of an element was kept.
pub(crate) fn emit_channel(
    code: &mut Vec<Statement>,
    words: FrameWords,
    channel: &CoreChannel,
) -> Result<(), AllocError>
    ensures { OnOk result (code.new.items ≡ code.old.items ++ channel_code words channel.now) }
{
    match channel {
        CoreChannel::Link(number) => {
            operate(code, MINIMUM_INTEGER)?;
            if *number == 0 {
                Ok(())
            } else {
                put(code, Function::LoadNonLocalPointer, u32::from(*number))
            }
        }
        CoreChannel::Inside(v) => put(code, Function::LoadLocalPointer, v.wrapping_add(words.base)),
        CoreChannel::Element(_, _) => put(code, Function::LoadLocal, words.temporary),
    }
}

// How many statements load the address of a channel: one or two.
pub(crate) fn channel_length(channel: &CoreChannel) -> usize
    ensures size { result ≡ channel_size channel.now }
    ensures short { result ≤ 2 }
{
    match channel {
        CoreChannel::Link(0) | CoreChannel::Inside(_) | CoreChannel::Element(_, _) => 1,
        CoreChannel::Link(_) => 2,
    }
}
