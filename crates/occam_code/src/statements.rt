//! The code of the parts of processes that hold no other process.
ghost use Rattle.std.specs.Prelude.{◌≡◌, [], ◌∷◌, ◌++◌, OnOk, length};
ghost use Rattle.occam_code.specs.Code.{assign_element_code, channels_code, copy_code, store_code, count_code, loop_end_code};

use crate::expressions::{emit_address, emit_expression};
use crate::frame::{FrameWords, after_one};
use crate::instructions::*;
use crate::messages::array_bytes;
use occam_core::{CoreArray, ElementKind, Expression};
use std::alloc::AllocError;
use t414_assembly::Statement;
use t414_decode::Function;

// A value to an element of an array. The value is kept in a temporary while the element's address is found.
pub(crate) fn emit_assign_element(
    code: &mut Vec<Statement>,
    words: FrameWords,
    array: CoreArray,
    i: &Expression,
    e: &Expression,
) -> Result<(), AllocError>
    ensures { OnOk result (code.new.items ≡ code.old.items ++ assign_element_code (length code.old.items) words array i.now e.now) }
{
    emit_expression(code, words, e)?;
    put(code, Function::StoreLocal, words.temporary)?;
    emit_expression(code, after_one(words), i)?;
    emit_address(code, words.base, array)?;
    put(code, Function::LoadLocal, words.temporary)?;
    operate(code, REVERSE)?;
    emit_store(code, array.kind)
}

// B to the element at A.
fn emit_store(code: &mut Vec<Statement>, kind: ElementKind) -> Result<(), AllocError>
    ensures { OnOk result (code.new.items ≡ code.old.items ++ store_code kind ∷ []) }
{
    match kind {
        ElementKind::Byte => operate(code, STORE_BYTE),
        ElementKind::Word => put(code, Function::StoreNonLocal, 0),
    }
}

// The elements of an array to another.
pub(crate) fn emit_copy(
    code: &mut Vec<Statement>,
    base: u32,
    to: CoreArray,
    from: CoreArray,
) -> Result<(), AllocError>
    ensures { OnOk result (code.new.items ≡ code.old.items ++ copy_code base to from) }
{
    put(
        code,
        Function::LoadLocalPointer,
        from.first.wrapping_add(base),
    )?;
    put(
        code,
        Function::LoadLocalPointer,
        to.first.wrapping_add(base),
    )?;
    put(code, Function::LoadConstant, array_bytes(to))?;
    operate(code, MOVE_MESSAGE)
}

// This number of variables become channels by which nothing is sent yet.
pub(crate) fn emit_channels(
    code: &mut Vec<Statement>,
    base: u32,
    first: u32,
    count: u32,
) -> Result<(), AllocError>
    ensures { OnOk result (code.new.items ≡ code.old.items ++ channels_code base first count) }
{
    for k in 0..count {
        operate(code, MINIMUM_INTEGER)?;
        let v = first.wrapping_add(k);
        put(code, Function::StoreLocal, v.wrapping_add(base))?;
    }
    Ok(())
}

// The number of turns is kept in a word. It is an error if it is negative as an INT.
pub(crate) fn emit_count(code: &mut Vec<Statement>, word: u32) -> Result<(), AllocError>
    ensures { OnOk result (code.new.items ≡ code.old.items ++ count_code word) }
{
    operate(code, MINIMUM_INTEGER)?;
    operate(code, CHECK_SUBSCRIPT)?;
    put(code, Function::StoreLocal, word)?;
    put(code, Function::LoadLocal, word)
}

// The end of a loop whose index is in a word and whose body begins at a place.
pub(crate) fn emit_loop_end(
    code: &mut Vec<Statement>,
    word: u32,
    body: usize,
) -> Result<(), AllocError>
    ensures { OnOk result (code.new.items ≡ code.old.items ++ loop_end_code (length code.old.items) word body) }
{
    put(code, Function::LoadLocalPointer, word)?;
    let size = code.len();
    put(code, Function::LoadConstant, 0)?;
    operate(code, LOOP_END)?;
    land_from(code, size, body);
    Ok(())
}
