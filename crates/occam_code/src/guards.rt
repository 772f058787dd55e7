//! The code of the guards of an ALT.
ghost use Rattle.std.specs.Prelude.{◌≡◌, ◌≤◌, ◌∷◌, [], ◌++◌, OnOk, length, map};
ghost use Rattle.occam_code.specs.Instructions as asm;
ghost use Rattle.occam_code.specs.Filled.{guard_size};
ghost use Rattle.occam_code.specs.Guards.{keep_value as keep_value_code, after_value as words_after_value, value_code, condition_of as condition, keep_guard as keep_guard_code, after_guard as words_after_guard, guard_code, guards_of, keep_guards as keep_guards_code, is_always as always, has_open as any_open, or_conditions, open_code, check_code, enables_code, disables_code};

use crate::channels::{after_channel, channel_length, emit_channel, keep_channel};
use crate::expressions::{emit_expression, is_leaf};
use crate::frame::{FrameWords, after_one};
use crate::instructions::*;
use occam_core::{CoreGuard, CoreProcess, Expression};
use std::alloc::AllocError;
use t414_assembly::Statement;
use t414_decode::Function;

// A condition is kept in the first word that is free, unless it is a leaf.
fn keep_value(
    code: &mut Vec<Statement>,
    words: FrameWords,
    e: &Expression,
) -> Result<(), AllocError>
    ensures { OnOk result (code.new.items ≡ code.old.items ++ keep_value_code (length code.old.items) words e.now) }
{
    if is_leaf(e) {
        Ok(())
    } else {
        emit_expression(code, words, e)?;
        put(code, Function::StoreLocal, words.temporary)
    }
}

// The words that are free after that.
fn after_value(words: FrameWords, e: &Expression) -> FrameWords
    ensures { result ≡ words_after_value words e.now }
{
    if is_leaf(e) { words } else { after_one(words) }
}

// A condition that is a leaf, or was kept.
fn emit_value(
    code: &mut Vec<Statement>,
    words: FrameWords,
    e: &Expression,
) -> Result<(), AllocError>
    ensures { OnOk result (code.new.items ≡ code.old.items ++ value_code words e.now ∷ []) }
{
    match e {
        Expression::Number(n) => put(code, Function::LoadConstant, *n),
        Expression::Variable(v) => put(code, Function::LoadLocal, v.wrapping_add(words.base)),
        _ => put(code, Function::LoadLocal, words.temporary),
    }
}

// The condition of a guard.
fn condition_of(guard: &CoreGuard) -> &Expression
    ensures { result.now ≡ condition guard.now }
{
    match guard {
        CoreGuard::Input(e, _) | CoreGuard::Skip(e) => e,
    }
}

// The condition and the channel of a guard are kept.
fn keep_guard(
    code: &mut Vec<Statement>,
    words: FrameWords,
    guard: &CoreGuard,
) -> Result<(), AllocError>
    ensures { OnOk result (code.new.items ≡ code.old.items ++ keep_guard_code (length code.old.items) words guard.now) }
{
    match guard {
        CoreGuard::Input(e, channel) => {
            keep_value(code, words, e)?;
            keep_channel(code, after_value(words, e), channel)
        }
        CoreGuard::Skip(e) => keep_value(code, words, e),
    }
}

// The words that are free after that.
pub(crate) fn after_guard(words: FrameWords, guard: &CoreGuard) -> FrameWords
    ensures { result ≡ words_after_guard words guard.now }
{
    match guard {
        CoreGuard::Input(e, channel) => after_channel(after_value(words, e), channel),
        CoreGuard::Skip(e) => after_value(words, e),
    }
}

// The channel and the condition of a guard.
fn emit_guard(
    code: &mut Vec<Statement>,
    words: FrameWords,
    guard: &CoreGuard,
) -> Result<(), AllocError>
    ensures { OnOk result (code.new.items ≡ code.old.items ++ guard_code words guard.now) }
{
    match guard {
        CoreGuard::Input(e, channel) => {
            emit_channel(code, after_value(words, e), channel)?;
            emit_value(code, words, e)
        }
        CoreGuard::Skip(e) => emit_value(code, words, e),
    }
}

// What all guards of an ALT need is kept.
pub(crate) fn keep_guards(
    code: &mut Vec<Statement>,
    words: FrameWords,
    p: &CoreProcess,
) -> Result<(), AllocError>
    ensures { OnOk result (code.new.items ≡ code.old.items ++ keep_guards_code (length code.old.items) words (guards_of p.now)) }
{
    match p {
        CoreProcess::Choose(guard, _, others) => {
            keep_guard(code, words, guard)?;
            keep_guards(code, after_guard(words, guard), others)
        }
        _ => Ok(()),
    }
}

// Whether a condition is a constant other than FALSE.
fn is_always(e: &Expression) -> bool
    ensures { result ≡ always e.now }
{
    match e {
        Expression::Number(n) => *n != 0,
        _ => false,
    }
}

// Whether a guard of an ALT is open in any case.
fn has_open(p: &CoreProcess) -> bool
    ensures { result ≡ any_open (guards_of p.now) }
{
    match p {
        CoreProcess::Choose(guard, _, others) => is_always(condition_of(guard)) || has_open(others),
        _ => false,
    }
}

// A or one of the conditions of the guards.
fn emit_or_conditions(
    code: &mut Vec<Statement>,
    words: FrameWords,
    p: &CoreProcess,
) -> Result<(), AllocError>
    ensures { OnOk result (code.new.items ≡ code.old.items ++ or_conditions words (guards_of p.now)) }
{
    match p {
        CoreProcess::Choose(guard, _, others) => {
            emit_value(code, words, condition_of(guard))?;
            operate(code, OR)?;
            emit_or_conditions(code, after_guard(words, guard), others)
        }
        _ => Ok(()),
    }
}

// It is an error if no guard of an ALT is open, which isn't looked for if one is in any case.
pub(crate) fn emit_check(
    code: &mut Vec<Statement>,
    words: FrameWords,
    p: &CoreProcess,
) -> Result<(), AllocError>
    ensures { OnOk result (code.new.items ≡ code.old.items ++ check_code (length code.old.items) words (guards_of p.now)) }
{
    if has_open(p) {
        Ok(())
    } else {
        emit_open(code, words, p)
    }
}

// It is an error if no guard of an ALT is open.
fn emit_open(
    code: &mut Vec<Statement>,
    words: FrameWords,
    p: &CoreProcess,
) -> Result<(), AllocError>
    ensures { OnOk result (code.new.items ≡ code.old.items ++ open_code (length code.old.items) words (guards_of p.now)) }
{
    match p {
        CoreProcess::Choose(guard, _, others) => {
            emit_value(code, words, condition_of(guard))?;
            emit_or_conditions(code, after_guard(words, guard), others)?;
            put(code, Function::EqualsConstant, 0)?;
            let end = code.len() + 2;
            jump_to(code, Function::ConditionalJump, end)?;
            operate(code, SET_ERROR)
        }
        _ => Ok(()),
    }
}

// The guards of an ALT are enabled.
pub(crate) fn emit_enables(
    code: &mut Vec<Statement>,
    words: FrameWords,
    p: &CoreProcess,
) -> Result<(), AllocError>
    ensures { OnOk result (code.new.items ≡ code.old.items ++ enables_code words (guards_of p.now)) }
{
    match p {
        CoreProcess::Choose(guard, _, others) => {
            emit_guard(code, words, guard)?;
            let enable = match guard {
                CoreGuard::Input(_, _) => ENABLE_CHANNEL,
                CoreGuard::Skip(_) => ENABLE_SKIP,
            };
            operate(code, enable)?;
            emit_enables(code, after_guard(words, guard), others)
        }
        _ => Ok(()),
    }
}

// They are disabled, with 0 instead of how far it is to the process of each.
pub(crate) fn emit_disables(
    code: &mut Vec<Statement>,
    words: FrameWords,
    p: &CoreProcess,
) -> Result<(), AllocError>
    ensures { OnOk result (code.new.items ≡ code.old.items
        ++ disables_code words (map (λ g. asm.ldc 0) (guards_of p.now)) (guards_of p.now)) }
{
    match p {
        CoreProcess::Choose(guard, _, others) => {
            emit_guard(code, words, guard)?;
            put(code, Function::LoadConstant, 0)?;
            let disable = match guard {
                CoreGuard::Input(_, _) => DISABLE_CHANNEL,
                CoreGuard::Skip(_) => DISABLE_SKIP,
            };
            operate(code, disable)?;
            emit_disables(code, after_guard(words, guard), others)
        }
        _ => Ok(()),
    }
}

// How many statements load the channel and the condition of a guard.
pub(crate) fn guard_length(guard: &CoreGuard) -> usize
    ensures size { result ≡ guard_size guard.now }
    ensures short { result ≤ 3 }
{
    match guard {
        CoreGuard::Input(_, channel) => channel_length(channel) + 1,
        CoreGuard::Skip(_) => 1,
    }
}
