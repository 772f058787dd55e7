//! The code of expressions.
ghost use Rattle.std.specs.Prelude.{◌≡◌, [], ◌∷◌, ◌++◌, OnOk, length};
ghost use Rattle.occam_code.specs.Instructions as asm;
ghost use Rattle.occam_code.specs.Words.{is_leaf};
ghost use Rattle.occam_code.specs.Evaluates.{HasWords, GivesValue};
ghost use Rattle.occam_code.specs.Expressions.{one_code, shift_code, two_code, subscript_code, address_code, load_code, expression_code};

use crate::frame::{FrameWords, after_one};
use crate::instructions::*;
use occam_core::{CoreArray, ElementKind, Expression, OneOperation, TwoOperation};
use std::alloc::AllocError;
use t414_assembly::Statement;
use t414_decode::Function;

// Whether the expression needs no register but the one that gets its value.
pub(crate) fn is_leaf(e: &Expression) -> bool
    ensures { result ≡ is_leaf e.now }
{
    matches!(e, Expression::Number(_) | Expression::Variable(_))
}

/// Appends the code of an expression, which leaves its value in register A. Labels are places, from the start of `code`.
/// Values that are needed later are kept in the words that are free. An error sets the flag Error.
///
/// # Errors
///
/// If the statements can't be kept. Some of them may have been appended then.
pub fn emit_expression(
    code: &mut Vec<Statement>,
    words: FrameWords,
    e: &Expression,
) -> Result<(), AllocError>
    ensures code { OnOk result (code.new.items ≡ code.old.items ++ expression_code (length code.old.items) words e.now) }
    ensures gives { OnOk result (GivesValue (length code.old.items) (length code.new.items) code.new.items words e.now) }
{
    put_expression(code, words, e)
}

// The same, part by part.
fn put_expression(
    code: &mut Vec<Statement>,
    words: FrameWords,
    e: &Expression,
) -> Result<(), AllocError>
    ensures code { OnOk result (code.new.items ≡ code.old.items ++ expression_code (length code.old.items) words e.now) }
    ensures words { OnOk result (HasWords e.now) }
{
    match e {
        Expression::Number(n) => put(code, Function::LoadConstant, *n),
        Expression::Variable(v) => put(code, Function::LoadLocal, v.wrapping_add(words.base)),
        Expression::Element(array, i) => {
            put_expression(code, words, i)?;
            emit_address(code, words.base, *array)?;
            emit_load(code, array.kind)
        }
        Expression::One(operation, x) => {
            put_expression(code, words, x)?;
            emit_one(code, *operation)
        }
        Expression::Two(operation, a, b) => {
            if is_leaf(b) {
                put_expression(code, words, a)?;
                put_expression(code, words, b)?;
                emit_two(code, *operation)
            } else {
                put_expression(code, words, b)?;
                put(code, Function::StoreLocal, words.temporary)?;
                put_expression(code, after_one(words), a)?;
                put(code, Function::LoadLocal, words.temporary)?;
                emit_two(code, *operation)
            }
        }
        Expression::And(a, b) => {
            put_expression(code, words, a)?;
            let skip = code.len();
            jump_to(code, Function::ConditionalJump, 0)?;
            put_expression(code, words, b)?;
            land(code, skip, Function::ConditionalJump);
            Ok(())
        }
        Expression::Or(a, b) => {
            put_expression(code, words, a)?;
            put(code, Function::EqualsConstant, 0)?;
            let choice = code.len();
            jump_to(code, Function::ConditionalJump, 0)?;
            put_expression(code, words, b)?;
            put(code, Function::EqualsConstant, 0)?;
            land(code, choice, Function::ConditionalJump);
            put(code, Function::EqualsConstant, 0)
        }
        Expression::Below(bound, x) => {
            put_expression(code, words, x)?;
            put(code, Function::LoadConstant, *bound)?;
            operate(code, CHECK_SUBSCRIPT)
        }
    }
}

// The address of an array's element, whose subscript is in A. It is an error if the array has no such element.
pub(crate) fn emit_address(
    code: &mut Vec<Statement>,
    base: u32,
    array: CoreArray,
) -> Result<(), AllocError>
    ensures { OnOk result (code.new.items ≡ code.old.items ++ address_code base array) }
{
    put(code, Function::LoadConstant, array.length)?;
    operate(code, CHECK_SUBSCRIPT)?;
    put(
        code,
        Function::LoadLocalPointer,
        array.first.wrapping_add(base),
    )?;
    emit_subscript(code, array.kind)
}

// The address of the element at B of the array at A.
fn emit_subscript(code: &mut Vec<Statement>, kind: ElementKind) -> Result<(), AllocError>
    ensures { OnOk result (code.new.items ≡ code.old.items ++ subscript_code kind ∷ []) }
{
    match kind {
        ElementKind::Byte => operate(code, BYTE_SUBSCRIPT),
        ElementKind::Word => operate(code, WORD_SUBSCRIPT),
    }
}

// The element at A.
fn emit_load(code: &mut Vec<Statement>, kind: ElementKind) -> Result<(), AllocError>
    ensures { OnOk result (code.new.items ≡ code.old.items ++ load_code kind ∷ []) }
{
    match kind {
        ElementKind::Byte => operate(code, LOAD_BYTE),
        ElementKind::Word => put(code, Function::LoadNonLocal, 0),
    }
}

// The operation on A.
fn emit_one(code: &mut Vec<Statement>, operation: OneOperation) -> Result<(), AllocError>
    ensures { OnOk result (code.new.items ≡ code.old.items ++ one_code operation) }
{
    match operation {
        OneOperation::Negate => {
            emit_zero(code)?;
            operate(code, SUBTRACT)
        }
        OneOperation::Minus => {
            emit_zero(code)?;
            operate(code, DIFFERENCE)
        }
        OneOperation::Complement => operate(code, NOT),
        OneOperation::Not => put(code, Function::EqualsConstant, 0),
    }
}

// 0 comes below A.
fn emit_zero(code: &mut Vec<Statement>) -> Result<(), AllocError>
    ensures { OnOk result (code.new.items ≡ code.old.items ++ asm.ldc 0 ∷ asm.rev ∷ []) }
{
    put(code, Function::LoadConstant, 0)?;
    operate(code, REVERSE)
}

// The operation on B and A, the left and the right value.
fn emit_two(code: &mut Vec<Statement>, operation: TwoOperation) -> Result<(), AllocError>
    ensures { OnOk result (code.new.items ≡ code.old.items ++ two_code operation) }
{
    match operation {
        TwoOperation::Add => operate(code, ADD),
        TwoOperation::Subtract => operate(code, SUBTRACT),
        TwoOperation::Multiply => operate(code, MULTIPLY),
        TwoOperation::Divide => operate(code, DIVIDE),
        TwoOperation::Remainder => operate(code, REMAINDER),
        TwoOperation::Plus => operate(code, SUM),
        TwoOperation::Minus => operate(code, DIFFERENCE),
        TwoOperation::Times => operate(code, PRODUCT),
        TwoOperation::BitAnd => operate(code, AND),
        TwoOperation::BitOr => operate(code, OR),
        TwoOperation::BitXor => operate(code, EXCLUSIVE_OR),
        TwoOperation::ShiftLeft => emit_shift(code, SHIFT_LEFT),
        TwoOperation::ShiftRight => emit_shift(code, SHIFT_RIGHT),
        TwoOperation::Equal => {
            operate(code, DIFFERENCE)?;
            put(code, Function::EqualsConstant, 0)
        }
        TwoOperation::NotEqual => {
            operate(code, DIFFERENCE)?;
            put(code, Function::EqualsConstant, 0)?;
            put(code, Function::EqualsConstant, 0)
        }
        TwoOperation::Less => emit_less(code),
        TwoOperation::Greater => operate(code, GREATER_THAN),
        TwoOperation::AtMost => {
            operate(code, GREATER_THAN)?;
            put(code, Function::EqualsConstant, 0)
        }
        TwoOperation::AtLeast => {
            emit_less(code)?;
            put(code, Function::EqualsConstant, 0)
        }
    }
}

// Whether B is less than A.
fn emit_less(code: &mut Vec<Statement>) -> Result<(), AllocError>
    ensures { OnOk result (code.new.items ≡ code.old.items ++ asm.rev ∷ asm.gt ∷ []) }
{
    operate(code, REVERSE)?;
    operate(code, GREATER_THAN)
}

// A shift by up to 32 places; more are an error.
fn emit_shift(code: &mut Vec<Statement>, shift: u32) -> Result<(), AllocError>
    ensures { OnOk result (code.new.items ≡ code.old.items ++ shift_code shift) }
{
    put(code, Function::LoadConstant, 33)?;
    operate(code, CHECK_SUBSCRIPT)?;
    operate(code, shift)
}
