//! Single instructions at the end of a list of statements.
ghost use Rattle.std.specs.Prelude.{◌≡◌, ◌<◌, ◌+◌, [], ◌∷◌, ◌++◌, OnOk, length, slice_set};
ghost use Rattle.t414_decode.specs.declared.instruction.Function.TheVariants.{LoadConstant, LoadLocal, StoreLocal, ConditionalJump, EqualsConstant};
ghost use Rattle.occam_code.specs.Instructions.{instruction, operation, to_place, ldc_distance};

use std::alloc::AllocError;
use t414_assembly::{Operand, Statement};
use t414_decode::Function;

// The operations that are used, by their codes. Transputer instruction set handbook, operations.
pub(crate) const REVERSE: u32 = 0x00;

pub(crate) const LOAD_BYTE: u32 = 0x01;

pub(crate) const BYTE_SUBSCRIPT: u32 = 0x02;

pub(crate) const END_PROCESS: u32 = 0x03;

pub(crate) const DIFFERENCE: u32 = 0x04;

pub(crate) const ADD: u32 = 0x05;

pub(crate) const INPUT_MESSAGE: u32 = 0x07;

pub(crate) const PRODUCT: u32 = 0x08;

pub(crate) const GREATER_THAN: u32 = 0x09;

pub(crate) const WORD_SUBSCRIPT: u32 = 0x0a;

pub(crate) const OUTPUT_MESSAGE: u32 = 0x0b;

pub(crate) const SUBTRACT: u32 = 0x0c;

pub(crate) const START_PROCESS: u32 = 0x0d;

pub(crate) const OUTPUT_BYTE: u32 = 0x0e;

pub(crate) const OUTPUT_WORD: u32 = 0x0f;

pub(crate) const SET_ERROR: u32 = 0x10;

pub(crate) const CHECK_SUBSCRIPT: u32 = 0x13;

pub(crate) const STOP_PROCESS: u32 = 0x15;

pub(crate) const LOAD_POINTER_TO_INSTRUCTION: u32 = 0x1b;

pub(crate) const REMAINDER: u32 = 0x1f;

pub(crate) const LOOP_END: u32 = 0x21;

pub(crate) const DIVIDE: u32 = 0x2c;

pub(crate) const DISABLE_CHANNEL: u32 = 0x2f;

pub(crate) const DISABLE_SKIP: u32 = 0x30;

pub(crate) const NOT: u32 = 0x32;

pub(crate) const EXCLUSIVE_OR: u32 = 0x33;

pub(crate) const STORE_BYTE: u32 = 0x3b;

pub(crate) const SHIFT_RIGHT: u32 = 0x40;

pub(crate) const SHIFT_LEFT: u32 = 0x41;

pub(crate) const MINIMUM_INTEGER: u32 = 0x42;

pub(crate) const ALT_START: u32 = 0x43;

pub(crate) const ALT_WAIT: u32 = 0x44;

pub(crate) const ALT_END: u32 = 0x45;

pub(crate) const AND: u32 = 0x46;

pub(crate) const ENABLE_CHANNEL: u32 = 0x48;

pub(crate) const ENABLE_SKIP: u32 = 0x49;

pub(crate) const MOVE_MESSAGE: u32 = 0x4a;

pub(crate) const OR: u32 = 0x4b;

pub(crate) const SUM: u32 = 0x52;

pub(crate) const MULTIPLY: u32 = 0x53;

pub(crate) const SET_HALT_ON_ERROR: u32 = 0x58;

// One more instruction, with a number.
pub(crate) fn put(
    code: &mut Vec<Statement>,
    function: Function,
    number: u32,
) -> Result<(), AllocError>
    ensures { OnOk result (code.new.items ≡ code.old.items ++ instruction function number ∷ []) }
{
    code.push(Statement::Instruction(function, Operand::Number(number)))?;
    Ok(())
}

// One more operation, of this code.
pub(crate) fn operate(code: &mut Vec<Statement>, number: u32) -> Result<(), AllocError>
    ensures { OnOk result (code.new.items ≡ code.old.items ++ operation number ∷ []) }
{
    put(code, Function::Operate, number)
}

// One more jump, to a place.
pub(crate) fn jump_to(
    code: &mut Vec<Statement>,
    function: Function,
    place: usize,
) -> Result<(), AllocError>
    ensures { OnOk result (code.new.items ≡ code.old.items ++ to_place function place ∷ []) }
{
    code.push(Statement::Instruction(function, Operand::Label(place, 0)))?;
    Ok(())
}

// The jump at this place goes to the end of the code.
pub(crate) fn land(code: &mut Vec<Statement>, place: usize, function: Function)
    requires { place < length code.old.items }
    ensures { code.new.items ≡ slice_set code.old.items place (to_place function (length code.old.items)) }
{
    code[place] = Statement::Instruction(function, Operand::Label(code.len(), 0));
}

// The statement at this place loads how far the end of the code is from another place.
pub(crate) fn land_from(code: &mut Vec<Statement>, place: usize, from: usize)
    requires { place < length code.old.items }
    ensures { code.new.items ≡ slice_set code.old.items place (ldc_distance (length code.old.items) from) }
{
    code[place] = Statement::Instruction(
        Function::LoadConstant,
        Operand::Difference(code.len(), from, 0),
    );
}
