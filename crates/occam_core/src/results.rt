//! What operations give.
ghost use Rattle.std.specs.Prelude.{◌≡◌};
ghost use Rattle.occam_core.specs.Values.{result_of as result_of_two, result_of_one, unless, truth};
ghost use Rattle.occam_core.specs.declared.expression.TwoOperation.TheVariants.{Divide, Remainder, ShiftLeft, ShiftRight};

use crate::expression::{OneOperation, TwoOperation};
use node_memory::{add_checked, mul_checked, signed, sub_checked};

// FALSE is 0, and TRUE is 1.
fn truth(holds: bool) -> u32
    ensures { result ≡ truth holds }
{
    u32::from(holds)
}

// A value, unless there was an error.
fn unless_set(checked: (u32, bool)) -> Option<u32>
    ensures { result ≡ unless checked.1 checked.0 }
{
    let (value, is_error) = checked;
    if is_error { None } else { Some(value) }
}

/// What an operation gives of a value, or none if that is an error.
///
/// Source: occam 2 reference manual, expressions.
pub fn result_of_one(operation: OneOperation, value: u32) -> Option<u32>
    ensures { result ≡ result_of_one operation value }
{
    match operation {
        OneOperation::Negate => unless_set(sub_checked(0, value)),
        OneOperation::Minus => Some(0u32.wrapping_sub(value)),
        OneOperation::Complement => Some(!value),
        OneOperation::Not => Some(truth(value == 0)),
    }
}

/// What an operation gives of two values, or none if that is an error.
///
/// Source: occam 2 reference manual, expressions.
pub fn result_of_two(operation: TwoOperation, left: u32, right: u32) -> Option<u32>
    ensures { result ≡ result_of_two operation left right }
{
    match operation {
        TwoOperation::Add => unless_set(add_checked(left, right)),
        TwoOperation::Subtract => unless_set(sub_checked(left, right)),
        TwoOperation::Multiply => unless_set(mul_checked(left, right)),
        TwoOperation::Divide => quotient(left, right),
        TwoOperation::Remainder => remainder(left, right),
        TwoOperation::Plus => Some(left.wrapping_add(right)),
        TwoOperation::Minus => Some(left.wrapping_sub(right)),
        TwoOperation::Times => Some(left.wrapping_mul(right)),
        TwoOperation::BitAnd => Some(left & right),
        TwoOperation::BitOr => Some(left | right),
        TwoOperation::BitXor => Some(left ^ right),
        TwoOperation::ShiftLeft => shifted_left(left, right),
        TwoOperation::ShiftRight => shifted_right(left, right),
        TwoOperation::Equal => Some(truth(left == right)),
        TwoOperation::NotEqual => Some(truth(left != right)),
        TwoOperation::Less => Some(truth(signed(left) < signed(right))),
        TwoOperation::Greater => Some(truth(signed(right) < signed(left))),
        TwoOperation::AtMost => Some(truth(signed(right) >= signed(left))),
        TwoOperation::AtLeast => Some(truth(signed(left) >= signed(right))),
    }
}

// The quotient towards 0.
fn quotient(left: u32, right: u32) -> Option<u32>
    ensures { result ≡ result_of_two Divide left right }
{
    let quotient = signed(left).checked_div(signed(right))?;
    Some(quotient.cast_unsigned())
}

// What is left of the left value, with its sign.
fn remainder(left: u32, right: u32) -> Option<u32>
    ensures { result ≡ result_of_two Remainder left right }
{
    if right == 0 {
        return None;
    }
    Some(signed(left).wrapping_rem(signed(right)).cast_unsigned())
}

// The bits moved up.
fn shifted_left(value: u32, places: u32) -> Option<u32>
    ensures { result ≡ result_of_two ShiftLeft value places }
{
    match places {
        0..32 => Some(value << places),
        32 => Some(0),
        _ => None,
    }
}

// The bits moved down.
fn shifted_right(value: u32, places: u32) -> Option<u32>
    ensures { result ≡ result_of_two ShiftRight value places }
{
    match places {
        0..32 => Some(value >> places),
        32 => Some(0),
        _ => None,
    }
}
