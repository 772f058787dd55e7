//! What is known of subscripts while compiling.
ghost use Rattle.std.specs.Prelude.{◌≡◌, None, drop};
ghost use Rattle.occam_uses.specs.Subscripts.{later_values, index_values, offset, variable_values, moved_values, subscript_values, loop_values};

use occam_core::{Expression, TwoOperation};

/// Words from `first` on, each one more modulo 2^32, as many as `count` says.
#[derive(Clone, Copy)]
pub struct SubscriptValues {
    pub first: u32,
    pub count: u32,
}

/// The index of a loop around a process, and the values that it may have, if they are known.
#[derive(Clone, Copy)]
pub struct LoopIndex {
    pub variable: u32,
    pub values: Option<SubscriptValues>,
}

// What the index of a loop may be.
pub(crate) fn loop_values(base: &Expression, count: &Expression) -> Option<SubscriptValues>
    ensures { result ≡ loop_values base.now count.now }
{
    match (base, count) {
        (Expression::Number(first), Expression::Number(count)) => Some(SubscriptValues {
            first: *first,
            count: if *count < 0x8000_0000 { *count } else { 0 },
        }),
        _ => None,
    }
}

// What a variable may be: it may be the index of loops. The last is the innermost.
fn index_values(indices: &[LoopIndex], variable: u32) -> Option<SubscriptValues>
    ensures { result ≡ index_values indices.now variable }
{
    let mut values = None;
    for index in indices {
        if index.variable == variable {
            values = index.values;
        }
    }
    values
}

// The same of an expression that is a variable.
fn variable_values(indices: &[LoopIndex], e: &Expression) -> Option<SubscriptValues>
    ensures { result ≡ variable_values indices.now e.now }
{
    match e {
        Expression::Variable(v) => index_values(indices, *v),
        _ => None,
    }
}

// What is added modulo 2^32 by `+` or `-` and a constant.
fn offset(operation: TwoOperation, e: &Expression) -> Option<u32>
    ensures { result ≡ offset operation e.now }
{
    match (operation, e) {
        (TwoOperation::Add, Expression::Number(n)) => Some(*n),
        (TwoOperation::Subtract, Expression::Number(n)) => Some(0u32.wrapping_sub(*n)),
        _ => None,
    }
}

// Values, each with something added.
fn moved_values(by: Option<u32>, values: Option<SubscriptValues>) -> Option<SubscriptValues>
    ensures { result ≡ moved_values by values }
{
    match (by, values) {
        (Some(by), Some(values)) => Some(SubscriptValues {
            first: values.first.wrapping_add(by),
            count: values.count,
        }),
        _ => None,
    }
}

// What a subscript may be, if it is known.
pub(crate) fn subscript_values(indices: &[LoopIndex], e: &Expression) -> Option<SubscriptValues>
    ensures { result ≡ subscript_values indices.now e.now }
{
    match e {
        Expression::Number(n) => Some(SubscriptValues {
            first: *n,
            count: 1,
        }),
        Expression::Two(operation, left, right) => moved_values(
            offset(*operation, right),
            variable_values(indices, left),
        ),
        _ => variable_values(indices, e),
    }
}
