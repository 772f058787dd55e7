//! Expressions of the core.

use serde::Deserialize;

/// An operation on one value.
#[derive(Clone, Copy, Deserialize)]
pub enum OneOperation {
    /// 0 less the value, which is an error for the least INT.
    Negate,
    /// 0 less the value, modulo 2^32.
    Minus,
    /// Each bit the other way.
    Complement,
    /// 1 of 0, and else 0.
    Not,
}

/// An operation on two values.
#[derive(Clone, Copy, Deserialize)]
pub enum TwoOperation {
    /// The sum, which is an error if no INT has it.
    Add,
    /// The same of the difference.
    Subtract,
    /// The same of the product.
    Multiply,
    /// The quotient towards 0; an error by 0, and of the least INT by -1.
    Divide,
    /// What is left of the left value, with its sign; an error by 0.
    Remainder,
    /// The sum modulo 2^32.
    Plus,
    /// The difference modulo 2^32.
    Minus,
    /// The product modulo 2^32.
    Times,
    BitAnd,
    BitOr,
    BitXor,
    /// The left value's bits moved up; an error by more than 32 places.
    ShiftLeft,
    /// The left value's bits moved down; an error by more than 32 places.
    ShiftRight,
    Equal,
    NotEqual,
    /// Of two numbers in two's complement, as the three after it.
    Less,
    Greater,
    AtMost,
    AtLeast,
}

/// How the elements of an array are kept.
#[derive(Clone, Copy, Deserialize)]
pub enum ElementKind {
    /// A BYTE: four in a word, the first in the least significant byte.
    Byte,
    /// An INT or a BOOL: a word each.
    Word,
}

/// An array of variables.
#[derive(Clone, Copy)]
pub struct CoreArray {
    /// The number of the variable that has its first word.
    pub first: u32,
    /// How many elements it has.
    pub length: u32,
    pub kind: ElementKind,
}

/// An expression of the core. Its value is a word of 32 bits: an INT in two's complement, a BYTE, or 0 or 1 for a BOOL.
///
/// Source: occam 2 reference manual, expressions.
pub enum Expression {
    /// A constant.
    Number(u32),
    /// The variable of this number.
    Variable(u32),
    /// The element of this subscript, from 0, which is an error unless the array has it.
    Element(CoreArray, Box<Expression>),
    One(OneOperation, Box<Expression>),
    /// Both sides are evaluated.
    Two(TwoOperation, Box<Expression>, Box<Expression>),
    /// 0 if the left value is 0, and else the right value, which is evaluated only then.
    And(Box<Expression>, Box<Expression>),
    /// 1 if the left value isn't 0, and else whether the right value isn't 0, which is evaluated only then.
    Or(Box<Expression>, Box<Expression>),
    /// The value, which is an error unless it is below this bound.
    Below(u32, Box<Expression>),
}

// Dropped by hand, since a derived `Drop` makes callers prove the drop of each part.
impl Drop for Expression {
    fn drop(self) {
        match self {
            Expression::Number(_) | Expression::Variable(_) => {}
            Expression::Element(_, _) | Expression::One(_, _) | Expression::Below(_, _) => {}
            Expression::Two(_, _, _) | Expression::And(_, _) | Expression::Or(_, _) => {}
        }
    }
}
