//! The lines of a text with their numbers.
ghost use Rattle.std.specs.Prelude.{◌≡◌, ◌+◌, ℕ, [], IfOk, IfSome, length, slice_get};
ghost use Rattle.script_text.specs.Lines.{from_line, IsLine};

use crate::lines::split_line;
use std::alloc::{AllocError, Global};

/// A line of a text, without its end.
#[derive(Clone, Copy)]
pub struct NumberedLine<'a> {
    /// The number of the line, from 1.
    pub number: u64,
    /// Its bytes.
    pub text: &'a [u8],
}

/// All lines of a text, in their order. What follows its last line feed is a line only if it isn't empty.
pub fn numbered_lines<'a>(
    alloc: Global,
    text: &'a [u8],
) -> Result<Vec<NumberedLine<'a>>, AllocError>
    ensures lines { IfOk result (λ lines. (k : ℕ) → IfSome (slice_get lines.items k) (λ line. IsLine text.now k line.text.now)) }
    ensures numbers { IfOk result (λ lines. (k : ℕ) → IfSome (slice_get lines.items k) (λ line. line.number ≡ k + 1)) }
    ensures whole { IfOk result (λ lines. from_line (length lines.items) text.now ≡ []) }
{
    let mut lines = Vec::new(alloc);
    let mut rest = text;
    while !rest.is_empty() {
        let (line, after) = split_line(rest);
        let number = lines.len() as u64 + 1;
        lines.push(NumberedLine { number, text: line })?;
        rest = after;
    }
    Ok(lines)
}
