//! Lines of texts that a person writes: their words, and the answers that they expect.
#![tactic(auto)]

mod fault;
mod mistake;
mod questions;
mod utf8;
mod wanted;
mod words;

pub use fault::{NumberedLineFault, WordFault};
pub use mistake::{MetText, ShownWord, WordMistake, WrongLine};
pub use questions::{Answered, Question, read_questions};
pub use utf8::line_as_str;
pub use wanted::{Wanted, WordForm};
pub use words::{WordPlace, Words};
