//! What the programs read and write: whole streams and single lines, the lines of texts and what their words spell, tables of
//! names, and texts that are written piece by piece.
#![tactic(auto)]

mod hexadecimal;
mod input_line;
mod lines;
mod names;
mod nearest;
mod numbered;
mod numbers;
mod reading;
mod writer;
mod writing;

pub use hexadecimal::{HexFault, bytes_of};
pub use input_line::{InputLine, next_line};
pub use lines::{PlanText, count_lines, divide, divide_at_plan_end, is_passed_over, split_line};
pub use names::value_named;
pub use nearest::{is_near, nearest_entry, nearest_name};
pub use numbered::{NumberedLine, numbered_lines};
pub use numbers::{decimal_number, hexadecimal_word};
pub use reading::{MOST_READS, ReadFault, read_whole};
pub use writer::TextWriter;
pub use writing::{WriteFailed, write_texts, write_whole};
