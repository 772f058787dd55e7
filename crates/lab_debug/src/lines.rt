//! Where the code of a line begins.

use domain_core::NoMemory;
use node_trace::ProgramLine;
use script_text::TextWriter;

/// Adds the addresses at which the code of the line of a number begins.
pub fn add_line(
    begins: &[ProgramLine],
    number: u32,
    addresses: &mut Vec<u32>,
) -> Result<(), NoMemory> {
    for begin in begins {
        if begin.number == number && begin.length > 0 && !addresses.contains(&begin.address) {
            addresses.push(begin.address)?;
        }
    }
    Ok(())
}

// The first line after that of a number that has code.
fn next_with_code(begins: &[ProgramLine], number: u32) -> Option<u32> {
    let mut next: Option<u32> = None;
    for begin in begins {
        if begin.number > number && begin.length > 0 {
            next = match next {
                Some(line) => Some(line.min(begin.number)),
                None => Some(begin.number),
            };
        }
    }
    next
}

/// Writes that the line of a number has no code, and which comes next that has.
pub fn write_no_code(begins: &[ProgramLine], number: u32, node: u8, text: &mut TextWriter) {
    text.push("line ");
    text.push_decimal(u64::from(number));
    text.push(" has no code in the program of node ");
    text.push_decimal(u64::from(node));
    if let Some(next) = next_with_code(begins, number) {
        text.push(": the next that has is line ");
        text.push_decimal(u64::from(next));
    }
    text.push("\n");
}
