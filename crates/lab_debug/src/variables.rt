//! The variables of a node's program, and what is in them.

use crate::waiting::write_line_at;
use bootstrap::{Memory, Node};
use domain_core::NoMemory;
use node_trace::{Program, ProgramLine, ProgramVariable, ShownType};
use process_queue::NOT_PROCESS;
use script_text::{TextWriter, decimal_number};

/// How many elements of an array are shown, unless it is asked for by its name.
const MOST_ELEMENTS: u32 = 64;

// The name of a variable and the subscript of `NAME[K]`; a word without a subscript is a name alone.
fn halves_of(word: &str) -> (&str, Option<&str>) {
    match word.split_once('[') {
        Some((name, rest)) => (name, Some(rest.strip_suffix("]").unwrap_or(""))),
        None => (word, None),
    }
}

// How many variables of a program have a name.
fn count_named(program: &Program, name: &str) -> usize {
    let mut count: usize = 0;
    for variable in program.variables() {
        if variable.name.as_str() == name {
            count = count.saturating_add(1);
        }
    }
    count
}

// Writes that a node's program has no variable of a name.
fn write_unknown(name: &str, node: u8, text: &mut TextWriter) {
    text.push("no variable `");
    text.push(name);
    text.push("` is known of node ");
    text.push_decimal(u64::from(node));
    text.push(": try variables ");
    text.push_decimal(u64::from(node));
    text.push("\n");
}

/// The address of a variable of a node's program, or of an element of an array, `NAME[K]`. `None` if there isn't one alone, and
/// then that is written.
pub fn variable_address(
    program: &Program,
    word: &str,
    node: u8,
    text: &mut TextWriter,
) -> Option<u32> {
    let (name, subscript) = halves_of(word);
    let count = count_named(program, name);
    if count > 1 {
        text.push("`");
        text.push(name);
        text.push("` is the name of ");
        text.push_decimal(count as u64);
        text.push(" variables: give the address of one, as variables ");
        text.push_decimal(u64::from(node));
        text.push(" ");
        text.push(name);
        text.push(" shows it\n");
        return None;
    }
    for variable in program.variables() {
        if variable.name.as_str() == name {
            return element_address(variable, subscript, text);
        }
    }
    write_unknown(name, node, text);
    None
}

// The address of a variable, or of the element of a subscript.
fn element_address(
    variable: &ProgramVariable,
    subscript: Option<&str>,
    text: &mut TextWriter,
) -> Option<u32> {
    let found = match subscript {
        None => variable.address_at(None),
        Some(digits) => match u32::try_from(decimal_number(digits).unwrap_or(u64::MAX)) {
            Ok(subscript) => variable.address_at(Some(subscript)),
            Err(_) => None,
        },
    };
    if found.is_none() {
        text.push("`");
        text.push(variable.name.as_str());
        text.push("` has no element of this subscript\n");
    }
    found
}

/// The memory of a node as its next Step finds it, which serves the links first: a byte that came to a link and is waited for is in
/// its place then.
pub fn memory_found(node: &Node) -> Result<Memory, NoMemory> {
    let mut memory = node.memory().copy(node.memory().allocator())?;
    if let Some(mut registers) = node.registers() {
        let mut links = node.links().copy();
        let _ = links.serve_all(&mut memory, &mut registers.queue);
    }
    Ok(memory)
}

/// Writes the variables of a node's program with their addresses and what is in them; or those of a name, with all elements if
/// it is an array.
pub fn write_variables(
    memory: &Memory,
    program: &Program,
    lines: &[ProgramLine],
    name: Option<&str>,
    text: &mut TextWriter,
) {
    let most = match name {
        Some(_) => u32::MAX,
        None => MOST_ELEMENTS,
    };
    let mut is_any = false;
    for variable in program.variables() {
        if name.is_none() || name == Some(variable.name.as_str()) {
            is_any = true;
            write_variable(memory, variable, lines, most, text);
        }
    }
    if !is_any {
        text.push(if program.has_labels() {
            "a program of assembly has no variables: memory shows words\n"
        } else {
            "no variable of the program has that name\n"
        });
    }
}

// Writes a variable, an array with at most `most` elements.
fn write_variable(
    memory: &Memory,
    variable: &ProgramVariable,
    lines: &[ProgramLine],
    most: u32,
    text: &mut TextWriter,
) {
    match (variable.shown, variable.length) {
        (ShownType::Channel, Some(length)) => {
            for subscript in 0..length {
                write_head(variable, Some(subscript), text);
                write_value(memory, variable, Some(subscript), lines, text);
                text.push("\n");
            }
        }
        (_, Some(length)) => {
            write_head(variable, None, text);
            write_elements(memory, variable, length, most, text);
            text.push("\n");
        }
        (_, None) => {
            write_head(variable, None, text);
            write_value(memory, variable, None, lines, text);
            text.push("\n");
        }
    }
}

// Writes where a variable is, its type and its name, and the line that declares it. A channel of an array has its subscript.
fn write_head(variable: &ProgramVariable, subscript: Option<u32>, text: &mut TextWriter) {
    text.push_word(variable.address_at(subscript).unwrap_or(variable.address));
    text.push("  ");
    if let (Some(length), None) = (variable.length, subscript) {
        text.push("[");
        text.push_decimal(u64::from(length));
        text.push("]");
    }
    text.push(match variable.shown {
        ShownType::Int => "INT ",
        ShownType::Byte => "BYTE ",
        ShownType::Bool => "BOOL ",
        ShownType::Channel => "CHAN ",
    });
    text.push(variable.name.as_str());
    if let Some(subscript) = subscript {
        text.push("[");
        text.push_decimal(u64::from(subscript));
        text.push("]");
    }
    text.push(" (line ");
    text.push_decimal(u64::from(variable.line));
    text.push("): ");
}

// Writes the elements of an array, at most `most` of them.
fn write_elements(
    memory: &Memory,
    variable: &ProgramVariable,
    length: u32,
    most: u32,
    text: &mut TextWriter,
) {
    text.push("[");
    for subscript in 0..length.min(most) {
        if subscript > 0 {
            text.push(", ");
        }
        write_value(memory, variable, Some(subscript), &[], text);
    }
    text.push(if length > most { ", ..]" } else { "]" });
}

// What is in a variable, or in an element, if it is in memory.
fn value_in(memory: &Memory, variable: &ProgramVariable, subscript: Option<u32>) -> Option<u32> {
    let address = variable.address_at(subscript)?;
    match (variable.shown, subscript) {
        (ShownType::Byte, Some(_)) => match memory.byte(address) {
            Ok(byte) => Some(u32::from(byte)),
            Err(_) => None,
        },
        _ => memory.word(address).ok(),
    }
}

// Writes what is in a variable, or in an element.
fn write_value(
    memory: &Memory,
    variable: &ProgramVariable,
    subscript: Option<u32>,
    lines: &[ProgramLine],
    text: &mut TextWriter,
) {
    let Some(value) = value_in(memory, variable, subscript) else {
        text.push("outside memory");
        return;
    };
    match variable.shown {
        ShownType::Byte => write_byte(value, text),
        ShownType::Bool if value == 0 => text.push("FALSE"),
        ShownType::Bool if value == 1 => text.push("TRUE"),
        ShownType::Channel => write_channel(memory, value, lines, text),
        ShownType::Int | ShownType::Bool => text.push_signed(i64::from(value.cast_signed())),
    }
}

// Writes a BYTE as a number, and as a character if it is one that is seen.
fn write_byte(value: u32, text: &mut TextWriter) {
    text.push_decimal(u64::from(value));
    let written = match value {
        9 => "*t",
        10 => "*n",
        13 => "*c",
        0x27 => "*'",
        0x2a => "**",
        _ => "",
    };
    if !written.is_empty() {
        text.push(" '");
        text.push(written);
        text.push("'");
    } else if (0x20..0x7f).contains(&value) {
        text.push(" '");
        text.push_letter(value as u8 as char);
        text.push("'");
    }
}

// Writes who waits at the channel in a word.
fn write_channel(memory: &Memory, word: u32, lines: &[ProgramLine], text: &mut TextWriter) {
    if word == NOT_PROCESS {
        text.push("empty");
        return;
    }
    let workspace = word - word % 4;
    match memory.word(workspace.wrapping_sub(4)) {
        Ok(instruction) if word % 2 == 1 => {
            text.push("a process waits");
            write_line_at(lines, instruction.wrapping_sub(1), text);
        }
        _ => {
            text.push("no channel yet, but ");
            text.push_word(word);
        }
    }
}
