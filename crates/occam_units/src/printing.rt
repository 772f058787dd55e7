//! A program as a text for the assembler.

use crate::compiling::OccamProgram;
use occam_code::LineMark;
use script_text::{NumberedLine, TextWriter, numbered_lines};
use std::alloc::{AllocError, Global};
use t414_assembly::{Instruction, Operand, Statement, function_name, write_instruction};
use t414_decode::Function;

// What a line without a label begins with.
const MARGIN: &str = "        ";

/// The program as the assembler reads it, a statement a line, with the lines of its occam text as remarks. Assembled, it has
/// the bytes of the program.
pub fn assembler_text(
    alloc: Global,
    program: &OccamProgram,
    text: &[u8],
) -> Result<String, AllocError> {
    let statements = program.emission.statements.as_slice();
    let lines = numbered_lines(alloc, text)?;
    let labels = labels_of(alloc, statements)?;
    let marks = program.emission.marks.as_slice();
    let mut done = 0;
    let mut written = TextWriter::new(alloc);
    for (place, statement) in statements.iter().enumerate() {
        done = write_remarks(&mut written, marks, done, place, lines.as_slice());
        write_label(&mut written, labels.as_slice(), place);
        write_statement(&mut written, labels.as_slice(), *statement);
    }
    write_label(&mut written, labels.as_slice(), statements.len());
    written.finish()
}

// The number of the label at each place, from 1, or 0 if no statement names the place.
fn labels_of(alloc: Global, statements: &[Statement]) -> Result<Vec<u32>, AllocError> {
    let mut labels = Vec::new(alloc);
    for _ in statements {
        labels.push(0)?;
    }
    labels.push(0)?;
    for statement in statements {
        note_places(labels.as_mut_slice(), *statement);
    }
    let mut count: u32 = 0;
    for label in labels.as_mut_slice() {
        if *label > 0 {
            count = count.saturating_add(1);
            *label = count;
        }
    }
    Ok(labels)
}

// Notes the places that a statement names.
fn note_places(labels: &mut [u32], statement: Statement) {
    match statement {
        Statement::Instruction(_, Operand::Label(place, _)) => note_place(labels, place),
        Statement::Instruction(_, Operand::Difference(to, from, _)) => {
            note_place(labels, to);
            note_place(labels, from);
        }
        _ => {}
    }
}

fn note_place(labels: &mut [u32], place: usize) {
    if let Some(label) = labels.get_mut(place) {
        *label = 1;
    }
}

// Writes the lines of the text that begin at a place, by the marks after the first `done`, and tells how many marks are done then.
fn write_remarks(
    written: &mut TextWriter,
    marks: &[LineMark],
    done: usize,
    place: usize,
    lines: &[NumberedLine],
) -> usize {
    let mut count = done;
    for mark in marks.get(done..).unwrap_or(&[]) {
        if mark.place > place {
            break;
        }
        write_remark(written, mark.line, lines);
        count = count.saturating_add(1);
    }
    count
}

// Writes a line of the text as a remark, without its indentation.
fn write_remark(written: &mut TextWriter, number: u32, lines: &[NumberedLine]) {
    let index = (number as usize).saturating_sub(1);
    let text = match lines.get(index) {
        Some(line) => std::str::from_utf8(line.text).unwrap_or(""),
        None => "",
    };
    written.push(MARGIN);
    written.push("-- line ");
    written.push_decimal(u64::from(number));
    written.push(": ");
    written.push(text.trim());
    written.push("\n");
}

fn write_label(written: &mut TextWriter, labels: &[u32], place: usize) {
    let number = number_at(labels, place);
    if number > 0 {
        write_name(written, number);
        written.push(":\n");
    }
}

fn number_at(labels: &[u32], place: usize) -> u32 {
    labels.get(place).copied().unwrap_or(0)
}

fn write_name(written: &mut TextWriter, number: u32) {
    written.push("l");
    written.push_decimal(u64::from(number));
}

// Writes one statement of those that a program has.
fn write_statement(written: &mut TextWriter, labels: &[u32], statement: Statement) {
    written.push(MARGIN);
    match statement {
        Statement::Instruction(function, operand) => {
            write_operand(written, labels, function, operand)
        }
        Statement::Byte(value) => {
            written.push("byte #");
            written.push_hex_byte(value);
        }
        Statement::Word(operand) => {
            written.push("word ");
            write_word(written, operand);
        }
        Statement::Align(size) => {
            written.push("align ");
            written.push_decimal(u64::from(size));
        }
        Statement::Space(count) => {
            written.push("space ");
            written.push_decimal(u64::from(count));
        }
    }
    written.push("\n");
}

// Writes a word of a table, which is a number.
fn write_word(written: &mut TextWriter, operand: Operand) {
    if let Operand::Number(number) = operand {
        written.push("#");
        written.push_word(number);
    }
}

fn write_operand(written: &mut TextWriter, labels: &[u32], function: Function, operand: Operand) {
    match operand {
        Operand::Number(operand) => write_instruction(written, Instruction { function, operand }),
        Operand::Label(place, _) => {
            write_function(written, function);
            write_name(written, number_at(labels, place));
        }
        Operand::Difference(to, from, _) => {
            write_function(written, function);
            write_name(written, number_at(labels, to));
            written.push(" - ");
            write_name(written, number_at(labels, from));
        }
    }
}

fn write_function(written: &mut TextWriter, function: Function) {
    written.push(function_name(function));
    written.push(" ");
}
