//! The code of a whole program.
ghost use Rattle.std.specs.Prelude.{◌≡◌, ◌++◌, IfOk, OnOk, length};
ghost use Rattle.occam_code.specs.Code.{workspace_move, start_code, words_code, tables_code, program_words as words_of_program, program_code, program_marks, program_start};
ghost use Rattle.occam_code.specs.Behaves.{ProcessBehaves};
ghost use Rattle.occam_core.specs.Processes.{IsSequential};

use crate::frame::FrameWords;
use crate::instructions::*;
use crate::processes::emit_process;
use crate::words::{processes_below, workspace_words};
use occam_core::CoreProcess;
use std::alloc::{AllocError, Global};
use t414_assembly::{Operand, Statement};
use t414_decode::Function;

/// A line of the text, and the place of the statements at which its code begins.
#[derive(Clone, Copy)]
pub struct LineMark {
    pub place: usize,
    /// The line's number in the text.
    pub line: u32,
}

/// The code of a program.
#[derive(Drop)]
pub struct Emission {
    pub statements: Vec<Statement>,
    /// The lines, in the order of their places. Lines may have the same place.
    pub marks: Vec<LineMark>,
}

/// The code of a program with this number of variables, for a node that has just been booted. Its first variables have
/// the words of `tables` at the start: these are the last words of the code, and the workspace is moved down, so that
/// word 1 is the first of them. If there are none, the workspace is moved up by the three words below it, and the four of
/// each process below it. Then the program has errors halt the node, and its process ends by `stopp`. If it needs more
/// than 2,048 bytes for its words it stores to the last of them first: so a node that is too small halts immediately.
///
/// Where the process is sequential, its code, run by itself, does what the process does.
///
/// # Errors
///
/// If the code can't be kept.
pub fn emit_program(
    alloc: Global,
    p: &CoreProcess,
    variables: u32,
    tables: &[u32],
) -> Result<Emission, AllocError>
    ensures code { IfOk result (λ e. e.statements.items ≡ program_code variables tables.now p.now) }
    ensures marks { IfOk result (λ e. e.marks.items ≡ program_marks variables tables.now p.now) }
    ensures behaves { IsSequential p.now → IfOk result (λ e. ProcessBehaves p.now
        (length (program_start variables (length tables.now) p.now)) (words_of_program variables) e.statements.items) }
{
    emit_whole(alloc, p, variables, tables)
}

// The same code.
fn emit_whole(
    alloc: Global,
    p: &CoreProcess,
    variables: u32,
    tables: &[u32],
) -> Result<Emission, AllocError>
    ensures code { IfOk result (λ e. e.statements.items ≡ program_code variables tables.now p.now) }
    ensures marks { IfOk result (λ e. e.marks.items ≡ program_marks variables tables.now p.now) }
{
    let mut statements = Vec::new(alloc);
    let mut marks = Vec::new(alloc);
    let processes = processes_below(p);
    emit_start(
        &mut statements,
        tables.len(),
        processes,
        workspace_words(p, variables),
    )?;
    emit_process(&mut statements, &mut marks, program_words(variables), p)?;
    operate(&mut statements, STOP_PROCESS)?;
    emit_tables(&mut statements, processes, tables)?;
    Ok(Emission { statements, marks })
}

// The words of a program's own process.
fn program_words(variables: u32) -> FrameWords
    ensures { result ≡ words_of_program variables }
{
    FrameWords {
        base: 1,
        temporary: variables.wrapping_add(1),
    }
}

// What comes before a process with this number of words in tables, of processes below it, and of words of the frame.
fn emit_start(
    code: &mut Vec<Statement>,
    table_words: usize,
    processes: u32,
    words: u32,
) -> Result<(), AllocError>
    ensures { OnOk result (code.new.items ≡ code.old.items ++ start_code table_words processes words) }
{
    put(
        code,
        Function::AdjustWorkspace,
        workspace_move(table_words, processes),
    )?;
    operate(code, SET_HALT_ON_ERROR)?;
    if words.saturating_add(processes.saturating_mul(4)) > 512 {
        put(code, Function::LoadConstant, 0)?;
        put(code, Function::StoreLocal, words.saturating_sub(1))
    } else {
        Ok(())
    }
}

// By how many words the workspace is moved up, modulo 2^32.
fn workspace_move(table_words: usize, processes: u32) -> u32
    ensures { result ≡ workspace_move table_words processes }
{
    if table_words == 0 {
        3u32.wrapping_add(processes.wrapping_mul(4))
    } else {
        let table_words = (table_words % 0x1_0000_0000) as u32;
        0u32.wrapping_sub(table_words.wrapping_add(1))
    }
}

// The words of tables at the end of the code, and before them word 0 and the words below it, and the four of each process.
fn emit_tables(code: &mut Vec<Statement>, processes: u32, tables: &[u32]) -> Result<(), AllocError>
    ensures { OnOk result (code.new.items ≡ code.old.items ++ tables_code processes tables.now) }
{
    if tables.is_empty() {
        Ok(())
    } else {
        code.push(Statement::Align(4))?;
        let space = 1u32.wrapping_add(processes).wrapping_mul(16);
        code.push(Statement::Space(space))?;
        emit_words(code, tables)
    }
}

// Words, as they are.
fn emit_words(code: &mut Vec<Statement>, words: &[u32]) -> Result<(), AllocError>
    ensures { OnOk result (code.new.items ≡ code.old.items ++ words_code words.now) }
{
    for word in words {
        code.push(Statement::Word(Operand::Number(*word)))?;
    }
    Ok(())
}
