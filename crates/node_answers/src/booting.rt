//! A node that is booted with code, and traced.

use crate::failure::{wrong_length, wrong_program};
use crate::inputs::{read_code, read_inputs};
use lab_command::{ArgumentFault, BootOptions, BootedCode, LabFailure, TerminalMeter, read_file};
use node_trace::{BootFault, BootTrace, LinkInput, Program, trace_boot};
use script_text::hexadecimal_word;
use std::alloc::{Alloc, AllocError, Global};
use std::fs::Files;

/// Traces a node that is booted with the code of the words, or with that of the program in a file.
pub fn print_booted(rt: &HostRuntime, options: &BootOptions) -> Result<String, LabFailure> {
    match options.code {
        BootedCode::Digits(digits) => trace_or_failure(
            rt.alloc(),
            trace_digits(rt, options, digits),
        ),
        BootedCode::Program(file) => print_program(rt, options, file),
    }
}

// A trace, or what is wrong with the words.
fn trace_or_failure(
    alloc: Global,
    traced: Result<String, ArgumentFault>,
) -> Result<String, LabFailure> {
    match traced {
        Ok(text) => Ok(text),
        Err(fault) => Err(LabFailure::of_argument(alloc, fault)),
    }
}

fn trace_digits(
    rt: &HostRuntime,
    options: &BootOptions,
    digits: &str,
) -> Result<String, ArgumentFault> {
    let code = read_code(rt.alloc(), digits)?;
    let inputs = read_inputs(rt.alloc(), options.inputs.as_slice())?;
    let until = match options.until {
        Some(word) => Some(address_of(word)?),
        None => None,
    };
    trace_code(
        rt,
        &BootTrace {
            code: code.as_slice(),
            steps: options.steps,
            until,
            inputs: inputs.as_slice(),
            lines: &[],
        },
    )
}

// Wrong bytes in the words of the command line are reported before the file is read.
fn print_program(
    rt: &HostRuntime,
    options: &BootOptions,
    file: &str,
) -> Result<String, LabFailure> {
    let inputs = inputs_of(rt.alloc(), options)?;
    let program = read_program(rt, file)?;
    print_booted_program(rt, options, inputs.as_slice(), &program, file)
}

/// What the words of the command line send to a program.
pub fn inputs_of(alloc: Global, options: &BootOptions) -> Result<Vec<LinkInput>, LabFailure> {
    match read_inputs(alloc, options.inputs.as_slice()) {
        Ok(inputs) => Ok(inputs),
        Err(fault) => Err(LabFailure::of_argument(alloc, fault)),
    }
}

// The program in a file.
fn read_program<R: Files + Alloc<A = Global>>(rt: &R, file: &str) -> Result<Program, LabFailure> {
    let text = read_file(rt, file)?;
    match Program::read(rt.alloc(), text) {
        Ok(program) => Ok(program),
        Err(fault) => Err(wrong_program(rt.alloc(), &fault).in_file(rt.alloc(), file)),
    }
}

/// Traces a node that is booted with the program in a file, to which this is sent.
///
/// A failure too if a boot doesn't take its code.
pub fn print_booted_program(
    rt: &HostRuntime,
    options: &BootOptions,
    inputs: &[LinkInput],
    program: &Program,
    file: &str,
) -> Result<String, LabFailure> {
    let length = program.code().len();
    match BootFault::of_length(length) {
        None => trace_or_failure(rt.alloc(), trace_program(rt, options, inputs, program)),
        Some(_) => Err(wrong_length(rt.alloc(), length).in_file(rt.alloc(), file)),
    }
}

fn trace_program(
    rt: &HostRuntime,
    options: &BootOptions,
    inputs: &[LinkInput],
    program: &Program,
) -> Result<String, ArgumentFault> {
    let until = match options.until {
        Some(word) => Some(address_in(rt.alloc(), program, word)?),
        None => None,
    };
    let lines = program.lines(rt.alloc())?;
    trace_code(
        rt,
        &BootTrace {
            code: program.code(),
            steps: options.steps,
            until,
            inputs,
            lines: lines.as_slice(),
        },
    )
}

// The address that a word says: that of a label of the program, or its own.
fn address_in(alloc: Global, program: &Program, word: &str) -> Result<u32, ArgumentFault> {
    match program.address_of(alloc, word)? {
        Some(address) => Ok(address),
        None => address_of(word),
    }
}

// The address that a word says.
fn address_of(word: &str) -> Result<u32, ArgumentFault> {
    hexadecimal_word(word).ok_or(ArgumentFault::Address)
}

fn trace_code(rt: &HostRuntime, trace: &BootTrace) -> Result<String, ArgumentFault> {
    let mut meter = TerminalMeter::begin(rt, None);
    let traced = trace_boot(rt.alloc(), trace, &mut meter);
    meter.wipe();
    match traced {
        Ok(text) => Ok(text),
        Err(BootFault::TooShort | BootFault::TooLong) => Err(ArgumentFault::Code),
        Err(BootFault::NoMemory) => Err(ArgumentFault::Memory(AllocError)),
    }
}
