//! Instructions as bytes of code.

use lab_words::{Wanted, WordForm, Words};
use std::alloc::{AllocError, Global};
use t414_assembly::{Mnemonic, mnemonic_named, operand_of, spell};
use t414_decode::Function;

/// An instruction, as the assembler has it.
pub const INSTRUCTION: Wanted = Wanted::Word("an instruction", WordForm::Instruction);

/// Reads an instruction as the assembler does, and appends its bytes to `code`: a function and its operand, an operation, or
/// `hex` and bytes. Returns whether there was one; if there was none nothing is read.
pub fn read_instruction(
    alloc: Global,
    words: &mut Words,
    code: &mut Vec<u8>,
) -> Result<bool, AllocError> {
    if words.take_if("hex") {
        let bytes = words.bytes(alloc)?;
        code.extend_from_slice(bytes.as_slice())?;
        return Ok(true);
    }
    let Some(mnemonic) = mnemonic_named(words.peek()) else {
        return Ok(false);
    };
    let _ = words.take(INSTRUCTION);
    let spelling = match mnemonic {
        Mnemonic::Function(function) => spell(function, read_operand(words)),
        Mnemonic::Operation(operation) => spell(Function::Operate, operation),
    };
    code.extend_from_slice(spelling.as_slice())?;
    Ok(true)
}

fn read_operand(words: &mut Words) -> u32 {
    let wanted = Wanted::Word("an operand", WordForm::Operand);
    let place = words.place();
    let word = words.take(wanted);
    words.or_reject(place, operand_of(word), 0, wanted)
}
