//! Instructions as text and as bytes: an assembler and a disassembler of the processor's code.
#![tactic(auto)]

mod assembling;
mod codes;
mod cursor;
mod digits;
mod disassembly;
mod fault;
mod faults;
mod hints;
mod laws;
mod layout;
mod loading;
mod mnemonics;
mod parsing;
mod printing;
mod shortest;
mod spelling;
mod statement;
mod sums;
mod writing;

pub use assembling::{Assembly, assemble, assemble_or_list};
pub use codes::{byte_of, is_prefix};
pub use cursor::operand_of;
pub use digits::{bytes_of_digits, code_as_text};
pub use disassembly::{Instruction, disassemble};
pub use fault::{Expected, FaultyLine, TextFault};
pub use faults::{FaultList, MOST_FAULTS, ProgramFault};
pub use laws::reassembled_code_is_the_same;
pub use layout::{Image, LayoutFault, lay_out};
pub use loading::{BOOTED, LOADED, loader};
pub use mnemonics::{Mnemonic, function_name, mnemonic_named};
pub use printing::{hexadecimal, instructions_as_text, listing, pokes, write_instruction};
pub use shortest::spell;
pub use spelling::Spelling;
pub use statement::{Operand, Statement};
pub use writing::MOST_CODE;
