//! The handbook's names of functions and operations.

use crate::codes::byte_of;
use script_text::value_named;
use t414_decode::{Function, decode};

// The names of the functions, by their nibbles.
//
// Source: Transputer instruction set handbook, direct functions.
const FUNCTIONS: [&str; 16] = [
    "j", "ldlp", "pfix", "ldnl", "ldc", "ldnlp", "nfix", "ldl", "adc", "call", "cj", "ajw", "eqc",
    "stl", "stnl", "opr",
];

// The names of the operations, and their codes.
//
// Source: Transputer instruction set handbook, operations.
const OPERATIONS: [(&str, u32); 74] = [
    ("rev", 0x00),
    ("lb", 0x01),
    ("bsub", 0x02),
    ("endp", 0x03),
    ("diff", 0x04),
    ("add", 0x05),
    ("gcall", 0x06),
    ("in", 0x07),
    ("prod", 0x08),
    ("gt", 0x09),
    ("wsub", 0x0a),
    ("out", 0x0b),
    ("sub", 0x0c),
    ("startp", 0x0d),
    ("outbyte", 0x0e),
    ("outword", 0x0f),
    ("seterr", 0x10),
    ("resetch", 0x12),
    ("csub0", 0x13),
    ("stopp", 0x15),
    ("ladd", 0x16),
    ("stlb", 0x17),
    ("sthf", 0x18),
    ("norm", 0x19),
    ("ldiv", 0x1a),
    ("ldpi", 0x1b),
    ("stlf", 0x1c),
    ("xdble", 0x1d),
    ("ldpri", 0x1e),
    ("rem", 0x1f),
    ("ret", 0x20),
    ("lend", 0x21),
    ("testerr", 0x29),
    ("testpranal", 0x2a),
    ("div", 0x2c),
    ("disc", 0x2f),
    ("diss", 0x30),
    ("lmul", 0x31),
    ("not", 0x32),
    ("xor", 0x33),
    ("bcnt", 0x34),
    ("lshr", 0x35),
    ("lshl", 0x36),
    ("lsum", 0x37),
    ("lsub", 0x38),
    ("runp", 0x39),
    ("xword", 0x3a),
    ("sb", 0x3b),
    ("gajw", 0x3c),
    ("savel", 0x3d),
    ("saveh", 0x3e),
    ("shr", 0x40),
    ("shl", 0x41),
    ("mint", 0x42),
    ("alt", 0x43),
    ("altwt", 0x44),
    ("altend", 0x45),
    ("and", 0x46),
    ("enbc", 0x48),
    ("enbs", 0x49),
    ("move", 0x4a),
    ("or", 0x4b),
    ("csngl", 0x4c),
    ("ccnt1", 0x4d),
    ("ldiff", 0x4f),
    ("sthb", 0x50),
    ("sum", 0x52),
    ("mul", 0x53),
    ("sttimer", 0x54),
    ("stoperr", 0x55),
    ("cword", 0x56),
    ("clrhalterr", 0x57),
    ("sethalterr", 0x58),
    ("testhalterr", 0x59),
];

/// What the name of an instruction stands for.
#[derive(Clone, Copy)]
pub enum Mnemonic {
    /// A function, which has an operand.
    Function(Function),
    /// The operation of this code.
    Operation(u32),
}

/// The handbook's name of a function.
pub fn function_name(function: Function) -> &'static str {
    FUNCTIONS[usize::from(byte_of(function, 0) / 16)]
}

/// The handbook's name of the operation of a code, if there is one.
pub fn operation_name(code: u32) -> Option<&'static str> {
    for (name, its_code) in &OPERATIONS {
        if *its_code == code {
            return Some(*name);
        }
    }
    None
}

/// What a name stands for.
pub fn mnemonic_named(name: &str) -> Option<Mnemonic> {
    for (nibble, function) in FUNCTIONS.iter().enumerate() {
        if *function == name {
            return Some(Mnemonic::Function(decode((nibble as u8) << 4).0));
        }
    }
    match value_named(&OPERATIONS, name) {
        Some(code) => Some(Mnemonic::Operation(code)),
        None => None,
    }
}
