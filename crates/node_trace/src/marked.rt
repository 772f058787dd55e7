//! Code whose lines in a text are known, whatever made it.

/// A piece of code that belongs to one line of a text.
#[derive(Clone, Copy)]
pub struct CodePiece {
    /// The address of its first byte.
    pub address: u32,
    pub length: u32,
    /// The number of the line, from 1.
    pub line: u32,
    /// The line that had the piece put in place, if it was.
    pub instance: Option<u32>,
}

/// What is in a variable.
#[derive(Clone, Copy)]
pub enum ShownType {
    /// A number in two's complement.
    Int,
    /// A number from 0 to 255, or a character.
    Byte,
    /// 0 for FALSE and 1 for TRUE.
    Bool,
    /// The descriptor of the process that waits there, or NotProcess.
    Channel,
}

/// A variable of a program, or an array of variables one after another.
#[derive(Drop)]
pub struct ProgramVariable {
    pub name: String,
    pub shown: ShownType,
    /// The line that declares it.
    pub line: u32,
    /// The address of its first byte.
    pub address: u32,
    /// How many elements it has, if it is an array. An element takes a word, but of BYTE a byte.
    pub length: Option<u32>,
}

impl ProgramVariable {
    /// The address of an element, if it is an array that has it; without a subscript that of the first byte.
    pub fn address_at(&self, subscript: Option<u32>) -> Option<u32> {
        let Some(subscript) = subscript else {
            return Some(self.address);
        };
        let length = self.length?;
        if subscript >= length {
            return None;
        }
        let size = match self.shown {
            ShownType::Byte => 1,
            ShownType::Int | ShownType::Bool | ShownType::Channel => 4,
        };
        Some(self.address.wrapping_add(subscript.wrapping_mul(size)))
    }
}

/// The code of a program, and what is known of it.
pub struct MarkedCode {
    pub bytes: Vec<u8>,
    /// The pieces that belong to lines, from the lowest address on.
    pub pieces: Vec<CodePiece>,
    /// Where the code of each line begins. A line may be there several times.
    pub begins: Vec<CodePiece>,
    pub variables: Vec<ProgramVariable>,
}

// Dropped by hand, since a derived `Drop` makes callers prove the drop of each field.
impl Drop for MarkedCode {
    fn drop(self) {
        let MarkedCode {
            bytes: _,
            pieces: _,
            begins: _,
            variables: _,
        } = self;
    }
}
