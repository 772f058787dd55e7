//! A text as statements, with its labels as places and its other names as numbers.

use crate::codes::is_prefix;
use crate::cursor::Cursor;
use crate::fault::{Expected, Mismatch};
use crate::hints::Hint;
use crate::mnemonics::{Mnemonic, mnemonic_named};
use crate::statement::{Operand, Statement};
use crate::sums::{LabelTerm, Sum};
use crate::writing::MOST_CODE;
use script_text::NumberedLine;
use std::alloc::{AllocError, Global};
use t414_decode::Function;

// The word of the workspace that the first `local` names. At word 0 `outbyte` and `outword` keep what they send, and an
// alternative its branch.
const FIRST_LOCAL: u32 = 1;

/// A name, the line that defines it, and what it stands for.
#[derive(Clone, Copy)]
pub struct Definition<'a> {
    name: &'a str,
    line: u64,
    value: Named,
}

/// What a name stands for.
#[derive(Clone, Copy)]
enum Named {
    Place(usize),
    Number(u32),
    /// A number that isn't known, since its line is wrong.
    Open,
}

/// What a list of data has.
#[derive(Clone, Copy)]
enum Unit {
    Byte,
    Word,
}

/// What is read of a text. Names are gathered first, when a name in an operand may still be unknown; then the text is
/// read once more.
pub struct Reader<'a> {
    definitions: Vec<Definition<'a>>,
    gathers: bool,
    line: u64,
    next_local: u32,
    statements: Vec<Statement>,
    // How many statements come before each line.
    lines: Vec<usize>,
    has_memory: bool,
}

// Dropped by hand, since a derived `Drop` makes callers prove the drop of each field.
impl Drop for Reader<'_> {
    fn drop(self) {
        let Reader {
            definitions: _,
            gathers: _,
            line: _,
            next_local: _,
            statements: _,
            lines: _,
            has_memory: _,
        } = self;
    }
}

impl<'a> Reader<'a> {
    /// A reader that gathers names.
    pub fn new(alloc: Global) -> Reader<'a> {
        Reader {
            definitions: Vec::new(alloc),
            gathers: true,
            line: 0,
            next_local: FIRST_LOCAL,
            statements: Vec::new(alloc),
            lines: Vec::new(alloc),
            has_memory: true,
        }
    }

    /// Begins again, with the names that were gathered.
    pub fn begin_again(&mut self) {
        self.gathers = false;
        self.statements.clear();
        self.lines.clear();
    }

    /// The statements that have been read, how many of them come before each line, and at the end how many there are in
    /// all. It is an error if there was no memory for one of these, or for a name.
    pub fn finish(self) -> Result<(Vec<Statement>, Vec<usize>), AllocError> {
        let Reader {
            definitions: _,
            gathers: _,
            line: _,
            next_local: _,
            statements,
            mut lines,
            has_memory,
        } = self;
        if has_memory && lines.push(statements.len()).is_ok() {
            Ok((statements, lines))
        } else {
            Err(AllocError)
        }
    }

    /// Reads a line, which has to be UTF-8: a label, if one is defined there, and a statement or several, or other names,
    /// if the line has them.
    pub fn read_line(&mut self, line: NumberedLine<'a>) -> Option<Mismatch<'a>> {
        self.line = line.number;
        self.has_memory &= self.lines.push(self.statements.len()).is_ok();
        let mut cursor = Cursor::of(line.text);
        if std::str::from_utf8(line.text).is_err() {
            cursor.refuse(Expected::Text);
        }
        cursor.skip_blanks();
        let start = cursor;
        let name = cursor.take_name();
        if !name.is_empty() && cursor.take_if(b':') {
            let place = Named::Place(self.statements.len());
            self.define(name, place, start.bytes_left(), &mut cursor);
        } else {
            cursor = start;
        }
        if !cursor.is_at_end() {
            self.read_statement(&mut cursor);
            if !cursor.is_at_end() {
                cursor.refuse(Expected::End);
            }
        }
        cursor.mismatch()
    }

    // Defines a name. The last `left` bytes of its line begin with it.
    fn define(&mut self, name: &'a str, value: Named, left: usize, cursor: &mut Cursor<'a>) {
        if !self.gathers {
            return;
        }
        if let Some(first) = self.definition_of(name) {
            let hint = Hint::DefinedIn(first.line);
            cursor.refuse_with(Expected::NewName, left, Some(hint));
        }
        let line = self.line;
        let definition = Definition { name, line, value };
        self.has_memory &= self.definitions.push(definition).is_ok();
    }

    fn definition_of(&self, name: &str) -> Option<Definition<'a>> {
        for definition in &self.definitions {
            if definition.name == name {
                return Some(*definition);
            }
        }
        None
    }

    // A name that is defined and differs from this one in case.
    fn name_in_other_case(&self, name: &str) -> Option<&'a str> {
        for definition in &self.definitions {
            if definition.name.eq_ignore_ascii_case(name) {
                return Some(definition.name);
            }
        }
        None
    }

    // Reads one statement, a list or definitions.
    fn read_statement(&mut self, cursor: &mut Cursor<'a>) {
        let left = cursor.bytes_left();
        let name = cursor.take_name();
        cursor.skip_blanks();
        match name {
            "byte" => self.read_list(cursor, Unit::Byte),
            "word" => self.read_list(cursor, Unit::Word),
            "align" => self.read_alignment(cursor),
            "space" => self.read_space(cursor),
            "def" => self.read_definition(cursor),
            "local" => self.read_locals(cursor),
            _ => match mnemonic_named(name) {
                Some(Mnemonic::Function(function)) => self.read_instruction(function, cursor),
                Some(Mnemonic::Operation(code)) => self.read_operation(name, code, cursor),
                None => cursor.refuse_before(Expected::Statement, left),
            },
        }
    }

    fn add(&mut self, statement: Statement) {
        self.has_memory &= self.statements.push(statement).is_ok();
    }

    fn read_operation(&mut self, name: &'a str, code: u32, cursor: &mut Cursor<'a>) {
        if !cursor.is_at_end() {
            let left = cursor.bytes_left();
            cursor.refuse_with(Expected::End, left, Some(Hint::NoOperand(name)));
        }
        self.add(Statement::Instruction(Function::Operate, Operand::Number(code)));
    }

    fn read_instruction(&mut self, function: Function, cursor: &mut Cursor<'a>) {
        let operand = if is_prefix(function) {
            Operand::Number(self.read_number(cursor, 0, 15, Expected::Nibble))
        } else {
            self.read_operand(cursor, takes_address(function))
        };
        self.add(Statement::Instruction(function, operand));
    }

    // A sum of numbers, characters and names, which may be an address only if that makes sense.
    fn read_operand(&self, cursor: &mut Cursor<'a>, takes_address: bool) -> Operand {
        let sum = self.read_sum(cursor, Expected::Operand);
        if self.gathers {
            return Operand::Number(0);
        }
        if let Some(label) = sum.misplaced_label() {
            cursor.refuse_before(Expected::OneLabel, label.left);
        }
        match sum.address() {
            Some(label) if !takes_address => {
                let hint = Hint::Address(label.name);
                cursor.refuse_with(Expected::NoAddress, label.left, Some(hint));
            }
            _ => {}
        }
        sum.operand()
    }

    // The number of a sum without labels, from `below` below 0 to `most`; else `expected` is expected.
    fn read_number(
        &self,
        cursor: &mut Cursor<'a>,
        below: u32,
        most: u32,
        expected: Expected,
    ) -> u32 {
        let left = cursor.bytes_left();
        let sum = self.read_constant(cursor, expected);
        if sum.number().wrapping_add(below) > most.saturating_add(below) {
            refuse_value(cursor, sum, expected, left);
        }
        sum.number()
    }

    // A sum without labels. While names are gathered a sum with names is read as 1, which is right wherever a number can be.
    // So is a sum with a name whose own line is wrong.
    fn read_constant(&self, cursor: &mut Cursor<'a>, expected: Expected) -> Sum<'a> {
        let sum = self.read_sum(cursor, expected);
        if sum.is_open() || self.gathers && sum.has_names() {
            return Sum::of(1);
        }
        refuse_label(cursor, sum, expected);
        sum
    }

    // Terms with + and - between them; `expected` is expected if there is none.
    fn read_sum(&self, cursor: &mut Cursor<'a>, expected: Expected) -> Sum<'a> {
        let mut sum = Sum::of(0);
        self.read_term(cursor, &mut sum, false, expected);
        for _ in 0..=cursor.bytes_left() {
            if cursor.is_at_end() {
                break;
            }
            let is_subtracted = cursor.take_if(b'-');
            if !is_subtracted && !cursor.take_if(b'+') {
                break;
            }
            cursor.skip_blanks();
            self.read_term(cursor, &mut sum, is_subtracted, Expected::Term);
        }
        sum
    }

    // A number, a character or a name, with a minus of its own before it or without.
    fn read_term(
        &self,
        cursor: &mut Cursor<'a>,
        sum: &mut Sum<'a>,
        is_subtracted: bool,
        expected: Expected,
    ) {
        let is_negative = !cursor.is_at_comment() && cursor.take_if(b'-');
        cursor.skip_blanks();
        let is_subtracted = is_subtracted != is_negative;
        match cursor.first() {
            Some(b'0'..=b'9' | b'#' | b'\'') => {
                sum.put_number(cursor.take_number(is_negative), is_subtracted);
            }
            Some(b'a'..=b'z' | b'A'..=b'Z' | b'_') => {
                self.read_named(cursor, sum, is_subtracted);
            }
            _ if is_negative => cursor.refuse(Expected::Number),
            _ => cursor.refuse(expected),
        }
    }

    // A name in a sum. Any name may still be unknown while names are gathered.
    fn read_named(&self, cursor: &mut Cursor<'a>, sum: &mut Sum<'a>, is_subtracted: bool) {
        let left = cursor.bytes_left();
        let name = cursor.take_name();
        match self.definition_of(name) {
            Some(definition) => match definition.value {
                Named::Number(number) => sum.put_named(number, is_subtracted),
                Named::Open => sum.put_open(),
                Named::Place(place) => {
                    sum.put_label(LabelTerm { name, place, left }, is_subtracted);
                }
            },
            None if self.gathers => sum.put_unknown(left),
            None => {
                let hint = match self.name_in_other_case(name) {
                    Some(other) => Some(Hint::OtherCase(other)),
                    None => None,
                };
                cursor.refuse_with(Expected::KnownName, left, hint);
            }
        }
    }

    // A name for the number of a sum of numbers and of names that are defined above.
    fn read_definition(&mut self, cursor: &mut Cursor<'a>) {
        let left = cursor.bytes_left();
        let name = cursor.take_name();
        if name.is_empty() {
            cursor.refuse(Expected::Name);
        }
        cursor.skip_blanks();
        if !cursor.take_if(b'=') {
            cursor.refuse(Expected::Equals);
        }
        cursor.skip_blanks();
        let sum = self.read_sum(cursor, Expected::KnownNumber);
        if let Some(left) = sum.unknown_name() {
            cursor.refuse_before(Expected::KnownNumber, left);
        }
        refuse_label(cursor, sum, Expected::KnownNumber);
        let is_open = sum.is_open() || cursor.mismatch().is_some();
        let value = if is_open {
            Named::Open
        } else {
            Named::Number(sum.number())
        };
        self.define(name, value, left, cursor);
    }

    // Names for the next words of the workspace.
    fn read_locals(&mut self, cursor: &mut Cursor<'a>) {
        for _ in 0..=cursor.bytes_left() {
            let left = cursor.bytes_left();
            let name = cursor.take_name();
            if name.is_empty() {
                cursor.refuse(Expected::Name);
            }
            self.define(name, Named::Number(self.next_local), left, cursor);
            self.next_local = self.next_local.saturating_add(1);
            if cursor.is_at_end() {
                break;
            }
        }
    }

    // Values of bytes or words, and strings of them, with commas between them.
    fn read_list(&mut self, cursor: &mut Cursor<'a>, unit: Unit) {
        for _ in 0..=cursor.bytes_left() {
            if cursor.take_if(b'"') {
                self.read_string(cursor, unit);
            } else {
                self.read_value(cursor, unit);
            }
            cursor.skip_blanks();
            if !cursor.take_if(b',') {
                break;
            }
            cursor.skip_blanks();
        }
    }

    // A word, or a byte as a signed or an unsigned number.
    fn read_value(&mut self, cursor: &mut Cursor<'a>, unit: Unit) {
        let statement = match unit {
            Unit::Word => Statement::Word(self.read_operand(cursor, true)),
            Unit::Byte => {
                let value = self.read_number(cursor, 128, 255, Expected::Byte);
                Statement::Byte((value % 0x100) as u8)
            }
        };
        self.add(statement);
    }

    // The characters of a string, up to its closing quote, each as a byte or a word.
    fn read_string(&mut self, cursor: &mut Cursor<'a>, unit: Unit) {
        for _ in 0..=cursor.bytes_left() {
            if cursor.take_if(b'"') || cursor.mismatch().is_some() {
                break;
            }
            let value = cursor.take_character();
            self.add(match unit {
                Unit::Word => Statement::Word(Operand::Number(u32::from(value))),
                Unit::Byte => Statement::Byte(value),
            });
        }
    }

    // Without a number the size is that of a word.
    fn read_alignment(&mut self, cursor: &mut Cursor<'a>) {
        if cursor.is_at_end() {
            self.add(Statement::Align(4));
            return;
        }
        let left = cursor.bytes_left();
        let sum = self.read_constant(cursor, Expected::Alignment);
        let size = sum.number();
        if size > 256 || !size.is_power_of_two() {
            refuse_value(cursor, sum, Expected::Alignment, left);
        }
        self.add(Statement::Align(size));
    }

    fn read_space(&mut self, cursor: &mut Cursor<'a>) {
        let count = self.read_number(cursor, 0, MOST_CODE, Expected::Space);
        self.add(Statement::Space(count));
    }
}

// Whether an address makes sense as the operand of a function: as a number that is loaded, or as a distance.
fn takes_address(function: Function) -> bool {
    matches!(
        function,
        Function::Jump | Function::ConditionalJump | Function::Call | Function::LoadConstant
    )
}

// If the sum has a label, something else is expected instead of it.
fn refuse_label(cursor: &mut Cursor<'_>, sum: Sum<'_>, expected: Expected) {
    if let Some(label) = sum.label() {
        cursor.refuse_with(expected, label.left, Some(Hint::Unplaced));
    }
}

// A sum before the last `left` bytes of the line has another value than is expected.
fn refuse_value(cursor: &mut Cursor<'_>, sum: Sum<'_>, expected: Expected, left: usize) {
    let hint = sum.is_composed().then_some(Hint::Value(sum.number()));
    cursor.refuse_with(expected, left, hint);
}
