//! What the front end hands over of a text that is a program.

use occam_core::CoreProcess;
use serde::Deserialize;

/// What a variable has.
#[derive(Clone, Copy, Deserialize)]
#[serde(rename_all = "UPPERCASE")]
pub enum VariableType {
    Int,
    Byte,
    Bool,
    /// A channel within the node.
    #[serde(rename = "CHAN")]
    Channel,
}

/// A variable, or an array of them.
#[derive(Drop, Deserialize)]
#[serde(deny_unknown_fields)]
pub struct UnitVariable {
    /// Its name in the text. What only the core has, as the count of a replicator, has none.
    pub name: Option<String>,
    /// The type of it, or of each element.
    #[serde(rename = "type")]
    pub variable_type: VariableType,
    /// The line that declares it, or 0 if no line of the text does.
    pub line: u32,
    /// The number of its first word in the core.
    pub first: u32,
    /// How many words it has.
    pub words: u32,
    /// How many elements it has, if it is an array.
    pub length: Option<u32>,
}

/// A channel that is placed at a link.
#[derive(Drop, Deserialize)]
#[serde(deny_unknown_fields)]
pub struct UnitLink {
    /// 0 to 3 are the outputs of links 0 to 3, and 4 to 7 their inputs.
    pub number: u8,
    pub name: String,
    /// The line that declares it.
    pub line: u32,
}

/// A procedure.
#[derive(Drop, Deserialize)]
#[serde(deny_unknown_fields)]
pub struct UnitProcedure {
    pub name: String,
    /// The line that declares it, or 0 if it is in no text of the user.
    pub line: u32,
}

/// Where a procedure's body was put in place.
#[derive(Clone, Copy, Deserialize)]
#[serde(deny_unknown_fields)]
pub struct UnitInstance {
    /// The line and column of the instance in the text, from 1.
    pub line: u32,
    pub column: u32,
    /// The index of the procedure.
    pub procedure: usize,
}

/// The core of a program, with the names of its text. Each variable, array and link of the core is among those that it has, and
/// processes of a PAR use together only what they may.
pub struct CoreUnit {
    /// The text, as the front end read it.
    pub text: String,
    /// What may not be meant so, a line each.
    pub warnings: Vec<String>,
    /// The core as a text of occam, if that was asked for.
    pub core: Option<String>,
    /// The words of constant tables. They are the first of the variables, have these values from the start, and never change.
    pub tables: Vec<u32>,
    /// Each word of the program is in one of them, in their order.
    pub variables: Vec<UnitVariable>,
    /// No two have one number.
    pub links: Vec<UnitLink>,
    pub procedures: Vec<UnitProcedure>,
    pub instances: Vec<UnitInstance>,
    /// How many words the variables have together.
    pub words: u32,
    pub process: Box<CoreProcess>,
}

// Dropped by hand, since a derived `Drop` makes callers prove the drop of each field.
impl Drop for CoreUnit {
    fn drop(self) {
        let CoreUnit {
            text: _,
            warnings: _,
            core: _,
            tables: _,
            variables: _,
            links: _,
            procedures: _,
            instances: _,
            words: _,
            process: _,
        } = self;
    }
}
