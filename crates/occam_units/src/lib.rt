//! Programs of occam, as the front end hands them over: read, checked, and compiled. The front end reads the text; what crosses
//! is a unit, one line of JSON with the core of the program and the names of its text. docs/OCCAM.md describes it.
#![tactic(auto)]

mod building;
mod compiling;
mod fault;
mod naming;
mod printing;
mod reading;
mod rows;
mod sizes;
mod spans;
mod unit;
mod uses;

pub use compiling::{CodeSize, LARGEST_MEMORY, OccamProgram, bytes_at, image_at, program_of};
pub use fault::{OccamFault, RowList, UnitFault};
pub use naming::{PlacedLine, PlacedProgram, placed_at};
pub use printing::assembler_text;
pub use reading::{MOST_UNIT_BYTES, read_unit};
pub use sizes::size_table;
pub use spans::LineSpan;
pub use unit::{CoreUnit, UnitInstance, UnitLink, UnitProcedure, UnitVariable, VariableType};
pub use uses::UseMistake;
