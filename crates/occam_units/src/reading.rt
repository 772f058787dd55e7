//! Units are read, and checked before anything is compiled.
ghost use Rattle.std.specs.Prelude.{◌≡◌, IfOk, IfSome, OnOk};
ghost use Rattle.occam_core.specs.Values.{result_of as result_of_two, result_of_one};
ghost use Rattle.occam_units.specs.Units.{IsChecked};

use crate::building::TreeBuilder;
use crate::fault::{OccamFault, UnitFault};
use crate::rows::{FoldRow, UnitRows};
use crate::unit::{CoreUnit, UnitInstance, UnitLink, UnitVariable};
use crate::uses::UseMistake;
use occam_core::{CoreProcess, has_process, result_of_one, result_of_two};
use occam_uses::find_clash;
use std::alloc::Global;

/// How many bytes a unit has at most.
pub const MOST_UNIT_BYTES: usize = 0x400_0000;

// The version that is read here.
const VERSION: u32 = 1;

// How many words the variables of a program have at most, those of tables and of loops among them: as many as the largest memory.
const MOST_WORDS: u32 = 16_384;

/// Reads a unit. Each operation on constants that the front end did is done again and compared. All words and links that the
/// process speaks of are there, and processes of a PAR use together only what they may.
///
/// # Errors
///
/// `Text` has the mistakes that the front end found in the text, `Unit` what is wrong with the unit, and `Uses` what processes of a
/// PAR use together.
pub fn read_unit(alloc: Global, json: &[u8]) -> Result<CoreUnit, OccamFault>
    ensures { IfOk result IsChecked }
{
    if json.is_empty() {
        return Err(UnitFault::Absent.into());
    }
    if json.len() > MOST_UNIT_BYTES {
        return Err(UnitFault::Length.into());
    }
    match serde_json::from_slice(alloc, json) {
        Ok(rows) => unit_of(alloc, rows),
        Err(error) => Err(UnitFault::Json(error).into()),
    }
}

// The unit of rows, checked.
fn unit_of(alloc: Global, rows: UnitRows) -> Result<CoreUnit, OccamFault>
    ensures { IfOk result IsChecked }
{
    if rows.version != VERSION {
        return Err(UnitFault::Version(rows.version).into());
    }
    if !rows.mistakes.is_empty() {
        return Err(OccamFault::Text(rows.mistakes));
    }
    if let Some(index) = rows.folds.iter().position(|fold| !is_right(*fold)) {
        return Err(UnitFault::Fold(index).into());
    }
    let process = process_of(alloc, &rows)?;
    checked_unit(alloc, named_unit(rows, process)?)
}

// Whether an operation on constants gives what is said.
fn is_right(fold: FoldRow) -> bool {
    match fold {
        FoldRow::One(operation, value, result) => {
            result_of_one(operation, value) == Some(result)
        }
        FoldRow::Two(operation, left, right, result) => {
            result_of_two(operation, left, right) == Some(result)
        }
    }
}

// The process of the rows.
fn process_of(alloc: Global, rows: &UnitRows) -> Result<Box<CoreProcess>, OccamFault> {
    let mut builder = TreeBuilder::new(alloc);
    for row in &rows.expressions {
        builder.add_expression(*row)?;
    }
    for row in &rows.processes {
        builder.add_process(*row)?;
    }
    Ok(builder.finish()?)
}

// A unit with this process, whose names are those of the rows.
fn named_unit(rows: UnitRows, process: Box<CoreProcess>) -> Result<CoreUnit, UnitFault> {
    let words = words_of(rows.variables.as_slice(), rows.tables.len())?;
    check_links(rows.links.as_slice())?;
    check_instances(rows.instances.as_slice(), rows.procedures.len())?;
    let UnitRows {
        text,
        warnings,
        core,
        tables,
        variables,
        links,
        procedures,
        instances,
        ..
    } = rows;
    Ok(CoreUnit {
        text,
        warnings,
        core,
        tables,
        variables,
        links,
        procedures,
        instances,
        words,
        process,
    })
}

// How many words variables have together, each after the one before it. Tables have the first of them.
fn words_of(rows: &[UnitVariable], table_words: usize) -> Result<u32, UnitFault> {
    let mut words: u32 = 0;
    for (index, row) in rows.iter().enumerate() {
        let next = words.saturating_add(row.words);
        if row.first != words || next > MOST_WORDS {
            return Err(UnitFault::Variable(index));
        }
        words = next;
    }
    if table_words > words as usize {
        return Err(UnitFault::Variable(rows.len()));
    }
    Ok(words)
}

// Each link is one of a node, and named once.
fn check_links(links: &[UnitLink]) -> Result<(), UnitFault> {
    let mut seen: u8 = 0;
    for (index, link) in links.iter().enumerate() {
        let bit = 1u8.checked_shl(u32::from(link.number)).unwrap_or(0);
        if bit == 0 || seen & bit != 0 {
            return Err(UnitFault::Link(index));
        }
        seen |= bit;
    }
    Ok(())
}

// Each instance is of a procedure.
fn check_instances(instances: &[UnitInstance], procedures: usize) -> Result<(), UnitFault> {
    match instances.iter().position(|it| it.procedure >= procedures) {
        Some(index) => Err(UnitFault::Instance(index)),
        None => Ok(()),
    }
}

// The unit, if its process speaks only of what there is, and processes of a PAR use together only what they may.
fn checked_unit(alloc: Global, unit: CoreUnit) -> Result<CoreUnit, OccamFault>
    ensures { IfOk result IsChecked }
{
    if !has_process(unit.words, &unit.process) {
        return Err(UnitFault::Bounds.into());
    }
    match find_clash(alloc, &unit.process)? {
        Some(clash) => Err(OccamFault::Uses(UseMistake::of(alloc, clash, &unit)?)),
        None => Ok(unit),
    }
}
