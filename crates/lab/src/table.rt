//! A plan as a table.

use crate::failure::refused_plan;
use lab_command::LabFailure;
use plan_checker::accept_plan;
use plan_views::table_of;
use script_text::{divide_at_plan_end, read_whole};
use std::alloc::Global;

/// The plan on standard input as a table.
pub fn print_plan(rt: &HostRuntime) -> Result<String, LabFailure> {
    let text = read_whole(rt.alloc(), &mut rt.reader())?;
    match table(rt.alloc(), text.as_slice()) {
        Ok(table) => Ok(table),
        Err(failure) => Err(failure.of_source(text)),
    }
}

fn table(alloc: Global, text: &[u8]) -> Result<String, LabFailure> {
    match accept_plan(alloc, divide_at_plan_end(text).plan) {
        Ok(plan) => Ok(table_of(alloc, &plan)?),
        Err(fault) => Err(refused_plan(alloc, fault)),
    }
}
