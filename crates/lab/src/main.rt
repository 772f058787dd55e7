//! The lab: replays events on a farm, traces a node, compares worked rows with their answers, and looks back into records.
#![tactic(auto)]

mod assembly;
mod blocks;
mod debugging;
mod failure;
mod film;
mod front_end;
mod mistakes;
mod occam_texts;
mod plans;
mod programs;
mod replays;
mod rows;
mod scripts;
mod table;
mod tracing;
mod why;

use crate::debugging::print_debugging;
use crate::film::print_film;
use crate::front_end::with_help;
use crate::occam_texts::report_occam;
use crate::replays::print_replayed;
use crate::rows::report_rows;
use crate::scripts::print_script;
use crate::table::print_plan;
use crate::tracing::{print_of_node, print_trace};
use crate::why::print_why;
use lab_command::{
    CommandLine, LabFailure, LabRequest, Report, command_words, end_with, read_command_line,
};
use std::process::ExitCode;

fn main(rt: HostRuntime) -> ExitCode {
    end_with(&rt, report(&rt))
}

fn report(rt: &HostRuntime) -> Result<Report, LabFailure> {
    let words = command_words(rt)?;
    match read_command_line(rt.alloc(), words.as_slice())? {
        CommandLine::Help(text) => Report::of(Ok(text)),
        CommandLine::Request(request) => match answer(rt, &request) {
            Ok(report) => Ok(report),
            // the front end itself says what is wrong with a text of occam
            Err(failure) if matches!(request, LabRequest::Occam(_)) => Err(failure),
            Err(failure) => Err(with_help(rt, failure)),
        },
    }
}

fn answer(rt: &HostRuntime, request: &LabRequest) -> Result<Report, LabFailure> {
    match request {
        LabRequest::Rows(asked) => report_rows(rt, asked),
        LabRequest::Node(asked) => Report::of(print_of_node(rt, asked)),
        LabRequest::Occam(asked) => report_occam(rt, asked),
        LabRequest::Plan => Report::of(print_plan(rt)),
        LabRequest::Replay(most) => Report::of(print_replayed(rt, *most)),
        LabRequest::Script(script, what) => Report::of(print_script(rt, *script, *what)),
        LabRequest::TraceScript(asked) => Report::of(print_trace(rt, *asked)),
        LabRequest::Why(asked) => Report::of(print_why(rt, asked)),
        LabRequest::Film(asked) => Report::of(print_film(rt, asked)),
        LabRequest::Debug(asked) => Report::of(print_debugging(rt, asked)),
    }
}
