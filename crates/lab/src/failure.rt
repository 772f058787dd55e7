//! Why nothing is answered of farms, plans, scripts and records.

use lab_command::{LabFailure, NO_MEMORY, REFUSED_PLAN, WRONG_TEXT};
use lab_debug::DebugFault;
use plan_checker::PlanFault;
use record_following::{RecordStop, WhyFault};
use script_replay::{ReplayFault, RunFault};
use std::alloc::Global;

/// A plan is refused.
pub fn refused_plan(alloc: Global, fault: PlanFault) -> LabFailure {
    wrong_run(alloc, RunFault::of_plan(fault, true))
}

/// A text isn't replayed.
pub fn wrong_replay(alloc: Global, fault: ReplayFault) -> LabFailure {
    match fault {
        ReplayFault::OfUser { told, line } => LabFailure::Refused {
            text: told,
            source: line,
            status: WRONG_TEXT,
        },
        ReplayFault::Line(wrong) => LabFailure::of_line(alloc, &wrong, WRONG_TEXT),
        ReplayFault::Steps(end) => LabFailure::of_steps(alloc, end),
        ReplayFault::Memory(_) => LabFailure::Memory,
        fault => LabFailure::of_line(alloc, &fault, REFUSED_PLAN),
    }
}

/// A script isn't run.
pub fn wrong_run(alloc: Global, fault: RunFault) -> LabFailure {
    match fault {
        RunFault::Lines(text) => LabFailure::Shown {
            text,
            status: WRONG_TEXT,
        },
        RunFault::Domain(domain) => no_domain(alloc, domain),
        RunFault::Head(_) => LabFailure::of_text(
            String::from_str(alloc, "the head of the record doesn't read as its plan\n"),
            WRONG_TEXT,
        ),
        RunFault::Steps(end) => LabFailure::of_steps(alloc, end),
        RunFault::Memory(_) => LabFailure::Memory,
        fault => LabFailure::of_line(alloc, &fault, REFUSED_PLAN),
    }
}

/// A farm has no domain of this number.
pub fn no_domain(alloc: Global, domain: u8) -> LabFailure {
    LabFailure::of_line(alloc, &RunFault::Domain(domain), WRONG_TEXT)
}

// A text is no record, or can't be followed.
fn wrong_record(alloc: Global, fault: WhyFault) -> LabFailure {
    let status = match fault {
        WhyFault::Plan(_) | WhyFault::Domains(_) => REFUSED_PLAN,
        WhyFault::Memory(_) => NO_MEMORY,
        _ => WRONG_TEXT,
    };
    LabFailure::of_line(alloc, &fault, status)
}

/// A record isn't followed to the moment that is asked for.
pub fn stopped_record(alloc: Global, stop: RecordStop) -> LabFailure {
    match stop {
        RecordStop::Record(fault) => wrong_record(alloc, fault),
        RecordStop::Steps(end) => LabFailure::of_steps(alloc, end),
    }
}

/// A record isn't looked through.
pub fn wrong_debugging(alloc: Global, fault: DebugFault) -> LabFailure {
    match fault {
        DebugFault::Record(fault) => wrong_record(alloc, fault),
        DebugFault::Steps(end) => LabFailure::of_steps(alloc, end),
        DebugFault::Memory(_) => LabFailure::Memory,
        DebugFault::Io => LabFailure::Io,
    }
}
