//! Laws of what processes do.

ghost use Rattle.occam_core.specs.Laws.{
  BeginningsAreTraces,
  ClosedGuardsWait,
  MessagesAssign,
  ParallelsRun,
  ProcessesBegin,
  RunsAreDone,
  SequentialRuns,
};

/// What a sequential process does by itself, whatever bytes come to it, is one of its traces: it ends with the same
/// variables, errs, waits or goes on after what it said and heard there.
pub fn sequential_processes_run()
    ensures law { SequentialRuns }
{}

/// Each trace of a sequential process is what it does by itself, if the right bytes come: it has no other traces.
pub fn sequential_runs_are_done()
    ensures law { RunsAreDone }
{}

/// Each beginning of a trace is a trace, whatever the process: with PAR and ALT too.
pub fn beginnings_are_traces()
    ensures law { BeginningsAreTraces }
{}

/// Each process is under way before its first message, whatever it does then.
pub fn processes_begin()
    ensures law { ProcessesBegin }
{}

/// A PAR is its sides at the same time: what one does may come before or after what the other does, an error of one is one
/// of both, and it ends only where both have ended.
pub fn parallels_run()
    ensures law { ParallelsRun }
{}

/// A message within the node is an assignment: what one side of a PAR sends by a channel, and nothing else, is then in the
/// variable into which the other hears it.
pub fn messages_assign()
    ensures law { MessagesAssign }
{}

/// A guard of an ALT that isn't open is never taken: the other choices go on, or there is an error.
pub fn closed_guards_wait()
    ensures law { ClosedGuardsWait }
{}
