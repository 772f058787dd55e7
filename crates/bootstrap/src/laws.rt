//! Laws of a node's Steps.

ghost use Rattle.bootstrap.specs.Laws.{QuietStepChangesNothing, FaultHalts, BusyStepIsRecorded, RecordedStepRan, StepsAddUp, LastAnswersAddUp, StepKeepsTheSize, StepsKeepTheSize};

use link_channels::services_act_on_work;
use node_memory::{copies_stop_at_the_edge, written_bytes_are_read, written_words_are_read};
use t414_step::idle_where_it_rests;

/// A Step that would not be recorded leaves the node as it is.
pub fn quiet_step_changes_nothing()
    ensures law { QuietStepChangesNothing }
{
    // A step is idle only if there is nothing to run and no link has work.
    idle_where_it_rests();
    // Links are served only if one of them has work.
    services_act_on_work();
}

/// A Step that answers a fault leaves a node that has halted by it.
pub fn fault_halts()
    ensures law { FaultHalts }
{}

/// A Step that isn't quiet is recorded, and where it leaves a node that can step again it answered `Ran`.
pub fn recorded_step_ran()
    ensures recorded { BusyStepIsRecorded }
    ensures ran { RecordedStepRan }
{}

/// Recorded Steps after recorded Steps are recorded Steps, as many as both, and the last of all is the last of the
/// later ones, if there are any.
pub fn steps_add_up()
    ensures steps { StepsAddUp }
    ensures last { LastAnswersAddUp }
{}

/// No Step changes how many bytes memory has, so a node that is cleared is as it was opened.
pub fn steps_keep_the_size()
    ensures one { StepKeepsTheSize }
    ensures several { StepsKeepTheSize }
{
    // A word that was written is read.
    written_words_are_read();
    // A byte that was written is read.
    written_bytes_are_read();
    // A copy past the edge of memory is a fault.
    copies_stop_at_the_edge();
}
