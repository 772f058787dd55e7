//! Events of a line are done, and the domain is shown after them.
ghost use Rattle.std.specs.Prelude.{◌<◌, IfOk};
ghost use Rattle.record_following.specs.RecordCursor.{DoesUpTo};
ghost use Rattle.lab_film.specs.Frames.{Shows};

use crate::frame::{Frame, frame_of};
use record_following::{CallOutcome, LineStop, RecordCursor};
use std::alloc::Global;
use step_meter::StepMeter;

/// What events of a line came to, and the domain after them.
#[derive(Drop)]
pub struct Shot {
    pub outcome: CallOutcome,
    pub frame: Frame,
}

/// Does what is left of a line, or `most` of its events, as `RecordCursor::apply_part` does it, and shows the domain after that.
///
/// # Errors
///
/// Those of `RecordCursor::apply_part`; `Memory` where the frame can't be copied.
pub fn shot_of<M: StepMeter>(
    alloc: Global,
    cursor: &mut RecordCursor,
    most: u64,
    meter: &mut M,
) -> Result<Shot, LineStop>
    ensures done { IfOk result (λ shot. DoesUpTo most cursor.old cursor.new) }
    ensures some { IfOk result (λ shot. cursor.old.replayed.recorded < cursor.new.replayed.recorded) }
    ensures shows { IfOk result (λ shot. Shows cursor.new.replayed shot.frame) }
{
    let outcome = cursor.apply_part(most, meter)?;
    let frame = frame_of(alloc, &mut cursor.replayed)?;
    Ok(Shot { outcome, frame })
}
