//! What counts Steps.
ghost use Rattle.std.specs.Prelude.{◌<◌, ◌≤◌, IfOk};

use crate::bound::OutOfSteps;

/// Counts the Steps that are done: it says how many may be done, and can show a person how many were. Long work asks it
/// again and again, and does no more Steps between two questions than it allows.
pub trait StepMeter {
    /// How many of the Steps that are wanted next may be done before the meter is asked again.
    ///
    /// # Errors
    ///
    /// `OutOfSteps` if some are wanted and none may be done.
    fn allow(&mut self, wanted: u64) -> Result<u64, OutOfSteps>
        ensures some { IfOk result (λ some. 0 < wanted → 0 < some) }
        ensures within { IfOk result (λ some. some ≤ wanted) };

    /// Notes that `done` more Steps were done.
    fn note(&mut self, done: u64);
}
