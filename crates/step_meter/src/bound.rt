//! How many Steps may be done in all.
ghost use Rattle.std.specs.Prelude.{◌≡◌, ◌<◌, ◌≤◌, ◌+◌, ◌^◌, IfOk, IfErr, IfSome};

use thiserror::Error;

/// The most Steps that are done before a meter is asked again. They take some milliseconds.
pub const STEPS_AT_ONCE: u64 = 1_048_576;

/// As many Steps were done in all as may be, and more are wanted.
#[derive(Clone, Copy, Debug, Error)]
#[error("stopped after {most} Steps: --steps N allows more")]
pub struct OutOfSteps {
    /// How many may be done.
    pub most: u64,
}

/// A bound for Steps, and how many of them were done.
#[derive(Clone, Copy)]
pub struct StepBound {
    most: Option<u64>,
    done: u64,
}

impl StepBound {
    /// Up to `most` Steps may be done in all, or any number if none is given. None was done yet.
    pub fn new(most: Option<u64>) -> StepBound
        ensures most { result.most ≡ most }
        ensures done { result.done ≡ 0 }
    {
        StepBound { most, done: 0 }
    }

    /// How many Steps were done.
    pub fn steps_done(&self) -> u64
        ensures { result ≡ self.now.done }
    {
        self.done
    }

    /// How many of the Steps that are wanted next may be done before this is asked again.
    ///
    /// # Errors
    ///
    /// `OutOfSteps` if some are wanted and none may be done.
    pub fn allow(&self, wanted: u64) -> Result<u64, OutOfSteps>
        ensures some { IfOk result (λ some. 0 < wanted → 0 < some) }
        ensures within { IfOk result (λ some. some ≤ wanted) }
        ensures bound { IfOk result (λ some. IfSome self.now.most (λ most. 0 < some → self.now.done + some ≤ most)) }
        ensures end { IfErr result (λ end. (self.now.most ≡ Some end.most) × (end.most ≤ self.now.done)) }
    {
        let some = wanted.min(STEPS_AT_ONCE);
        let Some(most) = self.most else {
            return Ok(some);
        };
        if some > 0 && most <= self.done {
            return Err(OutOfSteps { most });
        }
        Ok(some.min(most.saturating_sub(self.done)))
    }

    /// Notes that `steps` more Steps were done.
    pub fn note(&mut self, steps: u64)
        ensures most { self.new.most ≡ self.old.most }
        ensures done { self.old.done + steps < 2 ^ 64 → self.new.done ≡ self.old.done + steps }
    {
        self.done = self.done.saturating_add(steps);
    }
}
