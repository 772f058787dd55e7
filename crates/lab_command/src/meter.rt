//! How far long work is, on a terminal.

use script_text::write_whole;
use std::io::IsTerminal;
use std::time::Instant;
use step_meter::{OutOfSteps, StepBound, StepMeter};

/// How many milliseconds there are at least from one report to the next.
const BETWEEN: u128 = 500;

/// A meter that reports on standard error how many Steps were done, if that is a terminal.
#[derive(Drop)]
pub struct TerminalMeter<'a> {
    rt: &'a HostRuntime,
    bound: StepBound,
    // When the last report was written, or else the meter begun, if standard error is a terminal.
    told: Option<Instant>,
    is_shown: bool,
}

impl<'a> TerminalMeter<'a> {
    /// A meter that allows `most` Steps, or any number of them.
    pub fn begin(rt: &'a HostRuntime, most: Option<u64>) -> TerminalMeter<'a> {
        let told = if rt.stderr().is_terminal() {
            Instant::now(rt).ok()
        } else {
            None
        };
        TerminalMeter {
            rt,
            bound: StepBound::new(most),
            told,
            is_shown: false,
        }
    }

    // Writes how many Steps were done over what was written before.
    fn tell(&mut self) {
        if let Ok(text) = format!(in self.rt.alloc(); "\r{} Steps\x1b[K", self.bound.steps_done()) {
            let _ = write_whole(&mut self.rt.stderr(), text.as_bytes());
            self.is_shown = true;
        }
    }

    /// Wipes the last report off the terminal.
    pub fn wipe(&mut self) {
        if self.is_shown {
            let _ = write_whole(&mut self.rt.stderr(), b"\r\x1b[K");
            self.is_shown = false;
        }
    }
}

impl StepMeter for TerminalMeter<'_> {
    fn allow(&mut self, wanted: u64) -> Result<u64, OutOfSteps> {
        self.bound.allow(wanted)
    }

    fn note(&mut self, done: u64) {
        self.bound.note(done);
        if let Some(told) = self.told
            && let Ok(now) = Instant::now(self.rt)
            && now.duration_since(told).as_millis() >= BETWEEN
        {
            self.told = Some(now);
            self.tell();
        }
    }
}
