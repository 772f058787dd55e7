//! One writer for many threads, which holds whole lines.
ghost use Rattle.std.specs.Prelude.{◌≡◌, ℕ, List, ⊤, true, false, ◌||◌, OnOk, OnErr, IsErr, string_bytes};
ghost use Rattle.std.specs.Io.KnownBytes.{Appends};
ghost use Rattle.live_farm.specs.WholeLines.{is_whole};

use crate::texts::LiveAnswer;
use std::io::{self, Write};
use std::sync::{Mutex, Wait};

/// A writer of lines. If `TRACKED` is 1, what it holds is whole lines, one after another, or a write has failed.
#[derive(Drop)]
pub struct Outlet<W: Write, const TRACKED: u64> {
    writer: W,
    failed: bool,
    ghost whole: { TRACKED ≡ 1 → (failed || is_whole (W.contents writer)) ≡ true },
}

impl<W: Write, const TRACKED: u64> Outlet<W, TRACKED> {
    /// An outlet to a writer, which holds whole lines if `TRACKED` is 1.
    pub fn new(writer: W) -> Outlet<W, TRACKED>
        requires { TRACKED ≡ 1 → is_whole (W.contents writer) ≡ true }
        ensures { result.writer ≡ writer }
    {
        Outlet {
            writer,
            failed: false,
        }
    }

    /// Writes an answer in one call and flushes.
    ///
    /// # Errors
    ///
    /// The writer's. After an error nothing more is written, and each call is an error.
    pub fn put(&mut self, answer: &LiveAnswer) -> io::Result<()>
        ensures lines { OnOk result (Appends (W.contents self.old.writer) (W.contents self.new.writer) (string_bytes answer.now.text)) }
        ensures before { self.old.failed ≡ true → IsErr result × (self.new ≡ self.old) }
        ensures done { OnOk result (self.new.failed ≡ false) }
        ensures failed { OnErr result (self.new.failed ≡ true) }
    {
        if self.failed {
            return Err(io::Error::from(io::ErrorKind::BrokenPipe));
        }
        self.failed = true;
        self.writer.write_all(answer.as_str().as_bytes())?;
        self.writer.flush()?;
        self.failed = false;
        Ok(())
    }

    /// Whether a write has failed.
    pub fn has_failed(&self) -> bool
        ensures { result ≡ self.now.failed }
    {
        self.failed
    }
}

/// Where answers go from any thread.
pub trait SharedOutlet {
    // Holds after a call of `put_answer` with an answer of these bytes.
    ghost was_put: { Self → List ℕ → Type 0 } = { λ _ _. ⊤ };

    /// Writes an answer. Whether that failed is seen by [`SharedOutlet::has_failed`].
    fn put_answer<R: Wait>(&self, rt: &R, answer: &LiveAnswer)
        ensures { was_put self.now (string_bytes answer.now.text) };

    /// Whether a write has failed.
    fn has_failed<R: Wait>(&self, rt: &R) -> bool;
}

impl<W: Write, const TRACKED: u64> SharedOutlet for Mutex<Outlet<W, TRACKED>> {
    fn put_answer<R: Wait>(&self, rt: &R, answer: &LiveAnswer) {
        let _ = self.lock(rt).put(answer);
    }

    fn has_failed<R: Wait>(&self, rt: &R) -> bool {
        self.lock(rt).has_failed()
    }
}
