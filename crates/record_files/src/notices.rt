//! Standard error, to which many threads write whole lines.

use script_text::write_whole;
use std::io::Write;
use std::sync::{Mutex, Wait};

/// Where any thread writes what the operator should know and what is no answer to a line.
pub trait Notices {
    /// Writes whole lines. If they can't be written the run goes on.
    fn tell<R: Wait>(&self, rt: &R, lines: &str);
}

impl<E: Write> Notices for Mutex<E> {
    fn tell<R: Wait>(&self, rt: &R, lines: &str) {
        let mut errors = self.lock(rt);
        let _ = write_whole(&mut *errors, lines.as_bytes());
    }
}
