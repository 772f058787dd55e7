//! How far a long record is replayed.

use crate::meter::ReplayMeter;
use crate::notices::Notices;
use domain_core::NoMemory;
use farm_records::ReplayWatch;
use std::alloc::Global;
use std::io::{self, Read};
use std::sync::Wait;

/// The bytes of a mebibyte. Lengths are shown in mebibytes.
const MEBIBYTE: u64 = 1 << 20;

/// How many bytes are read between two notices.
const BYTES_BETWEEN: u64 = 16 * MEBIBYTE;

/// How many Steps are done between two notices: some seconds' work.
const STEPS_BETWEEN: u64 = 1 << 30;

/// How much of a record was read and done, and where that is reported.
pub(crate) struct RecordProgress<'a, R: Wait, N: Notices> {
    pub(crate) rt: &'a R,
    pub(crate) alloc: Global,
    pub(crate) errors: &'a N,
    pub(crate) path: &'a str,
    pub(crate) meter: &'a ReplayMeter,
}

// Dropped by hand, since a derived `Drop` makes callers prove the drop of each field.
impl<R: Wait, N: Notices> Drop for RecordProgress<'_, R, N> {
    fn drop(self) {
        let RecordProgress {
            rt: _,
            alloc: _,
            errors: _,
            path: _,
            meter: _,
        } = self;
    }
}

impl<R: Wait, N: Notices> RecordProgress<'_, R, N> {
    // Reports how many mebibytes are read. Without memory for the line there is none.
    fn tell_bytes(&self, read: u64, length: u64) -> Result<(), NoMemory> {
        let (path, done, all) = (self.path, read / MEBIBYTE, length / MEBIBYTE);
        let line = format!(in self.alloc; "{path}: {done} of {all} MiB are replayed\n")?;
        self.errors.tell(self.rt, line.as_str());
        Ok(())
    }

    // Reports how many Steps are done.
    fn tell_steps(&self, steps: u64) -> Result<(), NoMemory> {
        let path = self.path;
        let line = format!(in self.alloc; "{path}: {steps} Steps are replayed\n")?;
        self.errors.tell(self.rt, line.as_str());
        Ok(())
    }
}

impl<R: Wait, N: Notices> ReplayWatch for RecordProgress<'_, R, N> {
    fn note_steps(&self, steps: u64) {
        let before = self.meter.count(steps);
        let after = before.saturating_add(steps);
        if after / STEPS_BETWEEN > before / STEPS_BETWEEN {
            let _ = self.tell_steps(after);
        }
    }

    fn goes_on(&self) -> bool {
        !self.meter.is_ended()
    }
}

/// How much of a record was read. Nothing is reported of a record of 16 MiB or less.
#[derive(Clone, Copy)]
pub(crate) struct BytesRead {
    /// How many bytes the record has.
    length: u64,
    // How many were read.
    read: u64,
}

impl BytesRead {
    /// Nothing is read of a record of this length.
    pub(crate) fn none_of(length: u64) -> BytesRead {
        BytesRead { length, read: 0 }
    }

    // Counts bytes that were read, and reports each 16 MiB.
    fn count<R: Wait, N: Notices>(&mut self, progress: &RecordProgress<'_, R, N>, bytes: usize) {
        let before = self.read / BYTES_BETWEEN;
        self.read = self.read.saturating_add(bytes as u64);
        if self.length > BYTES_BETWEEN && self.read / BYTES_BETWEEN > before {
            let _ = progress.tell_bytes(self.read, self.length);
        }
    }
}

/// A reader that reports how much was read.
pub(crate) struct ReportingReader<'a, 'b, R: Wait, N: Notices, I: Read + Drop> {
    pub(crate) input: I,
    pub(crate) progress: &'b RecordProgress<'a, R, N>,
    pub(crate) count: BytesRead,
}

// Dropped by hand, since a derived `Drop` makes callers prove the drop of each field.
impl<R: Wait, N: Notices, I: Read + Drop> Drop for ReportingReader<'_, '_, R, N, I> {
    fn drop(self) {
        let ReportingReader {
            input: _,
            progress: _,
            count: _,
        } = self;
    }
}

impl<R: Wait, N: Notices, I: Read + Drop> Read for ReportingReader<'_, '_, R, N, I> {
    ghost remaining = { λ reader. I.remaining reader.input };

    fn read(&mut self, buf: &mut [u8]) -> io::Result<usize> {
        let count = self.input.read(buf)?;
        self.count.count(self.progress, count);
        Ok(count)
    }
}
