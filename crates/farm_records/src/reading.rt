//! A record is read, and done again line by line.
ghost use Rattle.std.specs.Prelude.{◌≡◌, ◌↔◌, ◌-◌, [], IfOk, IsTrue, OnOk, Some, length, slice_get};
ghost use Rattle.std.specs.Io.{StopsAt};
ghost use Rattle.std.specs.Io.KnownBytes.{Consumes, IsAtEnd};
ghost use Rattle.farm_records.specs.Taking.{TakesHead, TakesLines, TakesRecord};

use crate::fault::{RecordFault, RedoFault};
use crate::redoing::{Redoing, redo_line};
use crate::watch::ReplayWatch;
use crossbar::Outputs;
use domain_core::Domain;
use script_text::count_lines;
use std::alloc::Global;
use std::io::{self, BufRead};

/// What a record was.
#[derive(Clone, Copy)]
pub enum Redone {
    /// A beginning of its head, which isn't whole: it says nothing yet.
    Beginning,
    /// Its head and whole lines, and then `torn` bytes without a line feed.
    Lines { torn: usize },
}

// Reads the next line with its line feed. At the end of the input it is empty; what comes after the last line feed has none.
fn next_line<I: BufRead>(input: &mut I, line: &mut Vec<u8>) -> Result<(), RecordFault>
    ensures taken { OnOk result (Consumes (I.remaining input.old) (I.remaining input.new) line.new.items) }
    ensures end { OnOk result (line.new.items ≡ [] → IsAtEnd (I.remaining input.old)) }
    ensures stops { OnOk result (StopsAt line.new.items 10) }
{
    line.clear();
    match input.read_until(b'\n', line) {
        Ok(_) => Ok(()),
        Err(error) => Err(RecordFault::of_read(error)),
    }
}

// Whether a line ends with its line feed.
fn is_whole(line: &[u8]) -> bool
    ensures { IsTrue result ↔ (slice_get line.now (length line.now - 1) ≡ Some 10) }
{
    line.last() == Some(&b'\n')
}

// Whether bytes are the same.
fn are_same_bytes(a: &[u8], b: &[u8]) -> bool
    ensures { IsTrue result ↔ (a.now ≡ b.now) }
{
    a == b
}

// Takes the head, line by line; whether it was whole.
fn take_head<I: BufRead>(
    input: &mut I,
    line: &mut Vec<u8>,
    head: &[u8],
) -> Result<bool, RecordFault>
    ensures { IfOk result (λ whole. TakesHead (I.remaining input.old) (I.remaining input.new) head.now whole) }
{
    let mut taken = 0;
    for _ in 0..=head.len() {
        if taken == head.len() {
            return Ok(true);
        }
        next_line(input, line)?;
        if line.is_empty() {
            return Ok(false);
        }
        let (_, rest) = head.split_at(taken);
        if line.len() > rest.len() {
            return Err(RecordFault::Head);
        }
        if !are_same_bytes(&rest[..line.len()], line.as_slice()) {
            return Err(RecordFault::Head);
        }
        taken += line.len();
    }
    Err(RecordFault::Head)
}

// Checks that the input ends after the line that was read last. `Io` if it doesn't.
fn take_end<I: BufRead>(input: &mut I, line: &mut Vec<u8>) -> Result<(), RecordFault>
    ensures { OnOk result (IsAtEnd (I.remaining input.old)) }
{
    next_line(input, line)?;
    if line.is_empty() {
        Ok(())
    } else {
        Err(RecordFault::Io(io::Error::from(io::ErrorKind::Other)))
    }
}

// Does lines again up to the end of the input. `first` is the number of the first line. Returns how many bytes come after the
// last line feed.
fn redo_lines<I: BufRead, O: Outputs + Drop, W: ReplayWatch>(
    input: &mut I,
    line: &mut Vec<u8>,
    redoing: &mut Redoing<'_, W>,
    domain: &mut Domain<O>,
    first: u64,
) -> Result<usize, RecordFault>
    ensures { IfOk result (λ torn. TakesLines (I.remaining input.old) torn domain.old domain.new) }
{
    for number in first..u64::MAX {
        next_line(input, line)?;
        if !is_whole(line.as_slice()) {
            let torn = line.len();
            take_end(input, line)?;
            return Ok(torn);
        }
        if let Err(fault) = redo_line(redoing, domain, line.as_slice()) {
            return Err(RecordFault::of_line(number, fault));
        }
    }
    Err(RecordFault::of_line(u64::MAX, RedoFault::NoLine))
}

/// Reads the record of a freshly opened domain, and does again what it says. Each line is compared with what the domain
/// answers, byte by byte. What comes after the last line feed isn't done: it is the beginning of a line, and nobody was given
/// the answer in it.
///
/// # Errors
///
/// `Head` if it begins with another head than this; `Line` with the number of the first line that isn't one of a record or that
/// the domain answers otherwise; `Io` if a read fails; `Ended` if who watches ends it; `Memory`. What was done until then stays
/// done.
pub fn redo_record<I: BufRead, O: Outputs + Drop, W: ReplayWatch>(
    alloc: Global,
    watch: &W,
    input: &mut I,
    head: &str,
    domain: &mut Domain<O>,
) -> Result<Redone, RecordFault>
    ensures { IfOk result (λ redone. TakesRecord (I.remaining input.old) head.now redone domain.old domain.new) }
{
    let mut line = Vec::new(alloc);
    if !take_head(input, &mut line, head.as_bytes())? {
        return Ok(Redone::Beginning);
    }
    let mut redoing = Redoing::new(alloc, watch);
    let first = (count_lines(head.as_bytes()) as u64).saturating_add(1);
    let torn = redo_lines(input, &mut line, &mut redoing, domain, first)?;
    Ok(Redone::Lines { torn })
}
