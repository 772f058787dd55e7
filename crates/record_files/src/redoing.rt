//! A record that is there, replayed on its domain.
ghost use Rattle.std.specs.Prelude.{◌≡◌, ◌++◌, IfOk, IfSome, string_bytes};
ghost use Rattle.farm_records.specs.RecordText.{record_text, lines_of};
ghost use Rattle.record_keeping.specs.Counts.{IsCountBefore};
ghost use Rattle.record_files.specs.Takings.{IsTakenWith};

use crate::finding::FoundRecord;
use crate::meter::ReplayMeter;
use crate::notices::Notices;
use crate::progress::{BytesRead, RecordProgress, ReportingReader};
use crate::record_file::{RecordFile, RecordPlace};
use domain_core::NoMemory;
use farm_records::{RecordFault, Redone, redo_record};
use farm_service::{History, SeatedDomain};
use record_keeping::{DomainRecord, RecordStore};
use std::alloc::Global;
use std::fs::{File, Files};
use std::io::BufReader;
use std::sync::Wait;

/// How much of a file is whole, and how long it is.
#[derive(Clone, Copy)]
struct WholePart {
    length: u64,
    whole: u64,
}

fn length_of(file: &File) -> Result<u64, RecordFault> {
    match file.metadata() {
        Ok(metadata) => Ok(metadata.len()),
        Err(error) => Err(RecordFault::of_read(error)),
    }
}

// Reserves memory in a domain for as many entries as before its record was replayed, or for all that there are, if they are
// more: no more are added then.
fn reserve_again(alloc: Global, domain: &mut SeatedDomain, before: usize) -> Result<(), NoMemory> {
    if before == 0 {
        return Ok(());
    }
    domain.reserve(alloc, before.max(domain.journal().len()))
}

// Replays a file on its domain, in which no memory is reserved any more: the record may be longer than the domain's room. Nothing
// of the file changes.
fn redo_file<R: Wait, N: Notices>(
    progress: &RecordProgress<'_, R, N>,
    head: &str,
    file: &File,
    domain: &mut SeatedDomain,
) -> Result<WholePart, RecordFault> {
    let alloc = progress.alloc;
    let length = length_of(file)?;
    domain.reserve(alloc, 0)?;
    let redone = {
        let input = ReportingReader {
            input: file,
            progress,
            count: BytesRead::none_of(length),
        };
        let mut reader = BufReader::new(alloc, input).map_err(RecordFault::of_read)?;
        redo_record(alloc, progress, &mut reader, head, domain)?
    };
    let length = length_of(file)?;
    let whole = match redone {
        Redone::Beginning => 0,
        Redone::Lines { torn } => length.saturating_sub(torn as u64),
    };
    Ok(WholePart { length, whole })
}

/// Where the record of a domain comes from that is replayed.
pub(crate) trait RecordSource<S: RecordStore> {
    /// Replays the record on a domain as it was opened, and opens it for what comes; the store, and the head that it has.
    ///
    /// # Errors
    ///
    /// Why it can't be taken. What was done until then stays done.
    fn open<R: Wait>(
        &mut self,
        rt: &R,
        domain: &mut SeatedDomain,
    ) -> Result<(S, String), RecordFault>
        ensures whole { IfOk result (λ opened. S.whole opened.0 ≡ S.contents opened.0) }
        ensures lines { IfOk result (λ opened. IfSome (S.contents opened.0)
            (λ held. held ≡ string_bytes opened.1 ++ record_text (lines_of domain.new.journal))) };
}

/// The record of a domain, as it is replayed: then the record for what comes, or why it isn't taken.
pub(crate) struct RecordHistory<S: RecordStore, P: RecordSource<S> + Drop> {
    alloc: Global,
    source: P,
    taken: Option<Result<DomainRecord<S>, RecordFault>>,
}

// Dropped by hand, since a derived `Drop` makes callers prove the drop of each field.
impl<S: RecordStore, P: RecordSource<S> + Drop> Drop for RecordHistory<S, P> {
    fn drop(self) {
        let RecordHistory {
            alloc: _,
            source: _,
            taken: _,
        } = self;
    }
}

impl<S: RecordStore, P: RecordSource<S> + Drop> RecordHistory<S, P> {
    /// The record that comes from here.
    pub(crate) fn new(alloc: Global, source: P) -> RecordHistory<S, P> {
        RecordHistory {
            alloc,
            source,
            taken: None,
        }
    }

    /// The record for what comes, or why the one that is there isn't taken.
    pub(crate) fn into_taken(self) -> Result<DomainRecord<S>, RecordFault> {
        let RecordHistory {
            alloc: _,
            source: _,
            taken,
        } = self;
        match taken {
            Some(taken) => taken,
            None => Err(RecordFault::Ended),
        }
    }

    // Replays the record, and opens it for what comes.
    fn take<R: Wait>(
        &mut self,
        rt: &R,
        domain: &mut SeatedDomain,
    ) -> Result<DomainRecord<S>, RecordFault>
        ensures { IfOk result (λ taken. IsCountBefore domain.new.journal taken.mark taken.commands) }
    {
        let (store, head) = self.source.open(rt, domain)?;
        Ok(DomainRecord::of(self.alloc, store, head, domain.journal())?)
    }
}

impl<S: RecordStore, P: RecordSource<S> + Drop> History for RecordHistory<S, P> {
    // The record that was taken counts the commands in the domain's journal.
    ghost has_redone = { λ history domain. IsTakenWith history.taken domain.journal };

    fn redo<R: Wait>(&mut self, rt: &R, domain: &mut SeatedDomain) -> bool {
        let taken = self.take(rt, domain);
        let is_taken = taken.is_ok();
        self.taken = Some(taken);
        is_taken
    }
}

/// The file of the newest record of a domain.
pub(crate) struct FileSource<'a, 'b, F: Files<File = File>, N: Notices> {
    alloc: Global,
    errors: &'b N,
    meter: &'b ReplayMeter,
    found: &'b FoundRecord,
    // What is opened once it is replayed.
    file: Option<Result<File, RecordFault>>,
    place: Option<RecordPlace<'a, F>>,
}

// Dropped by hand, since a derived `Drop` makes callers prove the drop of each field.
impl<F: Files<File = File>, N: Notices> Drop for FileSource<'_, '_, F, N> {
    fn drop(self) {
        let FileSource {
            alloc: _,
            errors: _,
            meter: _,
            found: _,
            file: _,
            place: _,
        } = self;
    }
}

impl<'a, 'b, F: Files<File = File>, N: Notices> FileSource<'a, 'b, F, N> {
    /// The file of a record that was found, at its place.
    pub(crate) fn new(
        alloc: Global,
        errors: &'b N,
        meter: &'b ReplayMeter,
        found: &'b FoundRecord,
        file: Result<File, RecordFault>,
        place: RecordPlace<'a, F>,
    ) -> FileSource<'a, 'b, F, N> {
        FileSource {
            alloc,
            errors,
            meter,
            found,
            file: Some(file),
            place: Some(place),
        }
    }

    // Replays a file, and reserves memory again.
    fn redo_reserved<R: Wait>(
        &self,
        rt: &R,
        file: &File,
        domain: &mut SeatedDomain,
    ) -> Result<WholePart, RecordFault> {
        let progress = RecordProgress {
            rt,
            alloc: self.alloc,
            errors: self.errors,
            path: self.found.path.as_str(),
            meter: self.meter,
        };
        let reserved = domain.reserved_entries();
        let part = redo_file(&progress, self.found.head.as_str(), file, domain);
        reserve_again(self.alloc, domain, reserved)?;
        part
    }

    // Reports that bytes after the last whole line are cut off.
    fn tell_cut<R: Wait>(&self, rt: &R, cut: u64) -> Result<(), NoMemory> {
        let path = self.found.path.as_str();
        let line = format!(in self.alloc;
            "{path}: {cut} bytes behind the last whole line are cut off\n"
        )?;
        self.errors.tell(rt, line.as_str());
        Ok(())
    }

    // Opens a file that was replayed: cuts off what isn't whole, and writes its head if it has none.
    fn open_whole<R: Wait>(
        &self,
        rt: &R,
        place: RecordPlace<'a, F>,
        file: File,
        part: WholePart,
    ) -> Result<RecordFile<'a, F>, RecordFault> {
        let older = self.found.older_records(self.alloc)?;
        let mut opened = RecordFile::with_file(place, self.found.number, file, part.whole, older);
        if part.length > part.whole {
            opened.cut_back().map_err(RecordFault::of_read)?;
            self.tell_cut(rt, part.length - part.whole)?;
        }
        if part.whole == 0 {
            opened
                .append(self.found.head.as_str())
                .map_err(RecordFault::of_read)?;
        }
        Ok(opened)
    }
}

impl<'a, F: Files<File = File>, N: Notices> RecordSource<RecordFile<'a, F>>
    for FileSource<'a, '_, F, N> {
    fn open<R: Wait>(
        &mut self,
        rt: &R,
        domain: &mut SeatedDomain,
    ) -> Result<(RecordFile<'a, F>, String), RecordFault> {
        let (Some(file), Some(place)) = (self.file.take(), self.place.take()) else {
            return Err(RecordFault::Ended);
        };
        let file = file?;
        let part = self.redo_reserved(rt, &file, domain)?;
        let opened = self.open_whole(rt, place, file, part)?;
        let head = String::from_str(self.alloc, self.found.head.as_str())?;
        Ok((opened, head))
    }
}
