//! What is to be replayed of a domain when a farm goes on.
ghost use Rattle.farm_service.specs.Restarts.{AreInOrder};

use crate::finding::FoundRecord;
use crate::meter::ReplayMeter;
use crate::names::{first_name, names_of};
use crate::notices::Notices;
use crate::record_file::{RecordFile, RecordPlace, record_path};
use crate::redoing::{FileSource, RecordHistory};
use domain_core::NoMemory;
use farm_records::RecordFault;
use farm_service::{History, Service, Session};
use record_keeping::DomainRecord;
use std::alloc::Global;
use std::fs::{File, Files};
use std::sync::{Mutex, Wait};

/// The newest record of a domain, before it is replayed.
pub(crate) struct RecordStart<'a, F: Files<File = File>> {
    pub(crate) found: FoundRecord,
    pub(crate) place: RecordPlace<'a, F>,
}

// Dropped by hand, since a derived `Drop` makes callers prove the drop of each field.
impl<F: Files<File = File>> Drop for RecordStart<'_, F> {
    fn drop(self) {
        let RecordStart { found: _, place: _ } = self;
    }
}

impl<'a, F: Files<File = File>> RecordStart<'a, F> {
    // The record, and its place.
    fn into_parts(self) -> (FoundRecord, RecordPlace<'a, F>) {
        let RecordStart { found, place } = self;
        (found, place)
    }
}

/// What a replay tells, and the record that it opens.
#[derive(Drop)]
pub struct ReplayOutputs<'a, K, N> {
    /// The record of the domain.
    pub record: &'a K,
    /// How far the replay is.
    pub meter: &'a ReplayMeter,
    /// Where notices go.
    pub errors: &'a N,
}

// Lets a domain enter with a history. If these aren't the sessions of all its users, nothing is done.
fn enter<R: Wait, H: History>(
    rt: &R,
    service: &Service,
    domain: u8,
    history: &mut H,
    sessions: &mut [Session<'_>],
)
    ensures { AreInOrder domain sessions.old → AreInOrder domain sessions.new }
{
    match service.enter(rt, domain, history, sessions) {
        Ok(_) => {}
        Err(_) => {}
    }
}

/// What is to be replayed of a domain, if anything is.
pub struct FileReplay<'a, F: Files<File = File>> {
    alloc: Global,
    start: Mutex<Option<RecordStart<'a, F>>>,
}

// Dropped by hand, since a derived `Drop` makes callers prove the drop of each field.
impl<F: Files<File = File>> Drop for FileReplay<'_, F> {
    fn drop(self) {
        let FileReplay { alloc: _, start: _ } = self;
    }
}

impl<'a, F: Files<File = File>> FileReplay<'a, F> {
    /// Nothing.
    pub(crate) fn none(alloc: Global) -> FileReplay<'a, F> {
        FileReplay {
            alloc,
            start: Mutex::new(None),
        }
    }

    /// This record.
    pub(crate) fn of(alloc: Global, start: RecordStart<'a, F>) -> FileReplay<'a, F> {
        FileReplay {
            alloc,
            start: Mutex::new(Some(start)),
        }
    }

    /// Whether something is to be replayed yet.
    pub fn is_left<R: Wait>(&self, rt: &R) -> bool {
        self.start.lock(rt).is_some()
    }

    /// Replays what is left on the domain of these sessions, and makes the record the one for what comes. If it can't be taken it
    /// stays as it is, the domain is as it was opened, and a notice says what may be done. In each case workers are let into the
    /// domain then. If these aren't the sessions of all users of the domain, nothing is done.
    pub fn replay<R: Wait, N: Notices>(
        &self,
        rt: &R,
        service: &Service,
        domain: u8,
        sessions: &mut [Session<'_>],
        outputs: &ReplayOutputs<'_, Mutex<DomainRecord<RecordFile<'a, F>>>, N>,
    )
        ensures { AreInOrder domain sessions.old → AreInOrder domain sessions.new }
    {
        let start = self.start.lock(rt).take();
        let Some(start) = start else {
            return;
        };
        let (mut found, place) = start.into_parts();
        let Some(file) = found.file.take() else {
            return;
        };
        let ReplayOutputs {
            record,
            meter,
            errors,
        } = outputs;
        let source = FileSource::new(self.alloc, *errors, *meter, &found, file, place);
        let mut history = RecordHistory::new(self.alloc, source);
        enter(rt, service, domain, &mut history, sessions);
        match history.into_taken() {
            Ok(taken) => *record.lock(rt) = taken,
            Err(RecordFault::Ended) => {}
            Err(fault) => {
                // Without memory for the notice there is none.
                let _ = self.tell_out(rt, &found, service, domain, &fault, *errors);
            }
        }
    }

    // Reports that the record can't be taken, and what may be done.
    fn tell_out<R: Wait, N: Notices>(
        &self,
        rt: &R,
        found: &FoundRecord,
        service: &Service,
        domain: u8,
        fault: &RecordFault,
        errors: &N,
    ) -> Result<(), NoMemory> {
        let path = found.path.as_str();
        let number = found.number.saturating_add(1);
        let next = record_path(self.alloc, found.stem.as_str(), number)?;
        let name = first_name(service.plan(), domain).unwrap_or("");
        let names = names_of(self.alloc, service.plan(), domain)?;
        let lines = format!(in self.alloc;
            "{path}: {fault}\n{path}: lines of {names} are answered record. The operator's !restart {name} begins their domain anew with {next}, and this file stays as it is. Or stop, mend this file or move it away, and start again\n"
        )?;
        errors.tell(rt, lines.as_str());
        Ok(())
    }
}
