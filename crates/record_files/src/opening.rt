//! The records of a farm that is opened: one that is there is to be replayed, and else the first one begins.

use crate::failure::FileFailure;
use crate::finding::FoundRecord;
use crate::record_file::{FileRecords, RecordFile, RecordPlace};
use crate::record_folder::RecordFolder;
use crate::replay::{FileReplay, RecordStart};
use domain_core::{Journal, NoMemory};
use farm_records::RecordFault;
use plan_checker::AcceptedPlan;
use record_keeping::{DomainRecord, RecordStore};
use std::alloc::{Alloc, Global};
use std::fs::{File, Files};
use std::sync::Mutex;

// Why a record isn't taken, as a run that ends early says it.
fn refusal_of(alloc: Global, path: &str, fault: &RecordFault) -> FileFailure {
    match format!(in alloc; "{fault}") {
        Ok(why) => FileFailure::of_record(alloc, path, why.as_str()),
        Err(_) => FileFailure::Memory,
    }
}

// If no record that is there can be taken, why the first can't be.
fn find_fault(alloc: Global, found: &[FoundRecord]) -> Result<(), FileFailure> {
    for record in found {
        if matches!(record.file, Some(Ok(_))) {
            return Ok(());
        }
    }
    for record in found {
        if let Some(Err(fault)) = &record.file {
            return Err(refusal_of(alloc, record.path.as_str(), fault));
        }
    }
    Ok(())
}

impl<'a, F: Files<File = File> + Alloc<A = Global> + Clone + Drop> RecordFolder<'a, F> {
    // The place of a domain's records, whose paths begin with this.
    fn place(&self, stem: &str) -> Result<RecordPlace<'a, F>, NoMemory> {
        Ok(RecordPlace {
            files: self.files,
            alloc: self.alloc,
            folder: String::from_str(self.alloc, self.path.as_str())?,
            stem: String::from_str(self.alloc, stem)?,
            syncs: self.syncs,
        })
    }

    // Begins the first record of a domain.
    fn open_first(
        &self,
        found: FoundRecord,
    ) -> Result<DomainRecord<RecordFile<'a, F>>, FileFailure> {
        let older = found.older_records(self.alloc)?;
        let mut file = RecordFile::behind(self.place(found.stem.as_str())?, 0, older);
        match file.begin_next(found.head.as_str()) {
            Ok(()) => {
                let journal = Journal::new(self.alloc);
                Ok(DomainRecord::of(self.alloc, file, found.head, &journal)?)
            }
            Err(error) => {
                let path = found.path.as_str();
                Err(FileFailure::of_file(self.alloc, path, error))
            }
        }
    }

    // The record of a domain that is there, which can't be taken before it is replayed.
    fn behind_found(
        &self,
        found: &FoundRecord,
    ) -> Result<DomainRecord<RecordFile<'a, F>>, NoMemory> {
        let older = found.older_records(self.alloc)?;
        let file = RecordFile::behind(self.place(found.stem.as_str())?, found.number, older);
        let head = String::from_str(self.alloc, found.head.as_str())?;
        DomainRecord::out(self.alloc, file, head)
    }

    // What is to be replayed of a domain.
    fn start_of(&self, found: FoundRecord) -> Result<RecordStart<'a, F>, NoMemory> {
        Ok(RecordStart {
            place: self.place(found.stem.as_str())?,
            found,
        })
    }

    /// Opens the records of all domains of a plan; with what is to be replayed of each. The newest record of a domain that has one stays
    /// as it is until it is replayed, which is left to [`FileReplay::replay`], and can't be taken before; else its first record begins.
    ///
    /// # Errors
    ///
    /// `Record` if a record is there and the farm doesn't resume, or if none begins with the head of its domain; `System` if a call of
    /// the system failed. Each names its file. `Memory` if that ran out of memory, and `Histories` if a domain has no users. No file
    /// changes before all records are found.
    pub fn open_records(
        &self,
        plan: &AcceptedPlan,
        resumes: bool,
    ) -> Result<(FileRecords<'a, F>, Vec<FileReplay<'a, F>>), FileFailure> {
        let found = self.find_records(plan, resumes)?;
        find_fault(self.alloc, found.as_slice())?;
        let mut records = Vec::with_capacity(self.alloc, found.len())?;
        let mut replays = Vec::with_capacity(self.alloc, found.len())?;
        for found in found {
            if found.number == 0 {
                records.push(Mutex::new(self.open_first(found)?))?;
                replays.push(FileReplay::none(self.alloc))?;
            } else {
                records.push(Mutex::new(self.behind_found(&found)?))?;
                replays.push(FileReplay::of(self.alloc, self.start_of(found)?))?;
            }
        }
        Ok((records, replays))
    }
}
