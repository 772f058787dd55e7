//! The records that are in a folder, before any of them is read.
ghost use Rattle.std.specs.Prelude.{◌<◌, length};

use crate::failure::FileFailure;
use crate::names::first_name;
use crate::record_file::{OlderRecord, disk_bytes, record_path};
use crate::record_folder::RecordFolder;
use domain_core::NoMemory;
use farm_records::{HeadFault, RecordFault, head_of};
use plan_checker::AcceptedPlan;
use std::alloc::{Alloc, Global};
use std::collections::VecDeque;
use std::fs::{self, File, Files, OpenOptions};
use std::io;
use std::os::unix::fs::FileExt;

/// The newest record of a domain, before any file changes.
#[derive(Drop)]
pub(crate) struct FoundRecord {
    pub(crate) head: String,
    pub(crate) stem: String,
    /// The number of its newest record, 0 if it has none.
    pub(crate) number: u64,
    pub(crate) path: String,
    /// The records before it that are there, the oldest first.
    pub(crate) older: Vec<OlderRecord>,
    /// Its file, or why it can't be taken; none if there is no record.
    pub(crate) file: Option<Result<File, RecordFault>>,
}

impl FoundRecord {
    /// The records before it that are there, the oldest first.
    pub(crate) fn older_records(&self, alloc: Global) -> Result<VecDeque<OlderRecord>, NoMemory> {
        let mut older = VecDeque::with_capacity(alloc, self.older.len())?;
        for record in &self.older {
            older.push_back(*record)?;
        }
        Ok(older)
    }
}

// The number of a record of a domain whose first user is called so, if it is the name of one: `NAME.replay` or `NAME.N.replay`.
fn record_number(name: &str, file: &str) -> Option<u64> {
    let middle = file.strip_prefix(name)?.strip_suffix(".replay")?;
    if middle.is_empty() {
        return Some(1);
    }
    let digits = middle.strip_prefix(".")?;
    if digits.starts_with('0') || digits.starts_with('+') {
        return None;
    }
    match digits.parse::<u64>() {
        Ok(number) if number > 1 => Some(number),
        _ => None,
    }
}

// The records of a domain that are in a folder, the oldest first.
fn records_in<F: Files<File = File> + Alloc<A = Global> + Clone + Drop>(
    files: &F,
    alloc: Global,
    folder: &str,
    name: &str,
) -> io::Result<Vec<OlderRecord>> {
    let mut records = Vec::new(alloc);
    for entry in fs::read_dir(files, folder)? {
        let entry = entry?;
        if let Some(number) = record_number(name, entry.file_name()) {
            let bytes = disk_bytes(entry.metadata()?.len());
            records.push(OlderRecord { number, bytes })?;
        }
    }
    records.sort_by_key(|it| it.number)?;
    Ok(records)
}

// The head of a domain's record.
fn record_head(alloc: Global, plan: &AcceptedPlan, number: u8) -> Result<String, FileFailure>
    requires { number < length plan.now }
{
    match head_of(alloc, plan, number) {
        Ok(head) => Ok(head),
        Err(HeadFault::Memory(_)) => Err(FileFailure::Memory),
        Err(HeadFault::Unlike) => Err(FileFailure::Histories),
    }
}

// Opens a record that is there, if it begins with this head.
fn open_found<F: Files<File = File>>(
    files: &F,
    path: &str,
    head: &[u8],
) -> Result<File, RecordFault> {
    let file = OpenOptions::new()
        .read(true)
        .append(true)
        .open(files, path)
        .map_err(RecordFault::of_read)?;
    if begins_with(&file, head).map_err(RecordFault::of_read)? {
        Ok(file)
    } else {
        Err(RecordFault::Head)
    }
}

// Whether a file begins with a head, or has no more than a beginning of it.
fn begins_with(file: &File, head: &[u8]) -> io::Result<bool> {
    let mut bytes = [0u8; 512];
    let mut done = 0;
    for _ in 0..=head.len() {
        let Some(left) = head.get(done..) else {
            break;
        };
        let count = file.read_at(&mut bytes, done as u64)?.min(left.len());
        if count == 0 {
            break;
        }
        if bytes.get(..count) != left.get(..count) {
            return Ok(false);
        }
        done = done.saturating_add(count);
    }
    Ok(true)
}

impl<'a, F: Files<File = File> + Alloc<A = Global> + Clone + Drop> RecordFolder<'a, F> {
    // The records of a domain whose first user is called so, the oldest first.
    fn records_of(&self, name: &str) -> Result<Vec<OlderRecord>, FileFailure> {
        let folder = self.path.as_str();
        records_in(self.files, self.alloc, folder, name).map_err(|error| FileFailure::of_file(
            self.alloc, folder, error,
        ))
    }

    // The newest record of a domain.
    fn find_record(
        &self,
        plan: &AcceptedPlan,
        number: u8,
        resumes: bool,
    ) -> Result<FoundRecord, FileFailure> {
        let Some(name) = first_name(plan, number) else {
            return Err(FileFailure::Histories);
        };
        let head = record_head(self.alloc, plan, number)?;
        let folder = self.path.as_str();
        let stem = format!(in self.alloc; "{folder}/{name}")?;
        let mut older = self.records_of(name)?;
        let newest = match older.pop() {
            Some(record) => record.number,
            None => 0,
        };
        let path = record_path(self.alloc, stem.as_str(), newest.max(1))?;
        if newest > 0 && !resumes {
            let why = "it is there already: --resume goes on with it";
            return Err(FileFailure::of_record(self.alloc, path.as_str(), why));
        }
        let file = if newest > 0 {
            Some(open_found(self.files, path.as_str(), head.as_bytes()))
        } else {
            None
        };
        Ok(FoundRecord {
            head,
            stem,
            number: newest,
            path,
            older,
            file,
        })
    }

    /// The newest record of each domain of a plan.
    ///
    /// # Errors
    ///
    /// `Record` if a record is there and the farm doesn't go on with it, `System`, `Histories` and `Memory`.
    pub(crate) fn find_records(
        &self,
        plan: &AcceptedPlan,
        resumes: bool,
    ) -> Result<Vec<FoundRecord>, FileFailure> {
        let mut records = Vec::with_capacity(self.alloc, usize::from(plan.domains()))?;
        for number in 0..plan.domains() {
            records.push(self.find_record(plan, number, resumes)?)?;
        }
        Ok(records)
    }
}
