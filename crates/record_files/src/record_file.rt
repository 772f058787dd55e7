//! Records in files.

use domain_core::NoMemory;
use record_keeping::{DomainRecord, RecordStore};
use std::alloc::Global;
use std::collections::VecDeque;
use std::fs::{self, File, Files, OpenOptions};
use std::io::{self, Write};
use std::sync::Mutex;

/// The records of all domains, in the order of the plan.
pub type FileRecords<'a, F> = Vec<Mutex<DomainRecord<RecordFile<'a, F>>>>;

/// Where a domain's records are, and whether what is written to them is on the disk when a write returns.
pub(crate) struct RecordPlace<'a, F: Files<File = File>> {
    pub(crate) files: &'a F,
    pub(crate) alloc: Global,
    pub(crate) folder: String,
    // The path without what tells a record from the domain's others.
    pub(crate) stem: String,
    pub(crate) syncs: bool,
}

// Dropped by hand, since a derived `Drop` makes callers prove the drop of each field.
impl<F: Files<File = File>> Drop for RecordPlace<'_, F> {
    fn drop(self) {
        let RecordPlace {
            files: _,
            alloc: _,
            folder: _,
            stem: _,
            syncs: _,
        } = self;
    }
}

/// The newest record of a domain.
pub struct RecordFile<'a, F: Files<File = File>> {
    place: RecordPlace<'a, F>,
    number: u64,
    // The file, unless the record can't be taken.
    file: Option<File>,
    // How many bytes of it are whole.
    whole: u64,
    // The file of the next record, from when it is made until its head is whole.
    begun: Option<File>,
    // The records before it that are there, the oldest first.
    older: VecDeque<OlderRecord>,
}

/// A record of a domain before the newest.
#[derive(Clone, Copy)]
pub(crate) struct OlderRecord {
    /// Its number, from 1.
    pub(crate) number: u64,
    /// How many bytes it has.
    pub(crate) bytes: u64,
}

// Dropped by hand, since a derived `Drop` makes callers prove the drop of each field.
impl<F: Files<File = File>> Drop for RecordFile<'_, F> {
    fn drop(self) {
        let RecordFile {
            place: _,
            number: _,
            file: _,
            whole: _,
            begun: _,
            older: _,
        } = self;
    }
}

/// The least that a file takes on a disk, in bytes.
const BLOCK_BYTES: u64 = 4096;

/// How many bytes a file of this length takes on a disk: whole blocks, and at least one.
pub(crate) fn disk_bytes(length: u64) -> u64 {
    length
        .max(1)
        .div_ceil(BLOCK_BYTES)
        .saturating_mul(BLOCK_BYTES)
}

/// The path of a domain's record of this number, from 1.
pub(crate) fn record_path(alloc: Global, stem: &str, number: u64) -> Result<String, NoMemory> {
    if number == 1 {
        format!(in alloc; "{stem}.replay")
    } else {
        format!(in alloc; "{stem}.{number}.replay")
    }
}

// Appends bytes to a file. If it syncs they are on the disk when the call returns.
fn append_to(mut file: &File, bytes: &[u8], syncs: bool) -> io::Result<()> {
    file.write_all(bytes)?;
    if syncs {
        file.sync_data()?;
    }
    Ok(())
}

impl<'a, F: Files<File = File>> RecordPlace<'a, F> {
    fn path(&self, number: u64) -> Result<String, NoMemory> {
        record_path(self.alloc, self.stem.as_str(), number)
    }

    // A new file for the record of this number.
    fn create(&self, number: u64) -> io::Result<File> {
        let path = self.path(number)?;
        OpenOptions::new()
            .append(true)
            .create_new(true)
            .open(self.files, path.as_str())
    }

    // Makes a new file a record with this head alone. If it syncs, the file's name is on the disk too when the call returns.
    fn begin(&self, file: &File, head: &str) -> io::Result<()> {
        file.set_len(0)?;
        append_to(file, head.as_bytes(), self.syncs)?;
        if self.syncs {
            fs::open(self.files, self.folder.as_str())?.sync_all()?;
        }
        Ok(())
    }
}

impl<'a, F: Files<File = File>> RecordFile<'a, F> {
    /// A record that is there, with those before it. `whole` says how many bytes of its file are whole.
    pub(crate) fn with_file(
        place: RecordPlace<'a, F>,
        number: u64,
        file: File,
        whole: u64,
        older: VecDeque<OlderRecord>,
    ) -> RecordFile<'a, F> {
        RecordFile {
            place,
            number,
            file: Some(file),
            whole,
            begun: None,
            older,
        }
    }

    /// A place at which the records up to this number are left as they are. The next one is begun after them.
    pub(crate) fn behind(
        place: RecordPlace<'a, F>,
        number: u64,
        older: VecDeque<OlderRecord>,
    ) -> RecordFile<'a, F> {
        RecordFile {
            place,
            number,
            file: None,
            whole: 0,
            begun: None,
            older,
        }
    }
}

impl<'a, F: Files<File = File>> RecordStore for RecordFile<'a, F> {
    fn append(&mut self, lines: &str) -> io::Result<()> {
        let Some(file) = &self.file else {
            return Err(io::Error::from(io::ErrorKind::NotFound));
        };
        append_to(file, lines.as_bytes(), self.place.syncs)?;
        self.whole = self.whole.saturating_add(lines.len() as u64);
        Ok(())
    }

    fn begin_next(&mut self, head: &str) -> io::Result<()> {
        let number = self.number.saturating_add(1);
        self.older.reserve(1)?;
        if self.begun.is_none() {
            self.begun = Some(self.place.create(number)?);
        }
        if let Some(file) = &self.begun {
            self.place.begin(file, head)?;
        }
        if self.file.is_some() {
            let before = OlderRecord {
                number: self.number,
                bytes: disk_bytes(self.whole),
            };
            self.older.push_back(before)?;
        }
        self.file = self.begun.take();
        self.number = number;
        self.whole = head.len() as u64;
        Ok(())
    }

    fn cut_back(&mut self) -> io::Result<()> {
        match &self.file {
            Some(file) => file.set_len(self.whole),
            None => Ok(()),
        }
    }

    fn bytes(&self) -> u64 {
        disk_bytes(self.whole)
    }

    fn older_bytes(&self) -> u64 {
        let mut bytes = 0u64;
        for record in &self.older {
            bytes = bytes.saturating_add(record.bytes);
        }
        bytes
    }

    fn remove_oldest(&mut self) -> io::Result<Option<String>> {
        let Some(oldest) = self.older.front() else {
            return Ok(None);
        };
        let path = self.place.path(oldest.number)?;
        match fs::remove_file(self.place.files, path.as_str()) {
            Ok(()) => {}
            Err(error) if error.kind() == io::ErrorKind::NotFound => {}
            Err(error) => return Err(error),
        }
        self.older.pop_front();
        Ok(Some(path))
    }

    fn path(&self, alloc: Global) -> Result<String, NoMemory> {
        record_path(alloc, self.place.stem.as_str(), self.number)
    }

    fn next_path(&self, alloc: Global) -> Result<String, NoMemory> {
        record_path(
            alloc,
            self.place.stem.as_str(),
            self.number.saturating_add(1),
        )
    }
}
