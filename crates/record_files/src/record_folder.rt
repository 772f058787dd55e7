//! The folder of a farm's records.

use crate::failure::FileFailure;
use std::alloc::Global;
use std::fs::{self, File, Files, OpenOptions, TryLockError};
use std::io;
use std::path::Path;

/// A folder of records, which no other farm has as long as it is open.
pub struct RecordFolder<'a, F: Files<File = File>> {
    pub(crate) files: &'a F,
    pub(crate) alloc: Global,
    pub(crate) path: String,
    pub(crate) syncs: bool,
    // Held as long as this is.
    lock: File,
}

// Dropped by hand, since a derived `Drop` makes callers prove the drop of each field.
impl<F: Files<File = File>> Drop for RecordFolder<'_, F> {
    fn drop(self) {
        let RecordFolder {
            files: _,
            alloc: _,
            path: _,
            syncs: _,
            lock: _,
        } = self;
    }
}

impl<'a, F: Files<File = File>> RecordFolder<'a, F> {
    /// Opens the folder of this path, which is made if it isn't there, and locks it. If records are synced, the entry of the
    /// folder in the one above it is on the disk then, and those of all folders that were made.
    ///
    /// # Errors
    ///
    /// `Record` if another farm has the folder, `System` if a call of the system failed, and `Memory`.
    pub fn open(
        files: &'a F,
        alloc: Global,
        path: &str,
        syncs: bool,
    ) -> Result<RecordFolder<'a, F>, FileFailure> {
        if let Err(error) = make_folder(files, alloc, path, syncs) {
            return Err(FileFailure::of_file(alloc, path, error));
        }
        let lock = format!(in alloc; "{path}/lock")?;
        let file = open_lock(files, alloc, lock.as_str())?;
        Ok(RecordFolder {
            files,
            alloc,
            path: String::from_str(alloc, path)?,
            syncs,
            lock: file,
        })
    }
}

// Makes a folder if it isn't there, and those above it.
fn make_folder<F: Files<File = File>>(
    files: &F,
    alloc: Global,
    path: &str,
    syncs: bool,
) -> io::Result<()> {
    if !syncs {
        return fs::create_dir_all(files, path);
    }
    let missing = missing_folders(files, path)?;
    fs::create_dir_all(files, path)?;
    sync_entries(files, alloc, path, missing.max(1))
}

// How many folders on a path aren't there.
fn missing_folders<F: Files<File = File>>(files: &F, path: &str) -> io::Result<usize> {
    let mut folder = Path::new(path);
    for missing in 0..path.len() {
        if folder.as_str().is_empty() || folder.try_exists(files)? {
            return Ok(missing);
        }
        let Some(above) = folder.parent() else {
            return Ok(missing);
        };
        folder = above;
    }
    Ok(path.len())
}

// Brings to the disk the entries of the last `count` folders of a path, each in the folder above it.
fn sync_entries<F: Files<File = File>>(
    files: &F,
    alloc: Global,
    path: &str,
    count: usize,
) -> io::Result<()> {
    let mut above = String::from_str(alloc, path)?;
    for _ in 0..count {
        above.push_str("/..")?;
        fs::open(files, above.as_str())?.sync_all()?;
    }
    Ok(())
}

// Opens a file and locks it.
fn open_lock<F: Files<File = File>>(
    files: &F,
    alloc: Global,
    path: &str,
) -> Result<File, FileFailure> {
    let opened = OpenOptions::new()
        .append(true)
        .create(true)
        .open(files, path);
    let file = match opened {
        Ok(file) => file,
        Err(error) => return Err(FileFailure::of_file(alloc, path, error)),
    };
    match file.try_lock() {
        Ok(()) => Ok(file),
        Err(TryLockError::WouldBlock) => Err(FileFailure::of_record(
            alloc,
            path,
            "another farm records there",
        )),
        Err(TryLockError::Error(error)) => Err(FileFailure::of_file(alloc, path, error)),
    }
}
