//! Files that the words of the command line name.

use crate::failure::{LabFailure, NOT_READ};
use std::alloc::{Alloc, AllocError, Global};
use std::fs::{self, Files};
use std::io;

/// The bytes of a file. A failure names the file.
pub fn read_file<R: Files + Alloc<A = Global>>(rt: &R, path: &str) -> Result<Vec<u8>, LabFailure> {
    match readable_bytes(rt, path) {
        Ok(Some(bytes)) => Ok(bytes),
        Ok(None) => Err(LabFailure::of_text(
            format!(in rt.alloc(); "{path}: it can't be read\n"),
            NOT_READ,
        )),
        Err(_) => Err(LabFailure::Memory.in_file(rt.alloc(), path)),
    }
}

/// The bytes of a file, or `None` if it can't be read.
pub fn readable_bytes<R: Files + Alloc<A = Global>>(
    rt: &R,
    path: &str,
) -> Result<Option<Vec<u8>>, AllocError> {
    match fs::read(rt, path) {
        Ok(bytes) => Ok(Some(bytes)),
        Err(error) if error.kind() == io::ErrorKind::OutOfMemory => Err(AllocError),
        Err(_) => Ok(None),
    }
}
