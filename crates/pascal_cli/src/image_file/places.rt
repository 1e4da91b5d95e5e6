//! Which file is at a path, and where the links there lead.

use crate::image_file::{FileNumber, WriteFault};
use std::fs::{self, Metadata};
use std::io::ErrorKind;
use std::os::unix::fs::MetadataExt;
use std::path::{Path, PathBuf};
use std::rt::Files;

// How many links are followed, one after the other, as the system does.
const LINKS: u32 = 40;

pub(super) fn number_of(metadata: &Metadata) -> FileNumber {
    FileNumber {
        device: metadata.dev(),
        node: metadata.ino(),
    }
}

/// The file at a path, if it can be identified.
pub(super) fn file_number<R: Files>(rt: &R, path: &str) -> Option<FileNumber> {
    match fs::metadata(rt, path) {
        Ok(metadata) => Some(number_of(&metadata)),
        Err(_) => None,
    }
}

// The folder of a path, if it can be identified.
fn folder_number<R: Files>(rt: &R, path: Path<'_>) -> Option<FileNumber> {
    match path.parent() {
        Some(folder) if !folder.as_str().is_empty() => file_number(rt, folder.as_str()),
        _ => file_number(rt, "."),
    }
}

// Whether two paths at which nothing is have the same name in the same folder.
fn are_one_name<R: Files>(rt: &R, one: Path<'_>, other: Path<'_>) -> bool {
    one.file_name() == other.file_name()
        && folder_number(rt, one).is_some()
        && folder_number(rt, one) == folder_number(rt, other)
}

/// Whether what is written to one of two paths replaces what is written to the other, however they are spelled.
pub(crate) fn are_one_place<R: Files>(rt: &R, one: &str, other: &str) -> bool {
    match (file_number(rt, one), file_number(rt, other)) {
        (Some(first), Some(second)) => first == second,
        (None, None) => one == other || are_one_name(rt, Path::new(one), Path::new(other)),
        _ => false,
    }
}

/// Whether what is at a path is the regular file that is at another path.
pub(crate) fn is_file<R: Files>(rt: &R, path: &str, other: &str) -> bool {
    match fs::metadata(rt, path) {
        Ok(there) => there.is_file() && file_number(rt, other) == Some(number_of(&there)),
        Err(_) => false,
    }
}

/// The path of the file that a path leads to.
pub(super) fn resolved<R: Files + AllocGlobal>(rt: &R, path: &str) -> Result<PathBuf, WriteFault> {
    match fs::canonicalize(rt, path) {
        Ok(target) => Ok(target),
        Err(error) => Err(fault_of(error.kind())),
    }
}

/// The path of the file that would be made at a path at which there is none: where the links there lead.
pub(super) fn led_to<R: Files + AllocGlobal>(rt: &R, path: &str) -> Result<PathBuf, WriteFault> {
    let mut place = Path::new(path).to_path_buf(rt.alloc())?;
    for _ in 0..LINKS {
        match fs::read_link(rt, &place) {
            Ok(target) => place.set_file_name(target.as_str())?,
            Err(error) => {
                return match error.kind() {
                    ErrorKind::OutOfMemory => Err(WriteFault::OutOfMemory),
                    _ => Ok(place),
                };
            }
        }
    }
    Err(WriteFault::Device)
}

fn fault_of(kind: ErrorKind) -> WriteFault {
    if kind == ErrorKind::OutOfMemory {
        WriteFault::OutOfMemory
    } else {
        WriteFault::Device
    }
}
