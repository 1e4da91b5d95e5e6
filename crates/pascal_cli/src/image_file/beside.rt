//! New files beside the places that they are for.
//!
//! Others may write to the folder, too, and put links there at any time. So nobody can guess the name of a new file, it
//! is made only where nothing is, and its owner and its permissions are set by its descriptor, never by its path.

ghost use Rattle.std.specs.Prelude.{◌≡◌};
ghost use Rattle.pascal_cli.specs.Files.{rights_of};
ghost use Rattle.pascal_cli.specs.Jobs.{IsContent};

use crate::image_file::{Begun, Content, WriteFault};
use pascal_session::{Counted, put_at_once};
use std::alloc::AllocError;
use std::fs::{self, File, Metadata, OpenOptions, Permissions};
use std::io::{ErrorKind, Read};
use std::os::unix::fs::{MetadataExt, OpenOptionsExt, PermissionsExt, fchown};
use std::path::{Path, PathBuf};
use std::random::RandomSource;
use std::rt::Files;

// The permissions of a new file until it has those of the older one: nobody else can read it.
const PRIVATE: u32 = 0o600;

// Where the system tells the limits of this process, and the line of the one that counts here.
const LIMITS: &str = "/proc/self/limits";

const LIMIT_OF_FILES: &str = "Max file size";

/// The permissions of a new file that replaces an older one with these: the same, but nobody runs it as somebody else.
/// If it can't have the older one's group, its group may do what all others may.
pub fn rights_of(older: u32, has_group: bool) -> u32
    ensures { result ≡ rights_of older has_group }
{
    if has_group {
        older & 0o777
    } else {
        (older & 0o707) | ((older & 0o007) << 3)
    }
}

/// Writes a new file that is to replace an older one, if there is one at that place.
pub(super) fn draft<R: Files<File = File> + RandomSource + AllocGlobal>(
    rt: &R,
    place: PathBuf,
    older: Option<&Metadata>,
    content: Content,
    bytes: &[u8],
) -> Result<Begun, WriteFault>
    requires { IsContent content bytes.now }
{
    let _ = content;
    if !has_room(rt, bytes.len()) {
        return Err(WriteFault::Device);
    }
    let new = path_beside(rt, place.as_path())?;
    let file = created(rt, &new, older.is_some())?;
    if let Some(older) = older {
        keep_rights(&file, older);
    }
    if put_at_once(&mut Counted::new(file), bytes).is_ok() {
        return Ok(Begun::Beside { new, place });
    }
    let _ = fs::remove_file(rt, &new);
    Err(WriteFault::Device)
}

// A path beside a place, with a name that can't be guessed.
fn path_beside<R: RandomSource + AllocGlobal>(
    rt: &R,
    place: Path<'_>,
) -> Result<PathBuf, WriteFault> {
    let mut number = [0u8; 16];
    if rt.fill_bytes(&mut number).is_err() {
        return Err(WriteFault::Device);
    }
    match numbered(rt, place, u128::from_le_bytes(number)) {
        Ok(path) => Ok(path),
        Err(_) => Err(WriteFault::OutOfMemory),
    }
}

fn numbered<R: AllocGlobal>(rt: &R, place: Path<'_>, number: u128) -> Result<PathBuf, AllocError> {
    let name = format!(in rt.alloc(); ".pascal-{number:032x}.tmp")?;
    let mut path = place.to_path_buf(rt.alloc())?;
    path.set_file_name(name.as_str())?;
    Ok(path)
}

// Makes a file where nothing is, which only its owner can use yet if it is to replace an older one.
fn created<R: Files<File = File>>(
    rt: &R,
    path: &PathBuf,
    replaces: bool,
) -> Result<File, WriteFault> {
    let mut options = OpenOptions::new();
    options.write(true);
    options.create_new(true);
    if replaces {
        options.mode(PRIVATE);
    }
    match options.open(rt, path) {
        Ok(file) => Ok(file),
        Err(error) if replaces && error.kind() == ErrorKind::PermissionDenied => {
            Err(WriteFault::Folder)
        }
        Err(_) => Err(WriteFault::Device),
    }
}

// Gives a new file the group, the owner and the permissions of an older one, as far as that is allowed. The permissions
// come last: they are then those of the right people.
fn keep_rights(file: &File, older: &Metadata) {
    let has_group = fchown(file, None, Some(older.gid())).is_ok();
    let _ = fchown(file, Some(older.uid()), None);
    let rights = Permissions::from_mode(rights_of(older.mode(), has_group));
    let _ = file.set_permissions(rights);
}

// ---- the limit on the bytes of a file, which ends a process that writes more at once

// Whether a file may have so many bytes.
fn has_room<R: Files>(rt: &R, length: usize) -> bool {
    match most_bytes(rt) {
        Some(most) => length as u64 <= most,
        None => true,
    }
}

// The most bytes that a file may have, if there is a limit.
fn most_bytes<R: Files>(rt: &R) -> Option<u64> {
    let Ok(mut file) = fs::open(rt, LIMITS) else {
        return None;
    };
    // (the limit that counts is in the third line, of at most a hundred bytes each)
    let mut told = [0u8; 512];
    match file.read(&mut told) {
        Ok(length) => limit_in(&told[..length]),
        Err(_) => None,
    }
}

fn limit_in(told: &[u8]) -> Option<u64> {
    let Ok(text) = str::from_utf8(told) else {
        return None;
    };
    for line in text.lines() {
        if let Some(columns) = line.strip_prefix(LIMIT_OF_FILES) {
            return first_number(columns);
        }
    }
    None
}

// The number that is the first word of a text, which may be none.
fn first_number(text: &str) -> Option<u64> {
    match text.split_whitespace().next() {
        Some(word) => word.parse::<u64>().ok(),
        None => None,
    }
}
