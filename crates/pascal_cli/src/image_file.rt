//! Images and maps as files: each is written whole, or what was in its place stays as it was. Nothing is written but an
//! image of a text, and the map of one.
//!
//! A write has two steps: a new file is written beside its place, and then moved there. So two files can both be whole
//! before either is in its place.

mod beside;
mod places;

ghost use Rattle.std.specs.Prelude.{◌≡◌, Some};
ghost use Rattle.pascal_cli.specs.declared.image_file.WriteFault.TheVariants.{OutOfMemory};
ghost use Rattle.pascal_cli.specs.Files.{way_of};
ghost use Rattle.pascal_cli.specs.Jobs.{IsBuilt, IsContent};

use crate::image_file::beside::draft;
pub use crate::image_file::beside::rights_of;
use crate::image_file::places::{file_number, led_to, number_of, resolved};
pub(crate) use crate::image_file::places::{are_one_place, is_file};
use pascal_session::{Counted, put_all};
use std::alloc::AllocError;
use std::fs::{self, File, Metadata, OpenFile, OpenOptions};
use std::io::ErrorKind;
use std::path::PathBuf;
use std::random::RandomSource;
use std::rt::Files;

/// Why an image was not written.
#[derive(Clone, Copy)]
pub enum WriteFault {
    /// The file can't be written, or is the source.
    Device,
    /// There is an older file, and its folder allows no new one.
    Folder,
    /// A growth was refused.
    OutOfMemory,
}

impl From<AllocError> for WriteFault {
    ghost from_gives = { λ _ r. r ≡ OutOfMemory };

    fn from(_error: AllocError) -> WriteFault {
        WriteFault::OutOfMemory
    }
}

/// A file of the system, whatever its name.
#[derive(Clone, Copy, PartialEq, Eq)]
pub struct FileNumber {
    pub device: u64,
    pub node: u64,
}

/// What is done if an image is to be written and there is something at its path.
#[derive(Clone, Copy)]
pub enum Way {
    /// It is the source: nothing.
    Refused,
    /// It is a regular file: a new file replaces it.
    Exchanged,
    /// It is a device, a pipe or a socket: it is written as it is.
    Written,
}

/// What is done with that file, given the file of the source, if that is known.
pub fn way_of(source: Option<FileNumber>, there: FileNumber, is_regular: bool) -> Way
    ensures { result ≡ way_of source there is_regular }
{
    match source {
        Some(source) if source == there => Way::Refused,
        _ if is_regular => Way::Exchanged,
        _ => Way::Written,
    }
}

/// What is written to a path.
#[derive(Clone, Copy)]
pub(crate) enum Content {
    /// The image of a text.
    Image,
    /// Where in its text each word of an image belongs.
    Map,
}

/// A write that has begun.
#[derive(Drop)]
pub(crate) enum Begun {
    /// A new file is whole, and is to be moved to its place.
    Beside { new: PathBuf, place: PathBuf },
    /// Nothing is written yet: a device, a pipe or a socket is written as it is.
    AsItIs,
}

/// Writes an image to a path, whole or not at all, given the path of its source.
///
/// A regular file there stays as it was until everything is written, and is then replaced by a new one with the same
/// permissions; if it is reached through a link, the link stays. The source itself is never overwritten.
pub fn write_image<R: Files<File = File> + RandomSource + AllocGlobal>(
    rt: &R,
    source: &str,
    image: &str,
    bytes: &[u8],
) -> Result<(), WriteFault>
    requires { IsBuilt bytes.now }
{
    let begun = begin_write(rt, source, image, Content::Image, bytes)?;
    end_write(rt, begun, image, Content::Image, bytes)
}

/// Begins to write to a path: what is there stays as it is until the end.
pub(crate) fn begin_write<R: Files<File = File> + RandomSource + AllocGlobal>(
    rt: &R,
    source: &str,
    path: &str,
    content: Content,
    bytes: &[u8],
) -> Result<Begun, WriteFault>
    requires { IsContent content bytes.now }
{
    let there = match fs::metadata(rt, path) {
        Ok(there) => there,
        Err(error) => return begin_first(rt, path, content, bytes, error.kind()),
    };
    match way_of(file_number(rt, source), number_of(&there), there.is_file()) {
        Way::Refused => Err(WriteFault::Device),
        Way::Exchanged => begin_exchange(rt, path, &there, content, bytes),
        Way::Written if there.is_dir() => Err(WriteFault::Device),
        Way::Written => Ok(Begun::AsItIs),
    }
}

// Begins to write if nothing can be found out about the path, for this reason.
fn begin_first<R: Files<File = File> + RandomSource + AllocGlobal>(
    rt: &R,
    path: &str,
    content: Content,
    bytes: &[u8],
    kind: ErrorKind,
) -> Result<Begun, WriteFault>
    requires { IsContent content bytes.now }
{
    if kind != ErrorKind::NotFound {
        return Err(WriteFault::Device);
    }
    let place = led_to(rt, path)?;
    draft(rt, place, None, content, bytes)
}

// Whether an existing file may be written.
fn may_be_written<R: Files>(rt: &R, path: &str) -> bool {
    let mut options = OpenOptions::new();
    options.write(true);
    options.open(rt, path).is_ok()
}

// Begins to replace a regular file by a new one.
fn begin_exchange<R: Files<File = File> + RandomSource + AllocGlobal>(
    rt: &R,
    path: &str,
    there: &Metadata,
    content: Content,
    bytes: &[u8],
) -> Result<Begun, WriteFault>
    requires { IsContent content bytes.now }
{
    if !may_be_written(rt, path) {
        return Err(WriteFault::Device);
    }
    let place = resolved(rt, path)?;
    draft(rt, place, Some(there), content, bytes)
}

/// Ends to write what was begun at a path.
pub(crate) fn end_write<R: Files>(
    rt: &R,
    begun: Begun,
    path: &str,
    content: Content,
    bytes: &[u8],
) -> Result<(), WriteFault>
    requires { IsContent content bytes.now }
{
    match begun {
        Begun::Beside { new, place } => move_there(rt, &new, &place),
        Begun::AsItIs => write_as_it_is(rt, path, content, bytes),
    }
}

/// Gives up what was begun, and leaves nothing of it.
pub(crate) fn give_up<R: Files>(rt: &R, begun: Begun) {
    if let Begun::Beside { new, .. } = begun {
        let _ = fs::remove_file(rt, &new);
    }
}

// Moves a new file to its place.
fn move_there<R: Files>(rt: &R, new: &PathBuf, place: &PathBuf) -> Result<(), WriteFault> {
    if fs::rename(rt, new, place).is_ok() {
        return Ok(());
    }
    let _ = fs::remove_file(rt, new);
    Err(WriteFault::Device)
}

// Writes to a device, a pipe or a socket.
fn write_as_it_is<R: Files>(
    rt: &R,
    path: &str,
    content: Content,
    bytes: &[u8],
) -> Result<(), WriteFault>
    requires { IsContent content bytes.now }
{
    let _ = content;
    let mut options = OpenOptions::new();
    options.write(true);
    let Ok(file) = options.open(rt, path) else {
        return Err(WriteFault::Device);
    };
    if is_regular(&file) {
        return Err(WriteFault::Device);
    }
    match put_all(&mut Counted::new(file), bytes) {
        Ok(()) => Ok(()),
        Err(_) => Err(WriteFault::Device),
    }
}

// Whether an open file is a regular one, which has come there since its path was looked at, or may be one.
fn is_regular<F: OpenFile>(file: &F) -> bool {
    match file.metadata() {
        Ok(found) => found.is_file(),
        Err(_) => true,
    }
}
