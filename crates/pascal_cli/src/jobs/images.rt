//! Images and their maps, written to files or to standard output.

ghost use Rattle.std.specs.Prelude.{◌≡◌, ◌≤◌, ◌⊎◌, ℕ, IfErr, List};
ghost use Rattle.pascal_command.specs.Command as work;
ghost use Rattle.pascal_command.specs.Command.{request_in, work_of};
ghost use Rattle.pascal_cli.specs.Jobs.{IsBuilt, IsContent, IsStatus};
ghost use Rattle.pascal_cli.specs.Jobs.{status_of_write};

use crate::image_file::{
    Begun, Content, WriteFault, are_one_place, begin_write, end_write, give_up, is_file,
    write_image,
};
use crate::jobs::{build_text, print_all};
use pascal_command::Job;
use pascal_session::{
    FAILED, STANDARD_OUTPUT, cannot, cannot_at, is_standard, out_of_memory, read_text, report_end,
    tell,
};
use ps_build::{Mapped, Variables, build_mapped};
use ps_map::written;
use ps_map_maker::map_of_text;
use std::alloc::{AllocError, Global};
use std::fs::File;
use std::random::RandomSource;
use std::rt::Files;

// The path at which the system has the file that is standard input.
const STANDARD_INPUT_FILE: &str = "/dev/stdin";

// The path at which it has the file that is standard output.
const STANDARD_OUTPUT_FILE: &str = "/dev/stdout";

pub(super) fn compile<R>(rt: &R, job: &Job<'_>, source: &str, image: &str, map: Option<&str>) -> u8
where
    R: Files<File = File> + RandomSource + Print + Eprint + Input + AllocGlobal,
    requires { work_of job.now.task ≡ work.compile source.now image.now }
    ensures { IsStatus (request_in job.now) result }
{
    let _ = job;
    if let Some(map) = map {
        return compile_mapped(rt, source, image, map);
    }
    match build_text(rt, source) {
        Ok(built) => put_image(rt, source, image, built.bytes()),
        Err(status) => status,
    }
}

// Builds the text at a path, and writes its image and its map.
fn compile_mapped<R>(rt: &R, source: &str, image: &str, map: &str) -> u8
where
    R: Files<File = File> + RandomSource + Print + Eprint + Input + AllocGlobal,
    ensures { (result ≡ FAILED) ⊎ ((result ≡ 0) × ((bytes : List ℕ) × IsBuilt bytes)) }
{
    if are_one_place(rt, written_file(map), written_file(image)) {
        let _ = eprintln!(rt; "cannot write an image and its map to one place");
        return FAILED;
    }
    let text = match read_text(rt, source) {
        Ok(text) => text,
        Err(status) => return status,
    };
    match build_mapped(rt.alloc(), &text, Variables::InTemporaries) {
        Ok(mapped) => put_mapped(rt, source, image, map, &text, &mapped),
        Err(refusal) => report_end(rt, &Err(refusal)),
    }
}

// The path of the file that is written, which may be standard output.
fn written_file(path: &str) -> &str {
    if is_standard(path) {
        STANDARD_OUTPUT_FILE
    } else {
        path
    }
}

// The path of the file that a text comes from, which may be standard input.
fn file_of(source: &str) -> &str {
    if is_standard(source) {
        STANDARD_INPUT_FILE
    } else {
        source
    }
}

/// Whether standard output is the file of the text at a path: what is written there would become part of the text.
pub(super) fn is_on_source<R: Files>(rt: &R, source: &str) -> bool {
    is_file(rt, STANDARD_OUTPUT_FILE, file_of(source))
}

// Writes the image of a text to a path, and its map to another.
fn put_mapped<R>(rt: &R, source: &str, image: &str, map: &str, text: &[u8], mapped: &Mapped) -> u8
where
    R: Files<File = File> + RandomSource + Print + Eprint + AllocGlobal,
    requires { IsBuilt mapped.now.built }
    ensures { (result ≡ FAILED) ⊎ ((result ≡ 0) × ((bytes : List ℕ) × IsBuilt bytes)) }
{
    match map_told(rt.alloc(), text, mapped) {
        Ok(told) => put_both(
            rt,
            source,
            image,
            map,
            mapped.built.bytes(),
            told.as_bytes(),
        ),
        Err(_) => out_of_memory(rt),
    }
}

// The map of the image of a text, as it is written.
fn map_told(alloc: Global, text: &[u8], mapped: &Mapped) -> Result<String, AllocError> {
    let map = map_of_text(alloc, text, mapped)?;
    written(alloc, &map)
}

// Writes an image and its map: neither is in its place before both can be. The image comes first, so no map stands
// beside an image that is older.
fn put_both<R>(rt: &R, source: &str, image: &str, map: &str, bytes: &[u8], told: &[u8]) -> u8
where
    R: Files<File = File> + RandomSource + Print + Eprint + AllocGlobal,
    requires { IsBuilt bytes.now }
    ensures { result ≤ FAILED }
{
    let new_image = match begin_at(rt, source, image, Content::Image, bytes) {
        Ok(new) => new,
        Err(status) => return status,
    };
    let new_map = match begin_at(rt, source, map, Content::Map, told) {
        Ok(new) => new,
        Err(status) => {
            give_up(rt, new_image);
            return status;
        }
    };
    let status = end_at(rt, new_image, image, Content::Image, bytes);
    if status != 0 {
        give_up(rt, new_map);
        return status;
    }
    end_at(rt, new_map, map, Content::Map, told)
}

// Begins to write to a path, which may denote standard output. If that can't be, it is reported, and the status is
// returned.
fn begin_at<R>(
    rt: &R,
    source: &str,
    path: &str,
    content: Content,
    bytes: &[u8],
) -> Result<Begun, u8>
where
    R: Files<File = File> + RandomSource + Eprint + AllocGlobal,
    requires { IsContent content bytes.now }
    ensures { IfErr result (λ status. status ≡ FAILED) }
{
    if is_standard(path) {
        return begin_on_output(rt, source);
    }
    match begin_write(rt, file_of(source), path, content, bytes) {
        Ok(begun) => Ok(begun),
        Err(fault) => Err(tell_write(rt, Err(fault), path)),
    }
}

fn begin_on_output<R: Files + Eprint>(rt: &R, source: &str) -> Result<Begun, u8>
    ensures { IfErr result (λ status. status ≡ FAILED) }
{
    if is_on_source(rt, source) {
        Err(cannot(rt, "write", STANDARD_OUTPUT))
    } else {
        Ok(Begun::AsItIs)
    }
}

// Ends to write to a path, which may denote standard output, and returns the status.
fn end_at<R: Files + Print + Eprint + AllocGlobal>(
    rt: &R,
    begun: Begun,
    path: &str,
    content: Content,
    bytes: &[u8],
) -> u8
    requires { IsContent content bytes.now }
    ensures { result ≤ FAILED }
{
    if is_standard(path) {
        return print_all(rt, bytes);
    }
    let written = end_write(rt, begun, path, content, bytes);
    tell_write(rt, written, path)
}

// Writes the image of a text to a path, which may denote standard output.
fn put_image<R>(rt: &R, source: &str, image: &str, bytes: &[u8]) -> u8
where
    R: Files<File = File> + RandomSource + Print + Eprint + AllocGlobal,
    requires { IsBuilt bytes.now }
    ensures { result ≤ FAILED }
{
    if is_standard(image) {
        print_image(rt, source, bytes)
    } else {
        let written = write_image(rt, file_of(source), image, bytes);
        tell_write(rt, written, image)
    }
}

// Writes the image of a text to standard output.
fn print_image<R: Files + Print + Eprint>(rt: &R, source: &str, bytes: &[u8]) -> u8
    requires { IsBuilt bytes.now }
    ensures { result ≤ FAILED }
{
    if is_on_source(rt, source) {
        return cannot(rt, "write", STANDARD_OUTPUT);
    }
    print_all(rt, bytes)
}

// Reports why a path was not written, if it was not, and returns the status.
fn tell_write<R: Eprint + AllocGlobal>(rt: &R, written: Result<(), WriteFault>, path: &str) -> u8
    ensures { result ≡ status_of_write written }
{
    match written {
        Ok(()) => 0,
        Err(WriteFault::OutOfMemory) => out_of_memory(rt),
        Err(WriteFault::Device) => cannot_at(rt, "write", path),
        Err(WriteFault::Folder) => tell_folder(rt, path),
    }
}

// Reports that a file can't be replaced, and returns the status.
fn tell_folder<R: Eprint + AllocGlobal>(rt: &R, path: &str) -> u8
    ensures { result ≡ FAILED }
{
    tell(
        rt,
        format!(in rt.alloc();
            "cannot write {path}: its folder allows no new file, and no file is written in place"
        ),
    )
}
