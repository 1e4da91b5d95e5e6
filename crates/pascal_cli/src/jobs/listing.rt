//! Listings of the code of a text or an image, printed or written to a file.

ghost use Rattle.std.specs.Prelude.{◌≡◌, ◌≤◌, ◌⊎◌, ℕ, IfOk, List};
ghost use Rattle.std.specs.Io.KnownBytes.{Appends};
ghost use Rattle.std.specs.String.{string_bytes};
ghost use Rattle.ps_build.specs.Listed.{IsListed};
ghost use Rattle.ps_map.specs.Shown.{Shows};
ghost use Rattle.pascal_command.specs.Command as work;
ghost use Rattle.pascal_command.specs.Command.{request_in, work_of};
ghost use Rattle.pascal_cli.specs.Jobs.{IsBuilt, IsStatus, IsWritten};
ghost use Rattle.pascal_session.specs.Transfers.{device_of, faults_of};

use crate::jobs::build_text;
use crate::jobs::images::is_on_source;
use pascal_command::Job;
use pascal_session::{
    Counted, FAILED, STANDARD_OUTPUT, cannot, out_of_memory, put_all, read_text, report_end,
};
use ps_build::{Built, Mapped, Variables, build_mapped, list};
use ps_map::listing_with_source;
use ps_map_maker::map_of_text;
use risc_image::ImageView;
use std::alloc::{AllocError, Global};
use std::io::{self, Write};
use std::rt::Files;

pub(super) fn list_text<R: Files + Print + Eprint + Input + AllocGlobal>(
    rt: &R,
    job: &Job<'_>,
    source: &str,
    with_source: bool,
) -> u8
    requires { work_of job.now.task ≡ work.list source.now }
    ensures { IsStatus (request_in job.now) result }
{
    let _ = job;
    if with_source {
        return list_with_source(rt, source);
    }
    match build_text(rt, source) {
        Ok(built) => put_listing(rt, source, &built),
        Err(status) => status,
    }
}

// Builds the text at a path, and writes the listing of its image with the text.
fn list_with_source<R: Files + Print + Eprint + Input + AllocGlobal>(rt: &R, source: &str) -> u8
    ensures { (result ≡ FAILED)
        ⊎ ((result ≡ 0) × ((bytes : List ℕ) × (text : List ℕ) × IsBuilt bytes × IsListed bytes text)) }
{
    let text = match read_text(rt, source) {
        Ok(text) => text,
        Err(status) => return status,
    };
    match build_mapped(rt.alloc(), &text, Variables::InTemporaries) {
        Ok(mapped) => put_source_listing(rt, source, &text, &mapped),
        Err(refusal) => report_end(rt, &Err(refusal)),
    }
}

// Writes the listing of an image with its text to standard output, if that is not the text itself.
fn put_source_listing<R: Files + Print + Eprint + AllocGlobal>(
    rt: &R,
    source: &str,
    text: &[u8],
    mapped: &Mapped,
) -> u8
    requires { IsBuilt mapped.now.built }
    ensures { (result ≡ FAILED)
        ⊎ ((result ≡ 0) × ((bytes : List ℕ) × (text : List ℕ) × IsBuilt bytes × IsListed bytes text)) }
{
    if is_on_source(rt, source) {
        return cannot(rt, "write", STANDARD_OUTPUT);
    }
    match list(rt.alloc(), &mapped.built) {
        Ok(listing) => print_source_listing(rt, text, mapped, listing.as_str()),
        Err(_) => out_of_memory(rt),
    }
}

// Writes the listing of an image, which has been made, with its text to standard output.
fn print_source_listing<R: Print + Eprint + AllocGlobal>(
    rt: &R,
    text: &[u8],
    mapped: &Mapped,
    listing: &str,
) -> u8
    requires built { IsBuilt mapped.now.built }
    requires listed { IsListed mapped.now.built listing.now }
    ensures { (result ≡ FAILED)
        ⊎ ((result ≡ 0) × ((bytes : List ℕ) × (text : List ℕ) × IsBuilt bytes × IsListed bytes text)) }
{
    match with_source(rt.alloc(), text, mapped, listing) {
        Ok(told) => print_shown(rt, listing, told.as_str()),
        Err(_) => out_of_memory(rt),
    }
}

// Writes what is shown of a listing to standard output.
fn print_shown<R: Print + Eprint>(rt: &R, listing: &str, told: &str) -> u8
    requires { Shows listing.now told.now }
    ensures { result ≤ FAILED }
{
    let _ = listing;
    print_all(rt, told.as_bytes())
}

// A listing with the lines of its text.
fn with_source(
    alloc: Global,
    text: &[u8],
    mapped: &Mapped,
    listing: &str,
) -> Result<String, AllocError>
    ensures { IfOk result (λ shown. Shows listing.now (string_bytes shown)) }
{
    let map = map_of_text(alloc, text, mapped)?;
    let Ok(view) = ImageView::read(mapped.built.bytes()) else {
        return Err(AllocError);
    };
    listing_with_source(alloc, text, &map, &view, listing)
}

// Writes the listing of an image to standard output, if that is not the text itself.
fn put_listing<R: Files + Print + Eprint + AllocGlobal>(rt: &R, source: &str, built: &Built) -> u8
    requires { IsBuilt built.now }
    ensures { (result ≡ FAILED)
        ⊎ ((result ≡ 0) × ((bytes : List ℕ) × (text : List ℕ) × IsBuilt bytes × IsListed bytes text)) }
{
    if is_on_source(rt, source) {
        return cannot(rt, "write", STANDARD_OUTPUT);
    }
    match list(rt.alloc(), built) {
        Ok(listing) => print_listing(rt, built, listing.as_str()),
        Err(_) => out_of_memory(rt),
    }
}

// Writes the listing of an image, which has been made, to standard output.
fn print_listing<R: Print + Eprint>(rt: &R, built: &Built, listing: &str) -> u8
    requires built { IsBuilt built.now }
    requires listed { IsListed built.now listing.now }
    ensures { (result ≡ FAILED)
        ⊎ ((result ≡ 0) × ((bytes : List ℕ) × (text : List ℕ) × IsBuilt bytes × IsListed bytes text)) }
{
    let _ = built;
    print_all(rt, listing.as_bytes())
}

// Writes to standard output, and returns the status.
pub(crate) fn print_all<R: Print + Eprint>(rt: &R, bytes: &[u8]) -> u8
    ensures { result ≤ FAILED }
{
    put_told(
        rt,
        &mut Counted::new(io::writer(rt)),
        bytes,
        STANDARD_OUTPUT,
    )
}

// Writes to a writer that has this name in messages, and returns the status.
fn put_told<W: Write, R: Eprint>(rt: &R, writer: &mut Counted<W>, bytes: &[u8], name: &str) -> u8
    ensures { IsWritten result (Appends (W.contents (device_of writer.old))
        (W.contents (device_of writer.new)) bytes.now) (faults_of writer.old) (faults_of writer.new) }
{
    match put_all(writer, bytes) {
        Ok(()) => 0,
        Err(_) => cannot(rt, "write", name),
    }
}
