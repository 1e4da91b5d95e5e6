//! Certificates: what they say of a text and its image, and what they are compared with.

mod verifying;

ghost use Rattle.std.specs.Prelude.{◌≡◌, ◌⊎◌, IfOk, IfSome, List, map, option_map, string_bytes, true, ℕ};
ghost use Rattle.pascal_certificate.specs.Form.{CertifiesWith};
ghost use Rattle.ps_build.specs.Accepts.{IsRefused};
ghost use Rattle.ps_build.specs.Headline.{Compiles};
ghost use Rattle.pascal_command.specs.Command as work;
ghost use Rattle.pascal_command.specs.Command.{request_in, work_of};
ghost use Rattle.pascal_cli.specs.Certificates.{HasCertificate};
ghost use Rattle.pascal_cli.specs.Certificates.{IsBeside, IsNotBuilt, KnowsStack};
ghost use Rattle.pascal_cli.specs.Certificates.{NoCertificate, SomeCertificate};
ghost use Rattle.pascal_cli.specs.Certificates.{TellsOfStack, TellsStack, least_text, stack_told};
ghost use Rattle.pascal_cli.specs.Failures.{Answers, Keeps, Notes, Tells, has_failed};
ghost use Rattle.pascal_cli.specs.Jobs.{IsStatus};

use crate::believed::BELIEVED;
use crate::failures::Failures;
use crate::jobs::IMAGE_LIMIT;
use crate::version::{KIT, SOURCES, TARGET, VERSION};
use pascal_certificate::{Fact, NOT_KNOWN, Seal, certificate_of, fits, seal_of};
use pascal_command::Job;
use pascal_session::{Counted, TEXT_LIMIT, read_up_to, tell};
use ps_build::{Built, Refusal, build};
use ps_needs_image::{Needed, needs_of};
use ps_needs_least::Need;
use std::alloc::{AllocError, Global};
use std::rt::{Env, Files};
use std::{env, fs, str};
pub(crate) use verifying::verify;

// Where the system has the file of the running program.
const PROGRAM_FILE: &str = "/proc/self/exe";

// One byte more than the longest program file that is hashed.
const PROGRAM_LIMIT: usize = 268_435_457;

// More bytes than a certificate can have.
const CERTIFICATE_LIMIT: usize = 65_536;

// ---- what the program says of itself

// What the program knows of itself, and of the image that it builds.
#[derive(Drop)]
struct Known {
    // The number of bytes of stack that are enough, if there is one.
    stack: Option<String>,
    // The sum of its sources.
    sources: Option<String>,
    // The sum and the size of its file.
    file: Option<Seal>,
}

// The sum of the program's sources, if the launcher gave one.
fn sources_sum<R: Env + AllocGlobal>(rt: &R) -> Option<String> {
    let Ok(sum) = env::var(rt, SOURCES) else {
        return None;
    };
    if fits(Fact::Sources, sum.as_bytes()) {
        Some(sum)
    } else {
        None
    }
}

// The bytes of the program's file, if all of it can be read.
fn program_bytes<R: Files + AllocGlobal>(rt: &R) -> Option<Vec<u8>> {
    let Ok(file) = fs::open(rt, PROGRAM_FILE) else {
        return None;
    };
    let Ok(bytes) = read_up_to(rt.alloc(), &mut Counted::new(file), PROGRAM_LIMIT) else {
        return None;
    };
    if bytes.len() < PROGRAM_LIMIT {
        Some(bytes)
    } else {
        None
    }
}

// The sum and the size of the program's file, if it can be read.
fn program_seal<R: Files + AllocGlobal>(rt: &R) -> Result<Option<Seal>, AllocError> {
    match program_bytes(rt) {
        Some(bytes) => Ok(Some(seal_of(rt.alloc(), &bytes)?)),
        None => Ok(None),
    }
}

// The least stack that a program needs, if there is one.
fn least_of(alloc: Global, needed: &Needed) -> Result<Option<String>, AllocError>
    ensures { IfOk result (λ told. option_map (λ text. string_bytes text) told ≡ least_text needed.now.need) }
{
    match &needed.need {
        Need::Least { bytes, .. } => {
            let bytes = *bytes;
            let text = format!(in alloc; "{bytes}")?;
            Ok(Some(text))
        }
        Need::Endless { .. } => Ok(None),
    }
}

// That no stack is enough, for a source that is refused because of its text.
fn no_stack(source: &[u8], refusal: Refusal) -> Result<Option<String>, AllocError>
    requires { IsRefused source.now refusal }
    ensures { IfOk result (λ told. KnowsStack source.now (option_map (λ text. string_bytes text) told)) }
{
    let _ = source;
    match refusal {
        Refusal::OutOfMemory => Err(AllocError),
        _ => Ok(None),
    }
}

// The number of bytes of stack that are enough for the image of a source, if it has one and there is such a number.
fn stack_of(alloc: Global, source: &[u8]) -> Result<Option<String>, AllocError>
    ensures { IfOk result (λ told. KnowsStack source.now (option_map (λ text. string_bytes text) told)) }
{
    match needs_of(alloc, source) {
        Ok(needed) => least_of(alloc, &needed),
        Err(refusal) => no_stack(source, refusal),
    }
}

// What is known of the program, and of the image of a source.
fn known_of<R: Files + Env + AllocGlobal>(rt: &R, source: &[u8]) -> Result<Known, AllocError>
    ensures { IfOk result (λ known. KnowsStack source.now (option_map (λ text. string_bytes text) known.stack)) }
{
    let stack = stack_of(rt.alloc(), source)?;
    let file = program_seal(rt)?;
    let sources = sources_sum(rt);
    Ok(Known {
        stack,
        sources,
        file,
    })
}

// A text that is known, or what is written for one that is not.
fn known_text<'a>(text: &'a Option<String>) -> &'a [u8]
    ensures { result.now ≡ stack_told (option_map (λ text. string_bytes text) text.entry.now) }
{
    match text {
        Some(text) => text.as_bytes(),
        None => NOT_KNOWN,
    }
}

// The sum of a file that is known.
fn known_sum<'a>(seal: &'a Option<Seal>) -> &'a [u8] {
    match seal {
        Some(seal) => seal.sum.as_bytes(),
        None => NOT_KNOWN,
    }
}

// The size of a file that is known.
fn known_size<'a>(seal: &'a Option<Seal>) -> &'a [u8] {
    match seal {
        Some(seal) => seal.size.as_bytes(),
        None => NOT_KNOWN,
    }
}

// What the program says of itself: the values of the facts after those of the source and the image.
fn maker<'a>(known: &'a Known) -> [&'a [u8]; 8]
    ensures { TellsOfStack (map (λ value. value.now) result)
        (stack_told (option_map (λ text. string_bytes text) known.entry.now.stack)) }
{
    [
        TARGET.as_bytes(),
        known_text(&known.stack),
        VERSION.as_bytes(),
        KIT.as_bytes(),
        known_text(&known.sources),
        known_sum(&known.file),
        known_size(&known.file),
        BELIEVED.as_bytes(),
    ]
}

// ---- what is read and built

// A source and an image as they were read.
#[derive(Drop)]
struct Pair {
    source: Vec<u8>,
    image: Vec<u8>,
}

fn read_pair<R: Files + Eprint + Input + AllocGlobal>(
    rt: &R,
    failures: &mut Failures,
    source: &str,
    image: &str,
) -> Option<Pair>
    ensures { Notes result (has_failed failures.old) (has_failed failures.new) }
{
    let source = failures.read(rt, source, TEXT_LIMIT)?;
    let image = failures.read(rt, image, IMAGE_LIMIT)?;
    Some(Pair { source, image })
}

// How a source compares with an image.
#[derive(Clone, Copy)]
enum Beside {
    // It is built as this image.
    Same,
    // It is built as another one.
    Other,
    // It is refused.
    Refused,
}

// Whether the program built from a source is this image.
fn whether_same(built: &Built, source: &[u8], image: &[u8]) -> Beside
    requires { Compiles source.now built.now }
    ensures { IsBeside source.now image.now result }
{
    let _ = source;
    if built.bytes() == image {
        Beside::Same
    } else {
        Beside::Other
    }
}

// Builds a source, and compares the result with an image. If the source is refused, that is reported.
fn built_beside<R: Eprint + AllocGlobal>(
    rt: &R,
    failures: &mut Failures,
    source: &[u8],
    image: &[u8],
) -> Option<Beside>
    ensures beside { IfSome result (IsBeside source.now image.now) }
    ensures noted { Notes result (has_failed failures.old) (has_failed failures.new) }
{
    match build(rt.alloc(), source) {
        Ok(built) => Some(whether_same(&built, source, image)),
        Err(refusal) => {
            if failures.report_refusal(rt, refusal) {
                Some(Beside::Refused)
            } else {
                None
            }
        }
    }
}

// ---- certify

// The certificate of a source and an image.
fn certificate<R: Files + Env + AllocGlobal>(
    rt: &R,
    source: &[u8],
    image: &[u8],
) -> Result<Vec<u8>, AllocError>
    ensures { IfOk result (λ text. (stack : List ℕ) × CertifiesWith source.now image.now stack text.items
        × TellsStack source.now stack) }
{
    let known = known_of(rt, source)?;
    let source = seal_of(rt.alloc(), source)?;
    let image = seal_of(rt.alloc(), image)?;
    let told = maker(&known);
    certificate_of(rt.alloc(), &source, &image, &told)
}

// Writes a certificate to standard output.
fn print_certificate<R: Print + Eprint>(
    rt: &R,
    failures: &mut Failures,
    source: &[u8],
    image: &[u8],
    text: &[u8],
)
    requires { (stack : List ℕ) × CertifiesWith source.now image.now stack text.now × TellsStack source.now stack }
    ensures { Keeps (has_failed failures.old) (has_failed failures.new) }
{
    let _ = source;
    let _ = image;
    failures.print(rt, text);
}

// Writes the certificate of a source and the image that was built from it.
fn put_certificate<R: Files + Print + Eprint + Env + AllocGlobal>(
    rt: &R,
    failures: &mut Failures,
    source: &[u8],
    image: &[u8],
)
    requires { Compiles source.now image.now }
    ensures { (has_failed failures.new ≡ true) ⊎ HasCertificate source.now image.now }
{
    if let Some(text) = failures.made(rt, certificate(rt, source, image)) {
        print_certificate(rt, failures, source, image, &text);
    }
}

// The paths of a source and an image.
#[derive(Clone, Copy)]
struct Paths<'a> {
    source: &'a str,
    image: &'a str,
}

// Reports that an image is not the one that is built from a source.
fn tell_other<R: Eprint + AllocGlobal>(rt: &R, paths: Paths<'_>) {
    let Paths { source, image } = paths;
    let _ = tell(
        rt,
        format!(in rt.alloc();
            "cannot certify {image}: it is not what this program builds of {source}"
        ),
    );
}

// Writes the certificate of a source and an image that were read, if the image is the one built from the source, and
// returns whether it is.
fn certify_pair<R: Files + Print + Eprint + Env + AllocGlobal>(
    rt: &R,
    failures: &mut Failures,
    paths: Paths<'_>,
    pair: &Pair,
) -> bool
    ensures { Tells result (has_failed failures.new) (HasCertificate pair.now.source.items pair.now.image.items)
        (IsNotBuilt pair.now.source.items pair.now.image.items) }
{
    match built_beside(rt, failures, &pair.source, &pair.image) {
        Some(Beside::Same) => {
            put_certificate(rt, failures, &pair.source, &pair.image);
            true
        }
        Some(Beside::Other) => {
            tell_other(rt, paths);
            false
        }
        Some(Beside::Refused) => false,
        None => false,
    }
}

// Reads a source and an image, writes their certificate, if there is one, and returns whether there is.
fn certify_files<R: Files + Print + Eprint + Input + Env + AllocGlobal>(
    rt: &R,
    failures: &mut Failures,
    paths: Paths<'_>,
) -> bool
    ensures { Tells result (has_failed failures.new) SomeCertificate NoCertificate }
{
    if !failures.are_apart(rt, &[paths.source, paths.image]) {
        return false;
    }
    match read_pair(rt, failures, paths.source, paths.image) {
        Some(pair) => certify_pair(rt, failures, paths, &pair),
        None => false,
    }
}

/// Writes the certificate of the text at one path and the image at another.
pub(crate) fn certify<R: Files + Print + Eprint + Input + Env + AllocGlobal>(
    rt: &R,
    failures: &mut Failures,
    job: &Job<'_>,
    source: &str,
    image: &str,
) -> u8
    requires { work_of job.now.task ≡ work.certify source.now image.now }
    ensures answer { Answers result (has_failed failures.new) SomeCertificate NoCertificate }
    ensures status { IsStatus (request_in job.now) result }
{
    let _ = job;
    let is_certified = certify_files(rt, failures, Paths { source, image });
    failures.status(is_certified)
}

// ---- verify
