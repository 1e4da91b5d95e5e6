//! Whether a certificate says what this program makes of the text now.

ghost use Rattle.std.specs.Prelude.{◌≡◌, ◌<◌, ◌^◌, IfOk, IfSome, List, map, true, vec_len, ℕ};
ghost use Rattle.pascal_command.specs.Command as work;
ghost use Rattle.pascal_command.specs.Command.{request_in, work_of};
ghost use Rattle.pascal_cli.specs.Certificates.{AreCertified, AreOthers, CertifiesSome, HoldsNot};
ghost use Rattle.pascal_cli.specs.Certificates.{IsBuiltOf, IsComparison, IsFound};
ghost use Rattle.pascal_cli.specs.Certificates.{NoneHolding, SomeCertified, SomeHolding, SomeOthers};
ghost use Rattle.pascal_cli.specs.Certificates.{TellsOfStack, TellsStack, is_same};
ghost use Rattle.pascal_cli.specs.Failures.{Answers, Keeps, Notes, Tells, has_failed};
ghost use Rattle.pascal_cli.specs.Jobs.{IsStatus};

use crate::certificates::{
    Beside, CERTIFICATE_LIMIT, Pair, built_beside, certificate, known_of, maker,
};
use crate::failures::Failures;
use crate::jobs::IMAGE_LIMIT;
use pascal_certificate::{
    Comparison, Damage, Evidence, Names, compared, damage_of, parse, seal_of,
};
use pascal_command::Job;
use pascal_session::{TEXT_LIMIT, tell};
use ps_diagnostic::printable;
use std::alloc::{AllocError, Global};
use std::rt::{Env, Files};
use std::str;

// What is wrong with a certificate that is damaged.
fn damage_told(alloc: Global, path: &str, damage: Damage) -> Result<String, AllocError> {
    match damage {
        Damage::NoCertificate => {
            format!(in alloc; "cannot verify {path}: it is not a certificate")
        }
        Damage::OtherForm => format!(in alloc; "cannot verify {path}: it has another form"),
        Damage::CarriageReturn(line) => {
            format!(in alloc; "cannot verify {path}: line {line} has a carriage return")
        }
        Damage::Line(line) => format!(in alloc; "cannot verify {path}: line {line} is damaged"),
        Damage::Cut(line) => format!(in alloc; "cannot verify {path}: it is cut in line {line}"),
        Damage::Behind => format!(in alloc; "cannot verify {path}: it goes on after its end"),
    }
}

// Reports that a file has more bytes than what it should be can have: this many.
fn tell_too_long<R: Eprint + AllocGlobal>(
    rt: &R,
    failures: &mut Failures,
    path: &str,
    kind: &str,
    most: usize,
)
    ensures { has_failed failures.new ≡ true }
{
    failures.tell(
        rt,
        format!(in rt.alloc();
            "cannot verify {path}: it has more bytes than {kind} can have ({most})"
        ),
    );
}

// All bytes of the file at a path, if there are fewer than `limit`, as there are in each file of its kind. If it can't
// be read, or has more, that is reported: of a part of it nothing is said.
fn read_whole<R: Files + Eprint + Input + AllocGlobal>(
    rt: &R,
    failures: &mut Failures,
    path: &str,
    kind: &str,
    limit: usize,
) -> Option<Vec<u8>>
    requires { limit < 2 ^ 32 }
    ensures whole { IfSome result (λ bytes. vec_len bytes < limit) }
    ensures noted { Notes result (has_failed failures.old) (has_failed failures.new) }
{
    let bytes = failures.read(rt, path, limit)?;
    if bytes.len() < limit {
        return Some(bytes);
    }
    tell_too_long(rt, failures, path, kind, limit.saturating_sub(1));
    None
}

// The source and the image that are compared.
fn read_compared<R: Files + Eprint + Input + AllocGlobal>(
    rt: &R,
    failures: &mut Failures,
    names: &Names<'_>,
) -> Option<Pair>
    ensures { Notes result (has_failed failures.old) (has_failed failures.new) }
{
    let source = read_whole(rt, failures, names.source, "a source", TEXT_LIMIT)?;
    let image = read_whole(rt, failures, names.image, "an image", IMAGE_LIMIT)?;
    Some(Pair { source, image })
}

// Reports the comparison: on standard output if everything agrees, otherwise on standard error.
fn tell_comparison<R: Print + Eprint>(rt: &R, failures: &mut Failures, comparison: &Comparison)
    ensures { Keeps (has_failed failures.old) (has_failed failures.new) }
{
    if comparison.holds {
        failures.print(rt, &comparison.verdict);
    } else if let Ok(text) = str::from_utf8(&comparison.verdict) {
        let _ = rt.eprint(text);
    }
}

// Compares the values of a certificate with what was found of a source and an image, which are named as they are shown.
fn compared_found(
    alloc: Global,
    names: &Names<'_>,
    values: &[&[u8]],
    pair: &Pair,
    found: &Evidence<'_, '_>,
) -> Result<Comparison, AllocError>
    requires found { IsFound pair.now.source.items pair.now.image.items found.now }
    requires stack { (told : List ℕ) × TellsOfStack (map (λ value. value.now) found.now.maker.now) told
        × TellsStack pair.now.source.items told }
    ensures { IfOk result (IsComparison pair.now.source.items pair.now.image.items
        (map (λ value. value.now) values.now)) }
{
    let _ = pair;
    let certificate = printable(alloc, names.certificate)?;
    let source = printable(alloc, names.source)?;
    let image = printable(alloc, names.image)?;
    let shown = Names {
        certificate: certificate.as_str(),
        source: source.as_str(),
        image: image.as_str(),
    };
    compared(alloc, &shown, values, found)
}

// Compares the values of a certificate with a source and an image, given whether the image is the one built from the
// source.
fn comparison<R: Files + Env + AllocGlobal>(
    rt: &R,
    names: &Names<'_>,
    values: &[&[u8]],
    pair: &Pair,
    is_built: bool,
) -> Result<Comparison, AllocError>
    requires { IsBuiltOf pair.now.source.items pair.now.image.items is_built }
    ensures { IfOk result (IsComparison pair.now.source.items pair.now.image.items
        (map (λ value. value.now) values.now)) }
{
    let known = known_of(rt, &pair.source)?;
    let source = seal_of(rt.alloc(), &pair.source)?;
    let image = seal_of(rt.alloc(), &pair.image)?;
    let told = maker(&known);
    let found = Evidence {
        source: &source,
        image: &image,
        maker: &told,
        is_built,
    };
    compared_found(rt.alloc(), names, values, pair, &found)
}

// Whether a source is built as the image.
fn is_same(beside: Beside) -> bool
    ensures { result ≡ is_same beside }
{
    match beside {
        Beside::Same => true,
        Beside::Other => false,
        Beside::Refused => false,
    }
}

// Compares the values of a certificate with a source and an image that were read.
fn compare_pair<R: Files + Eprint + Env + AllocGlobal>(
    rt: &R,
    failures: &mut Failures,
    names: &Names<'_>,
    values: &[&[u8]],
    pair: &Pair,
) -> Option<Comparison>
    ensures compared { IfSome result (IsComparison pair.now.source.items pair.now.image.items
        (map (λ value. value.now) values.now)) }
    ensures noted { Notes result (has_failed failures.old) (has_failed failures.new) }
{
    let beside = built_beside(rt, failures, &pair.source, &pair.image)?;
    failures.made(rt, comparison(rt, names, values, pair, is_same(beside)))
}

// Compares the values of a certificate with a source and an image that were read, and reports the comparison.
fn verify_pair<R: Files + Print + Eprint + Env + AllocGlobal>(
    rt: &R,
    failures: &mut Failures,
    names: &Names<'_>,
    values: &[&[u8]],
    pair: &Pair,
) -> bool
    ensures { Tells result (has_failed failures.new)
        (AreCertified pair.now.source.items pair.now.image.items (map (λ value. value.now) values.now))
        (AreOthers pair.now.source.items pair.now.image.items (map (λ value. value.now) values.now)) }
{
    let Some(comparison) = compare_pair(rt, failures, names, values, pair) else {
        return false;
    };
    tell_comparison(rt, failures, &comparison);
    comparison.holds
}

// Reads a source and an image, and compares them with the values of a certificate.
fn verify_files<R: Files + Print + Eprint + Input + Env + AllocGlobal>(
    rt: &R,
    failures: &mut Failures,
    names: &Names<'_>,
    values: &[&[u8]],
) -> bool
    ensures { Tells result (has_failed failures.new) (SomeCertified (map (λ value. value.now) values.now))
        (SomeOthers (map (λ value. value.now) values.now)) }
{
    match read_compared(rt, failures, names) {
        Some(pair) => verify_pair(rt, failures, names, values, &pair),
        None => false,
    }
}

// Compares a certificate with a source and an image.
fn verify_text<R: Files + Print + Eprint + Input + Env + AllocGlobal>(
    rt: &R,
    failures: &mut Failures,
    names: &Names<'_>,
    certificate: &[u8],
) -> bool
    ensures { Tells result (has_failed failures.new) (CertifiesSome certificate.now) (HoldsNot certificate.now) }
{
    match failures.made(rt, parse(rt.alloc(), certificate)) {
        Some(Some(values)) => verify_files(rt, failures, names, &values),
        Some(None) => {
            let damage = damage_of(certificate);
            let _ = tell(rt, damage_told(rt.alloc(), names.certificate, damage));
            false
        }
        None => false,
    }
}

// Reads a certificate, and compares it with a source and an image.
fn verify_paths<R: Files + Print + Eprint + Input + Env + AllocGlobal>(
    rt: &R,
    failures: &mut Failures,
    names: &Names<'_>,
) -> bool
    ensures { Tells result (has_failed failures.new) SomeHolding NoneHolding }
{
    if !failures.are_apart(rt, &[names.certificate, names.source, names.image]) {
        return false;
    }
    match read_whole(
        rt,
        failures,
        names.certificate,
        "a certificate",
        CERTIFICATE_LIMIT,
    ) {
        Some(text) => verify_text(rt, failures, names, &text),
        None => false,
    }
}

/// Compares the certificate at a path with the text and the image at two others.
pub(crate) fn verify<R: Files + Print + Eprint + Input + Env + AllocGlobal>(
    rt: &R,
    failures: &mut Failures,
    job: &Job<'_>,
    certificate: &str,
    source: &str,
    image: &str,
) -> u8
    requires { work_of job.now.task ≡ work.verify certificate.now source.now image.now }
    ensures answer { Answers result (has_failed failures.new) SomeHolding NoneHolding }
    ensures status { IsStatus (request_in job.now) result }
{
    let _ = job;
    let names = Names {
        certificate,
        source,
        image,
    };
    let holds = verify_paths(rt, failures, &names);
    failures.status(holds)
}
