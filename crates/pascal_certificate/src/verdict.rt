//! What is reported of a source and an image compared with a certificate.

ghost use Rattle.std.specs.Prelude.{◌≡◌, ◌++◌, IfOk, OnOk, flat_map, map};
ghost use Rattle.std.specs.List.{list_any};
ghost use Rattle.pascal_certificate.specs.Differences.{difference_of};
ghost use Rattle.pascal_certificate.specs.Verdict.{built_line, difference_line, either_text, file_line, is_of_image};
ghost use Rattle.pascal_certificate.specs.Verdict.{is_of_program, is_of_source, program_line, verdict_text};

use crate::compare::Change;
use crate::fact::{label, tells_image, tells_program, tells_source};
use std::alloc::{AllocError, Global};

/// What messages call the files.
#[derive(Clone, Copy)]
pub struct Names<'a> {
    pub certificate: &'a str,
    pub source: &'a str,
    pub image: &'a str,
}

fn put(out: &mut Vec<u8>, text: &str) -> Result<(), AllocError>
    ensures { OnOk result (out.new.items ≡ out.old.items ++ text.now) }
{
    out.extend_from_slice(text.as_bytes())
}

// Reports a fact that differs.
fn put_change(out: &mut Vec<u8>, change: &Change<'_, '_>) -> Result<(), AllocError>
    ensures { OnOk result (out.new.items ≡ out.old.items ++ difference_line (difference_of change.now)) }
{
    put(out, label(change.fact))?;
    put(out, " was ")?;
    out.extend_from_slice(change.old)?;
    put(out, " and is ")?;
    out.extend_from_slice(change.new)?;
    put(out, "\n")
}

// Reports each fact that differs.
fn put_changes(out: &mut Vec<u8>, changes: &[Change<'_, '_>]) -> Result<(), AllocError>
    ensures { OnOk result (out.new.items ≡ out.old.items ++ flat_map difference_line (map difference_of changes.now)) }
{
    let [change, behind @ ..] = changes else {
        return Ok(());
    };
    put_change(out, change)?;
    put_changes(out, behind)
}

// Reports one of two things of what has this name.
fn put_either(
    out: &mut Vec<u8>,
    name: &str,
    holds: bool,
    yes: &str,
    no: &str,
) -> Result<(), AllocError>
    ensures { OnOk result (out.new.items ≡ out.old.items ++ (name.now ++ either_text holds yes.now no.now)) }
{
    put(out, name)?;
    if holds { put(out, yes) } else { put(out, no) }
}

// Reports whether a file is what it was.
fn put_file(out: &mut Vec<u8>, name: &str, differs: bool) -> Result<(), AllocError>
    ensures { OnOk result (out.new.items ≡ out.old.items ++ file_line name.now differs) }
{
    put_either(
        out,
        name,
        differs,
        " is not what it was\n",
        " is what it was\n",
    )
}

// Reports whether the image is that of the source.
fn put_built(out: &mut Vec<u8>, names: &Names<'_>, is_built: bool) -> Result<(), AllocError>
    ensures { OnOk result (out.new.items ≡ out.old.items ++ built_line names.now is_built) }
{
    let yes = " is what this program builds of ";
    let no = " is not what this program builds of ";
    put_either(out, names.image, is_built, yes, no)?;
    put(out, names.source)?;
    put(out, "\n")
}

// Reports whether the certificate is of this program.
fn put_program(out: &mut Vec<u8>, names: &Names<'_>, differs: bool) -> Result<(), AllocError>
    ensures { OnOk result (out.new.items ≡ out.old.items ++ program_line names.now differs) }
{
    let yes = " names another program\n";
    let no = " names this program\n";
    put_either(out, names.certificate, differs, yes, no)
}

// Whether one of the facts is of the source.
fn has_source(changes: &[Change<'_, '_>]) -> bool
    ensures { result ≡ list_any is_of_source (map difference_of changes.now) }
{
    let [change, behind @ ..] = changes else {
        return false;
    };
    tells_source(change.fact) || has_source(behind)
}

// Whether one of the facts is of the image.
fn has_image(changes: &[Change<'_, '_>]) -> bool
    ensures { result ≡ list_any is_of_image (map difference_of changes.now) }
{
    let [change, behind @ ..] = changes else {
        return false;
    };
    tells_image(change.fact) || has_image(behind)
}

// Whether one of the facts is of the program.
fn has_program(changes: &[Change<'_, '_>]) -> bool
    ensures { result ≡ list_any is_of_program (map difference_of changes.now) }
{
    let [change, behind @ ..] = changes else {
        return false;
    };
    tells_program(change.fact) || has_program(behind)
}

/// A line for each fact that differs, followed by what each file is, and whether the image is that of the source.
pub fn verdict_text(
    alloc: Global,
    names: &Names<'_>,
    changes: &[Change<'_, '_>],
    is_built: bool,
) -> Result<Vec<u8>, AllocError>
    ensures { IfOk result (λ text. text.items ≡ verdict_text names.now (map difference_of changes.now) is_built) }
{
    let mut out = Vec::new(alloc);
    put_changes(&mut out, changes)?;
    put_file(&mut out, names.source, has_source(changes))?;
    put_file(&mut out, names.image, has_image(changes))?;
    put_built(&mut out, names, is_built)?;
    put_program(&mut out, names, has_program(changes))?;
    Ok(out)
}
