//! A source and an image compared with the values of a certificate.

ghost use Rattle.std.specs.Prelude.{◌≡◌, ◌==◌, ◌&&◌, IfOk, length, map};
ghost use Rattle.pascal_certificate.specs.Compared.{CertifiesFound, IsTold, holds};
ghost use Rattle.pascal_certificate.specs.Differences.{differences};
ghost use Rattle.pascal_certificate.specs.Facts.{facts};
ghost use Rattle.pascal_certificate.specs.Verdict.{verdict_text};

use crate::compare::changes;
use crate::made::{Seal, values_of};
use crate::verdict::{Names, verdict_text};
use std::alloc::{AllocError, Global};

/// What is found to compare with a certificate.
#[derive(Clone, Copy)]
pub struct Evidence<'a, 'b> {
    pub source: &'a Seal,
    pub image: &'a Seal,
    /// What the program says of itself: a value for each fact after the fourth.
    pub maker: &'b [&'a [u8]],
    /// Whether the image is the one that the program builds of the source.
    pub is_built: bool,
}

/// What comes of a certificate and what is found.
#[derive(Drop)]
pub struct Comparison {
    /// Whether each fact is as it was, and the image is that of the source.
    pub holds: bool,
    /// What is reported of each file.
    pub verdict: Vec<u8>,
}

// Compares values that were with those that are now.
fn compared_values(
    alloc: Global,
    names: &Names<'_>,
    olds: &[&[u8]],
    news: &[&[u8]],
    is_built: bool,
) -> Result<Comparison, AllocError>
    ensures told { IfOk result (λ c. c.verdict.items ≡ verdict_text names.now
        (differences facts (map (λ value. value.now) olds.now) (map (λ value. value.now) news.now)) is_built) }
    ensures holds { IfOk result (λ c. c.holds ≡ (is_built
        && (length (differences facts (map (λ value. value.now) olds.now) (map (λ value. value.now) news.now)) == 0))) }
{
    let changes = changes(alloc, olds, news)?;
    let verdict = verdict_text(alloc, names, &changes, is_built)?;
    Ok(Comparison {
        holds: is_built && changes.is_empty(),
        verdict,
    })
}

/// Compares the values of a certificate with what is found.
pub fn compared(
    alloc: Global,
    names: &Names<'_>,
    olds: &[&[u8]],
    found: &Evidence<'_, '_>,
) -> Result<Comparison, AllocError>
    ensures told { IfOk result (IsTold names.now (map (λ value. value.now) olds.now) found.now) }
    ensures holds { IfOk result (λ c. c.holds ≡ holds (map (λ value. value.now) olds.now) found.now) }
    ensures certifies { IfOk result (CertifiesFound (map (λ value. value.now) olds.now) found.now) }
{
    let news = values_of(alloc, found.source, found.image, found.maker)?;
    compared_values(alloc, names, olds, &news, found.is_built)
}
