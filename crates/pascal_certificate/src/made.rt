//! Certificates as they are made.

ghost use Rattle.std.specs.Prelude.{◌≡◌, IfOk, map, string_bytes};
ghost use Rattle.pascal_certificate.specs.Form.{certificate_text, size_text, sum_text};
ghost use Rattle.pascal_certificate.specs.Sealed.{IsSeal, sealed_values};

use crate::form::render;
use sha2::{Digest, Sha256};
use std::alloc::{AllocError, Global};

/// The sum of bytes, in hexadecimal digits.
pub fn sum_of(alloc: Global, bytes: &[u8]) -> Result<String, AllocError>
    ensures { IfOk result (λ text. string_bytes text ≡ sum_text bytes.now) }
{
    let sum: [u8; 32] = Sha256::digest(bytes);
    hex::encode(alloc, sum)
}

/// How many bytes there are, in decimal digits.
pub fn size_of(alloc: Global, bytes: &[u8]) -> Result<String, AllocError>
    ensures { IfOk result (λ text. string_bytes text ≡ size_text bytes.now) }
{
    let size = bytes.len();
    format!(in alloc; "{size}")
}

/// The sum and the size of bytes.
#[derive(Drop)]
pub struct Seal {
    pub sum: String,
    pub size: String,
}

/// The sum and the size of bytes.
pub fn seal_of(alloc: Global, bytes: &[u8]) -> Result<Seal, AllocError>
    ensures { IfOk result (IsSeal bytes.now) }
{
    let sum = sum_of(alloc, bytes)?;
    let size = size_of(alloc, bytes)?;
    Ok(Seal { sum, size })
}

/// The values of all facts: of the source, the image, and what the program says of itself.
pub(crate) fn values_of<'a>(
    alloc: Global,
    source: &'a Seal,
    image: &'a Seal,
    maker: &[&'a [u8]],
) -> Result<Vec<&'a [u8]>, AllocError>
    ensures { IfOk result (λ values. map (λ value. value.now) values.items
        ≡ sealed_values source.entry.now image.entry.now (map (λ value. value.now) maker.now)) }
{
    let sealed = [
        source.sum.as_bytes(),
        source.size.as_bytes(),
        image.sum.as_bytes(),
        image.size.as_bytes(),
    ];
    let mut values = Vec::new(alloc);
    values.extend_from_slice(&sealed)?;
    values.extend_from_slice(maker)?;
    Ok(values)
}

/// The certificate of a source and an image, with what the program says of itself: a value for each fact after the
/// fourth.
pub fn certificate_of<'a>(
    alloc: Global,
    source: &'a Seal,
    image: &'a Seal,
    maker: &[&'a [u8]],
) -> Result<Vec<u8>, AllocError>
    ensures { IfOk result (λ text. text.items ≡ certificate_text
        (sealed_values source.entry.now image.entry.now (map (λ value. value.now) maker.now))) }
{
    let values = values_of(alloc, source, image, maker)?;
    render(alloc, &values)
}
