//! Certificates as they are read: exactly what is of the form.

ghost use Rattle.std.specs.Prelude.{◌≡◌, ◌≢◌, ◌<◌, ◌≤◌, ◌++◌, ◌∷◌, [], List, IfNone, IfOk, IfSome, codes, get_or};
ghost use Rattle.std.specs.Prelude.{length, map, take, true};
ghost use Rattle.pascal_certificate.specs.Facts.{Text, fits, unbroken};
ghost use Rattle.pascal_certificate.specs.Form.{IsCertificate, are_values, line_of, lines_of};

use crate::fact::{FACTS, Fact, fits, label};
use crate::form::{head, tail};
use std::alloc::{AllocError, Global};

// The rest of a text after a prefix, if it begins with that.
pub(crate) fn behind<'a>(text: &'a [u8], front: &[u8]) -> Option<&'a [u8]>
    ensures some { IfSome result (λ rest. text.entry.now ≡ front.now ++ rest.now) }
    ensures none { IfNone result ((rest : Text) → text.entry.now ≢ front.now ++ rest) }
{
    if text.len() < front.len() {
        return None;
    }
    let (start, rest) = text.split_at(front.len());
    if start == front { Some(rest) } else { None }
}

// How many bytes come before the first end of a line, or all if there is none.
fn line_end(text: &[u8]) -> usize
    ensures most { result ≤ length text.now }
    ensures unbroken { unbroken (take result text.now) ≡ true }
    ensures ends { result < length text.now → get_or text.now result 0 ≡ 10 }
{
    let mut at = 0;
    while at < text.len() && text[at] != b'\n' {
        at += 1;
    }
    at
}

/// The first line of a text, and what comes after its end.
pub(crate) fn first_line<'a>(text: &'a [u8]) -> Option<(&'a [u8], &'a [u8])>
    ensures some { IfSome result (λ parts. (unbroken parts.0.now ≡ true)
        × (text.entry.now ≡ parts.0.now ++ 10 ∷ parts.1.now)) }
    ensures none { IfNone result ((line rest : Text) → text.entry.now ≢ line ++ 10 ∷ rest) }
{
    let (line, rest) = text.split_at(line_end(text));
    let [_, behind @ ..] = rest else {
        return None;
    };
    Some((line, behind))
}

// The value of a fact, and what comes after its line, if a text begins with that.
pub(crate) fn value_line<'a>(text: &'a [u8], fact: Fact) -> Option<(&'a [u8], &'a [u8])>
    ensures some { IfSome result (λ found. (fits fact found.0.now ≡ true)
        × (text.entry.now ≡ line_of fact found.0.now ++ found.1.now)) }
    ensures none { IfNone result ((value rest : Text) → fits fact value ≡ true → text.entry.now ≢ line_of fact value
        ++ rest) }
{
    let rest = behind(text, label(fact).as_bytes())?;
    let rest = behind(rest, b": ")?;
    let (value, rest) = first_line(rest)?;
    if fits(fact, value) {
        Some((value, rest))
    } else {
        None
    }
}

// The first of some facts, and the others.
fn parted(facts: &[Fact]) -> Option<(Fact, &[Fact])>
    ensures some { IfSome result (λ parts. facts.now ≡ parts.0 ∷ parts.1.now) }
    ensures none { IfNone result (facts.now ≡ []) }
{
    let [fact, behind @ ..] = facts else {
        return None;
    };
    Some((*fact, behind))
}

// Takes the values of some facts, and returns what comes after their lines, if a text begins with these.
fn read_lines<'a>(
    text: &'a [u8],
    facts: &[Fact],
    values: &mut Vec<&'a [u8]>,
) -> Result<Option<&'a [u8]>, AllocError>
    ensures some { IfOk result (λ found. IfSome found (λ rest. (more : List Text)
        × (map (λ value. value.now) values.new.items ≡ map (λ value. value.now) values.old.items ++ more)
        × (are_values facts.now more ≡ true) × (text.entry.now ≡ lines_of facts.now more ++ rest.now))) }
    ensures none { IfOk result (λ found. IfNone found
        ((more : List Text) (rest : Text) → are_values facts.now more ≡ true
        → text.entry.now ≢ lines_of facts.now more ++ rest)) }
{
    let Some((fact, facts_behind)) = parted(facts) else {
        return Ok(Some(text));
    };
    let Some((value, rest)) = value_line(text, fact) else {
        return Ok(None);
    };
    values.push(value)?;
    read_lines(rest, facts_behind, values)
}

/// The values of a certificate, one for each fact; `None` if the text is not of the form. A text of the form has one
/// reading.
pub fn parse<'a>(alloc: Global, text: &'a [u8]) -> Result<Option<Vec<&'a [u8]>>, AllocError>
    ensures some { IfOk result (λ found. IfSome found
        (λ values. IsCertificate text.entry.now (map (λ value. value.now) values.items))) }
    ensures only { IfOk result (λ found. IfSome found
        (λ values. (others : List Text) → IsCertificate text.entry.now others
        → map (λ value. value.now) values.items ≡ others)) }
    ensures none { IfOk result (λ found.
        IfNone found ((values : List Text) → IsCertificate text.entry.now values → ⊥)) }
{
    let mut values = Vec::new(alloc);
    let Some(lines) = behind(text, head()) else {
        return Ok(None);
    };
    let Some(rest) = read_lines(lines, &FACTS, &mut values)? else {
        return Ok(None);
    };
    if rest == tail() {
        Ok(Some(values))
    } else {
        Ok(None)
    }
}
