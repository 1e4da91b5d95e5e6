//! Names that the text gives to values and fields.

use ps_scan::{Kind, Token};
use ps_text::{Source, Span};
use std::alloc::{AllocError, Global};

/// A text with its tokens.
#[derive(Clone, Copy)]
pub struct Text<'a> {
    pub source: &'a Source<'a>,
    pub tokens: &'a [Token],
}

/// The number of the first token that begins at or after an offset.
pub fn token_at(tokens: &[Token], offset: u32) -> usize {
    tokens.partition_point(|token| token.span.from < offset)
}

// More bytes of a name than are shown, by which it is seen to be long: the rest isn't read at each use.
const ENOUGH: u32 = 200;

impl<'a> Text<'a> {
    // A name, or the beginning of a long one.
    fn written(&self, name: Span) -> &'a str {
        let span = Span {
            from: name.from,
            to: name.to.min(name.from.saturating_add(ENOUGH)),
        };
        if span.from <= span.to && span.to <= self.source.len() {
            str::from_utf8(self.source.slice(span)).unwrap_or("?")
        } else {
            "?"
        }
    }

    /// The constant with this number of the enumerated type whose denoter begins at an offset: every second token after
    /// its parenthesis is one.
    pub(crate) fn constant(&self, denoter: u32, number: u32) -> &'a str {
        let first = token_at(self.tokens, denoter).saturating_add(1);
        let at = first.saturating_add((number as usize).saturating_mul(2));
        match self.tokens.get(at) {
            Some(token) => self.written(token.span),
            None => "?",
        }
    }

    /// The name of the field with this number of the record type whose denoter begins at an offset, given those of all
    /// record types. The first word `record` from there on is that of the denoter.
    pub(crate) fn field(&self, fields: &[FieldName], denoter: u32, number: usize) -> &'a str {
        let first = fields.partition_point(|field| field.record < denoter);
        let record = match fields.get(first) {
            Some(field) => field.record,
            None => u32::MAX,
        };
        match fields.get(first.saturating_add(number)) {
            Some(field) if field.record == record => self.written(field.name),
            _ => "?",
        }
    }
}

/// The name of a field.
#[derive(Clone, Copy)]
pub struct FieldName {
    /// Where the word `record` of its type begins.
    pub(crate) record: u32,
    pub(crate) name: Span,
}

/// The names of the fields of all record types of a text, in the order of the types and of their fields.
pub fn field_names(alloc: Global, tokens: &[Token]) -> Result<Vec<FieldName>, AllocError> {
    let mut fields: Vec<FieldName> = Vec::new(alloc);
    let mut open: Vec<u32> = Vec::new(alloc);
    let mut is_named = false;
    for token in tokens {
        match token.kind {
            Kind::Record => open.push(token.span.from)?,
            Kind::End => {
                open.pop();
            }
            Kind::Name if is_named => add_field(&mut fields, open.last().copied(), token.span)?,
            _ => {}
        }
        is_named = names_follow(token.kind, is_named);
    }
    fields.sort_by_key(|field| field.record)?;
    Ok(fields)
}

// Whether the next name within a record is that of a field, after a token: not in the type of one.
fn names_follow(kind: Kind, is_named: bool) -> bool {
    match kind {
        Kind::Record | Kind::Semicolon => true,
        Kind::Colon | Kind::End => false,
        _ => is_named,
    }
}

// Adds a name of a field, if it is within a record.
fn add_field(
    fields: &mut Vec<FieldName>,
    record: Option<u32>,
    name: Span,
) -> Result<(), AllocError> {
    match record {
        Some(record) => {
            fields.push(FieldName { record, name })?;
            Ok(())
        }
        None => Ok(()),
    }
}
