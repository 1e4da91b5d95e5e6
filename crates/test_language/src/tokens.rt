//! Tokens and what they denote.

use crate::front::put_refusal;
use ps_build::Refusal;
use ps_check_judgement::refusal::CheckRefusal;
use ps_scan::{
    ScanRefusal, Token, is_same_name, name_spelling, number_value, scan, string_length,
    string_value,
};
use ps_text::{Source, Span};
use std::alloc::Global;
use test_tables::Line;
use test_tables::words::letters;

/// The question about tokens.
#[derive(Clone, Copy)]
pub enum TokenQuery {
    /// Their kinds.
    Kinds,
    /// Where they begin, and the offsets after their ends; for a refusal its place.
    Spans,
}

fn put_span(line: &mut Line, span: Span) {
    line.numbered("", u64::from(span.from));
    line.numbered("-", u64::from(span.to));
}

fn put_token(line: &mut Line, token: Token, asked: TokenQuery) {
    line.space();
    match asked {
        TokenQuery::Kinds => line.seen("", &token.kind),
        TokenQuery::Spans => put_span(line, token.span),
    }
}

// Puts why a text has no tokens, with the line or the place of the fault.
fn put_fault(line: &mut Line, refusal: ScanRefusal, asked: TokenQuery) {
    if let (TokenQuery::Spans, Some(place)) = (asked, refusal.place()) {
        line.numbered("", u64::from(refusal.number()));
        line.valued(" ", &refusal);
        line.word(" at ");
        return put_span(line, place);
    }
    put_refusal(line, Refusal::from(refusal));
}

/// Puts the answer about a text's tokens, or the refusal.
pub(crate) fn put_tokens(alloc: Global, line: &mut Line, text: &[u8], asked: TokenQuery) {
    let Ok(source) = Source::new(text) else {
        return line.word("no source");
    };
    match scan(alloc, &source) {
        Ok(tokens) => {
            for token in &tokens {
                put_token(line, *token, asked);
            }
            line.none_if_empty();
        }
        Err(refusal) => put_fault(line, refusal, asked),
    }
}

/// Puts what a string denotes, and its length.
fn put_string(alloc: Global, line: &mut Line, literal: &[u8]) {
    line.made(string_value(alloc, literal));
    line.numbered(", ", string_length(literal) as u64);
    line.word(" characters");
}

fn put_same(line: &mut Line, names: &str) {
    let (a, b) = names.split_once(' ').unwrap_or(("", ""));
    let is_same = is_same_name(a.as_bytes(), b.as_bytes());
    line.word(if is_same { "yes" } else { "no" });
}

fn put_out_of_memory(line: &mut Line) {
    let refusal = CheckRefusal::OutOfMemory;
    line.numbered("", u64::from(refusal.number()));
    line.valued(" ", &refusal);
    line.valued(", with a line: ", &refusal.line().is_some());
}

/// Puts what a word of a row denotes, according to the word before it.
pub(crate) fn put_value(alloc: Global, line: &mut Line, row: &[u8]) {
    let (what, rest) = letters(row).split_once(' ').unwrap_or(("", ""));
    match what {
        "number" => line.numbered("", u64::from(number_value(rest.as_bytes()))),
        "string" => put_string(alloc, line, rest.as_bytes()),
        "name" => line.made(name_spelling(alloc, rest.as_bytes())),
        "same" => put_same(line, rest),
        "refusal" => put_out_of_memory(line),
        _ => line.word("no such word"),
    }
}
